// The parts of a card: the head, the generators, and the checks of the information streams.
ghost use Rattle.std.specs.Prelude.{◌≡◌, [], ◌∷◌, ◌<◌, ◌≤◌, length, get_or, min};
ghost use Rattle.code.specs.Limits.{most_checks};
ghost use Rattle.card.specs.Layout.{map_of, optional, layout_head, all_rows, layout_rows, layout_checks, layout_streams};
ghost use Rattle.outcomes.specs.Wrote.{Stored};
ghost use Rattle.card.specs.Written.{stated, p_of, stream_of, fields_of};

use crate::masks;
use code::{CHECK_STRIDE, Card, MOST_CHECKS, Sizes};
use outcomes::cursor::Cursor;

// A field's bit of byte 0.
fn stated(default: usize, value: usize) -> u8
    ensures { (result ≡ stated default value) × (result ≤ 1) }
{
    u8::from(value != default)
}

// A field, unless it is equal to its default.
fn field(cursor: &mut Cursor<'_>, default: usize, value: usize)
    requires { value < 256 }
    ensures { Stored cursor.old cursor.new (optional (stated default value) value) }
{
    if value != default {
        cursor.put(value as u8);
    }
}

// The fields before the generators.
pub(crate) fn head(cursor: &mut Cursor<'_>, card: &Card)
    ensures { Stored cursor.old cursor.new (layout_head (fields_of card.now).head) }
{
    let Sizes { k, n, m, .. } = card.sizes();
    cursor.put(stated(1, k) + 2 * stated(2, n));
    cursor.put(card.number);
    field(cursor, 1, k);
    field(cursor, 2, n);
    cursor.put(m.min(31) as u8);
}

// The map of the generators of all information streams: stream 1 has the lowest p bits.
fn generator_map(card: &Card) -> u16
    ensures { result ≡ map_of (all_rows (fields_of card.now).rows) }
{
    let Sizes { k, p, .. } = card.sizes();
    // By place: the stride is the table's, and the map shifts by i.
    let mut map: u32 = 0;
    for i in 0..k {
        map += masks::map(&card.generators[i * 8..i * 8 + p]) << (i * p);
    }
    map as u16
}

// The generator map and the generators that are not zero.
pub(crate) fn generators(cursor: &mut Cursor<'_>, card: &Card)
    ensures { Stored cursor.old cursor.new (layout_rows (fields_of card.now).rows) }
{
    let Sizes { k, p, .. } = card.sizes();
    cursor.put_all(&generator_map(card).to_le_bytes());
    for i in 0..k {
        masks::masks(cursor, &card.generators[i * 8..i * 8 + p]);
    }
}

// A check: its map byte and the masks.
fn check(cursor: &mut Cursor<'_>, masks: &[u32])
    requires { length masks.now ≤ 8 }
    ensures { Stored cursor.old cursor.new (layout_checks (masks.now ∷ [])) }
{
    cursor.put(masks::map(masks) as u8);
    masks::masks(cursor, masks);
}

// An information stream: J and its checks.
fn stream(cursor: &mut Cursor<'_>, card: &Card, i: usize)
    requires { i < 4 }
    ensures { Stored cursor.old cursor.new
        (layout_streams (stream_of card.now.checks i (min (get_or card.now.counts i 0) most_checks) (p_of card.now) ∷ [])) }
{
    let p = card.sizes().p;
    let count = (card.counts[i] as usize).min(MOST_CHECKS);
    cursor.put(count as u8);
    for q in 0..count {
        let start = i * CHECK_STRIDE + q * 8;
        check(cursor, &card.checks[start..start + p]);
    }
}

// The information streams, one after the other.
pub(crate) fn streams(cursor: &mut Cursor<'_>, card: &Card)
    ensures { Stored cursor.old cursor.new (layout_streams (fields_of card.now).streams) }
{
    for i in 0..card.sizes().k {
        stream(cursor, card, i);
    }
}
