// The masks of parity streams, and their map.
ghost use Rattle.std.specs.Prelude.{◌≡◌, [], ◌∷◌, ◌^◌, ◌<◌, ◌≤◌, length};
ghost use Rattle.card.specs.Layout.{map_of, layout_masks};
ghost use Rattle.outcomes.specs.Wrote.{Stored};

use outcomes::cursor::Cursor;

// The four bytes of a mask, none of a mask that is zero.
fn mask(cursor: &mut Cursor<'_>, value: u32)
    ensures { Stored cursor.old cursor.new (layout_masks (value ∷ [])) }
{
    if value != 0 {
        cursor.put_all(&value.to_le_bytes());
    }
}

// The masks that are not zero.
pub(crate) fn masks(cursor: &mut Cursor<'_>, masks: &[u32])
    ensures { Stored cursor.old cursor.new (layout_masks masks.now) }
{
    for value in masks {
        mask(cursor, *value);
    }
}

// The map of some masks: bit j is 1 where mask j is not zero.
pub(crate) fn map(masks: &[u32]) -> u32
    requires { length masks.now ≤ 8 }
    ensures { (result ≡ map_of masks.now) × (result < 2 ^ length masks.now) }
{
    let mut map: u32 = 0;
    for (j, mask) in masks.iter().enumerate() {
        map += u32::from(*mask != 0) << j;
    }
    map
}
