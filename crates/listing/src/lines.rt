// The lines of the listing and of an audit, laid out by a cursor.
ghost use Rattle.std.specs.Prelude.{◌≡◌, map, ◌++◌, ◌+◌, ◌≤◌, ◌<◌, length};
ghost use Rattle.bits.specs.Sums.{up_to};
ghost use Rattle.bits.specs.Digits.{bit};
ghost use Rattle.code.specs.Guarantees.{Guarantees};
ghost use Rattle.card.specs.Refusals.{number_of};
ghost use Rattle.outcomes.specs.Text.{text, decimal, spaced};
ghost use Rattle.outcomes.specs.Listing.{too_long_line, refused_line, card_line, frame_line, frame_lines, line_of_end};
ghost use Rattle.outcomes.specs.Wrote.{Stored};
ghost use Rattle.listing.specs.Auditing.{not_read_line};
ghost use Rattle.listing.specs.Written.{lettered, sizes, StoredLine};

use crate::text::{glyph, number, numbered};
use card::Refusal;
use code::Card;
use outcomes::cursor::Cursor;

pub(crate) fn too_long(cursor: &mut Cursor<'_>)
    ensures { StoredLine 15 cursor.old cursor.new too_long_line }
{
    cursor.put_all(b"input too long\n");
}

pub(crate) fn not_read(cursor: &mut Cursor<'_>)
    ensures { StoredLine 9 cursor.old cursor.new not_read_line }
{
    cursor.put_all(b"not read\n");
}

// The number has up to three digits, the place up to twenty.
pub(crate) fn refused(cursor: &mut Cursor<'_>, refusal: Refusal, place: usize)
    ensures { StoredLine 36 cursor.old cursor.new (refused_line (number_of refusal) place) }
{
    numbered(cursor, b"refused ", usize::from(u8::from(refusal)));
    numbered(cursor, b" at ", place);
    cursor.put(b'\n');
}

// A size of a card, after its letter.
fn lettered(cursor: &mut Cursor<'_>, letter: u8, n: usize)
    ensures { Stored cursor.old cursor.new (lettered letter n) }
{
    numbered(cursor, &[b' ', letter, b' '], n);
}

// The sizes of a card.
fn sizes(cursor: &mut Cursor<'_>, k: usize, n: usize, m: usize)
    ensures { Stored cursor.old cursor.new (sizes k n m) }
{
    lettered(cursor, b'k', k);
    lettered(cursor, b'n', n);
    lettered(cursor, b'm', m);
}

pub(crate) fn card_line(cursor: &mut Cursor<'_>, card: &Card)
    requires { card.now.k + card.now.p ≤ 8 }
    ensures { Stored cursor.old cursor.new (card_line card.now.number card.now.k (card.now.k + card.now.p) card.now.m) }
{
    numbered(cursor, b"card ", usize::from(card.number));
    sizes(cursor, card.k, card.k + card.p, card.m);
    cursor.put(b'\n');
}

pub(crate) fn end_line(cursor: &mut Cursor<'_>, count: usize)
    ensures { Stored cursor.old cursor.new (line_of_end count) }
{
    numbered(cursor, b"end ", count);
    cursor.put(b'\n');
}

// The digit of stream i of a frame, after a space.
fn stream_digit(cursor: &mut Cursor<'_>, frame: u8, i: usize)
    ensures { Stored cursor.old cursor.new (text " " ++ decimal (bit frame i)) }
{
    // No `numbered`: its call would be made for one byte.
    let digit = bits::digit(u32::from(frame), i) as usize;
    cursor.put_all(&[b' ', glyph(digit)]);
}

// The digits of streams 1 to k of a frame, each after a space.
fn stream_digits(cursor: &mut Cursor<'_>, k: usize, frame: u8)
    ensures { Stored cursor.old cursor.new (spaced (map decimal (up_to k (bit frame)))) }
{
    for i in 0..k {
        stream_digit(cursor, frame, i);
    }
}

fn frame_line(cursor: &mut Cursor<'_>, k: usize, time: usize, frame: u8)
    ensures { Stored cursor.old cursor.new (frame_line k time frame) }
{
    number(cursor, time);
    stream_digits(cursor, k, frame);
    cursor.put(b'\n');
}

// A line per frame, the times from 0 on.
fn frame_lines(cursor: &mut Cursor<'_>, k: usize, frames: &[u8])
    ensures { Stored cursor.old cursor.new (frame_lines k 0 frames.now) }
{
    for (time, frame) in frames.iter().enumerate() {
        frame_line(cursor, k, time, *frame);
    }
}

// The lines of the frames, and the count of these lines.
pub(crate) fn counted_lines(cursor: &mut Cursor<'_>, k: usize, frames: &[u8])
    ensures { Stored cursor.old cursor.new (frame_lines k 0 frames.now ++ line_of_end (length frames.now)) }
{
    frame_lines(cursor, k, frames);
    end_line(cursor, frames.len());
}
