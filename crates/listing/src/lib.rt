// The listing: a card and received frames as text. Beside it, stored cards audited, and written anew.
#![tactic(auto)]

pub mod auditing;
mod lines;
pub mod rewriting;
mod stored;
mod text;

ghost use Rattle.std.specs.Prelude.{◌≡◌, false, ◌+◌, ◌^◌, ◌≤◌, length, leb, position};
ghost use Rattle.bits.specs.Digits.{any_beyond};
ghost use Rattle.code.specs.Code.{most_frames};
ghost use Rattle.code.specs.Guarantees.{Guarantees};
ghost use Rattle.card.specs.Outcome.Outcome.{accepted};
ghost use Rattle.card.specs.Reading.{read_card};
ghost use Rattle.majority.specs.Plain.{decoded};
ghost use Rattle.outcomes.specs.Claims.{Admitted};
ghost use Rattle.outcomes.specs.Listing.{listing, listing_of, listing_under};
ghost use Rattle.listing.specs.AtFront.{AtFront};
ghost use Rattle.listing.specs.Promise.{Lists};
ghost use Rattle.listing.specs.Written.{StoredLine, ReadAs};

use card::{CardRule, Refusal};
use code::Card;
use outcomes::cursor::Cursor;
use outcomes::{MOST_CARD_BYTES, stated_length};

// The most frames that are listed.
const MOST_LISTED: usize = 32768;

// The longest input that is listed: two bytes of length, the longest card and the most frames.
pub const LONGEST_INPUT: usize = 2 + MOST_CARD_BYTES + MOST_LISTED;

// No listing is longer: the first line has at most 22 bytes (`card 255 k 4 n 8 m 31`), that of each frame at most 14 (a time of five digits,
// four streams), the last one at most 10 (`end 32768`), and a refusal or `input too long` stands alone.
pub const LISTING_ROOM: usize = 22 + 14 * MOST_LISTED + 10;

// The time of the first frame with a digit at stream n or beyond.
fn first_beyond(frames: &[u8], n: usize) -> Option<usize>
    ensures { result ≡ position (leb (2 ^ n)) frames.now }
{
    frames.iter().position(|frame| bits::beyond(*frame, n))
}

// The frames handed out for a burst that meets no refusal, at the front of the buffer: the count of them.
fn receive(card: &[u8], frames: &[u8], buffer: &mut [u8]) -> usize
    requires { Admitted card.now frames.now buffer.old }
    ensures { AtFront most_frames (decoded (read_card card.now).card frames.now) buffer.old result buffer.new }
{
    burst::receive::burst_receive(card, frames, buffer) as usize
}

// The listing of frames handed out: the card's line, a line per frame, and the count of these lines.
fn list_handed_out(card: &Card, frames: &[u8], cursor: &mut Cursor<'_>)
    requires { Guarantees card.now × (length frames.now ≤ 32768) }
    ensures { StoredLine 458784 cursor.old cursor.new (listing_of card.now frames.now) }
{
    lines::card_line(cursor, card);
    lines::counted_lines(cursor, card.k, frames);
}

// The listing of what is handed out for frames within their streams.
fn list_received(card: &Card, bytes: &[u8], frames: &[u8], cursor: &mut Cursor<'_>)
    requires { ReadAs bytes.now card.now × (any_beyond (card.now.k + card.now.p) frames.now ≡ false) × (length frames.now ≤ 32768) }
    ensures { StoredLine 458784 cursor.old cursor.new (listing_of card.now (decoded card.now frames.now)) }
{
    let mut buffer = [0u8; MOST_LISTED];
    let count = receive(bytes, frames, &mut buffer);
    list_handed_out(card, &buffer[..count], cursor);
}

// The listing under an accepted card. Every frame is looked at before a line is written.
fn list_frames(card: &Card, bytes: &[u8], frames: &[u8], cursor: &mut Cursor<'_>)
    requires { ReadAs bytes.now card.now × (length frames.now ≤ 32768) }
    ensures { StoredLine 458784 cursor.old cursor.new (listing_under accepted card.now frames.now) }
{
    match first_beyond(frames, card.k + card.p) {
        Some(time) => lines::refused(cursor, Refusal::DigitBeyondStreams, time),
        None => list_received(card, bytes, frames, cursor),
    }
}

// The listing of a card's bytes and frames.
fn list_parts(bytes: &[u8], frames: &[u8], cursor: &mut Cursor<'_>)
    requires { length frames.now ≤ 32768 }
    ensures { StoredLine 458784 cursor.old cursor.new (listing_under (read_card bytes.now).outcome (read_card bytes.now).card frames.now) }
{
    match card::read_card(CardRule::Present, bytes) {
        Ok(card) => list_frames(&card, bytes, frames, cursor),
        Err(fault) => lines::refused(cursor, fault.refusal, fault.offset),
    }
}

// The listing of an input.
fn list_input(input: &[u8], cursor: &mut Cursor<'_>)
    ensures { StoredLine 458784 cursor.old cursor.new (listing input.now) }
{
    let length = stated_length(input);
    let (_, rest) = input.split_at(input.len().min(2));
    let (card, frames) = rest.split_at(rest.len().min(length));
    if MOST_CARD_BYTES < length {
        return lines::too_long(cursor);
    }
    if MOST_LISTED < frames.len() {
        return lines::too_long(cursor);
    }
    list_parts(card, frames, cursor)
}

// The listing of an input, at the front of the output: the count of its bytes. No call runs out of room.
pub fn list(input: &[u8], output: &mut [u8; LISTING_ROOM]) -> usize
    ensures { Lists input.now output.old result output.new }
{
    let mut cursor = Cursor::new(output);
    list_input(input, &mut cursor);
    cursor.at
}
