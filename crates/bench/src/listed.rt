// The cases of the listing: document 01, "The listing".
use crate::drafts::Draft;
use crate::{drafts, tables};
use listing::{LISTING_ROOM, LONGEST_INPUT};
use std::io;

// One byte more than the longest input that is listed.
const ROOM: usize = LONGEST_INPUT + 1;

type Input = Draft<ROOM>;

// A longer listing than this is shown by its last line.
const SHOWN: usize = 100;

// That line is `end 32767`, with its line feed.
const LAST_LINE: usize = 10;

pub(crate) fn cases(rt: &impl Print) -> io::Result<()> {
    inputs(rt)?;
    // As long as an input that is listed may be, and longer.
    long_input(rt, 32768)?;
    long_input(rt, 32769)
}

// What a row feeds is the input by its parts: the two bytes of the stated length, the letter of the card, the frames. The first two end
// before they have a card.
fn inputs(rt: &impl Print) -> io::Result<()> {
    tables::each(
        rt,
        b"the empty input|;\
          an input of one byte|\x14;\
          P and no frames|\x14\x00P;\
          the first 19 bytes of P, 20 stated|\x14\x00p;\
          P, 2048 bytes stated|\x00\x08P;\
          P, 2049 bytes stated|\x01\x08P;\
          P and the frames 3, 3, 3, 2|\x14\x00P\x03\x03\x03\x02;\
          P and the frames 3, 3, 4, 2|\x14\x00P\x03\x03\x04\x02;\
          k 4, n 8 and the frames 16, 2, 187, 240|\x53\x00E\x10\x02\xbb\xf0;",
        |fed| row(rt, fed),
    )
}

fn row(rt: &impl Print, fed: &[u8]) -> io::Result<()> {
    let input: Input = match fed {
        [low, high, letter, frames @ ..] => Draft::of(&[*low, *high])
            .bytes(drafts::named(*letter).front())
            .bytes(frames),
        _ => Draft::of(fed),
    };
    listed(rt, input.front())
}

// P with so many frames.
fn long_input(rt: &impl Print, count: usize) -> io::Result<()> {
    print!(rt; "P and {count} frames")?;
    let mut input: Input = Draft::of(b"\x14\x00").bytes(drafts::named(b'P').front());
    for _ in 0..count {
        input.put(0);
    }
    listed(rt, input.front())
}

fn listed(rt: &impl Print, input: &[u8]) -> io::Result<()> {
    let mut output = [0u8; LISTING_ROOM];
    let count = listing::list(input, &mut output);
    rt.write_all(b", listed:\n")?;
    shown(rt, &output[..count])
}

fn shown(rt: &impl Print, listing: &[u8]) -> io::Result<()> {
    let length = listing.len();
    if SHOWN < length {
        rt.write_all(b"..\n")?;
        rt.write_all(&listing[length - LAST_LINE..])
    } else {
        rt.write_all(listing)
    }
}
