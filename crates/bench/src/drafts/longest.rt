// The longest card that there is: 755 bytes, k 4, n 8, every mask standing and ten checks for every stream.
//
// It is a code with one information and one parity stream, four of its frames taken as one: what lies r frames after information stream i
// is at offset (i + r) / 4 of parity stream (i + r) % 4. So the same sums of syndromes are the checks of all four streams. The generator's
// terms and the checks were found by a random search: annealing over the terms, and over the check that each syndrome goes to. It found sixteen
// checks, of which these are the first ten.
use crate::drafts::{Card, Draft};
use code::MOST_CHECKS;

// Of what lies after information stream i, that on parity stream j, as a mask.
fn gathered(after: &[u8], i: u8, j: usize) -> u32 {
    after
        .iter()
        .map(|&place| usize::from(place) + usize::from(i))
        .filter(|&place| place % 4 == j)
        .fold(0, |m, place| m | bits::shift_up(1, place / 4))
}

// The masks of the four parity streams.
fn masks(draft: Card, after: &[u8], i: u8) -> Card {
    (0..4).fold(draft, |drafted, j| drafted.mask(gathered(after, i, j)))
}

// The generators of information stream i, by the terms of the one generator.
fn generators(draft: Card, i: u8) -> Card {
    masks(
        draft,
        b"\x00\x3a\x46\x57\x5b\x5f\x63\x65\x68\x6c\x6d\x71\x77\x79\x7a\x7b",
        i,
    )
}

// A check over all four parity streams.
fn check(draft: Card, after: &[u8], i: u8) -> Card {
    masks(draft.byte(15), after, i)
}

// What stands between two checks; no check reaches so far.
const BETWEEN: u8 = 255;

// J, the most there may be, and the checks of an information stream.
fn stream(draft: Card, i: u8) -> Card {
    b"\x00\x17\x36\x51\xff\
      \x0f\x28\x35\x3a\xff\
      \x01\x0c\x3b\x46\xff\
      \x11\x20\x2a\x57\xff\
      \x10\x15\x4a\x5b\xff\
      \x04\x19\x42\x5f\xff\
      \x14\x1d\x29\x3e\x4e\x52\x63\xff\
      \x02\x13\x1b\x2d\x54\x59\x61\x65\xff\
      \x0d\x22\x4b\x68\xff\
      \x07\x0b\x26\x32\x45\x4f\x53\x6c"
        .split(|&value| value == BETWEEN)
        .fold(
            draft.byte(MOST_CHECKS as u8),
            |drafted, after| check(drafted, after, i),
        )
}

pub(crate) fn longest() -> Card {
    let head = Draft::of(b"\x03\x63\x04\x08\x1f\xff\xff");
    let code = (0..4).fold(head, generators);
    (0..4).fold(code, stream)
}
