// The cards of document 01, "Cards on the bench", byte by byte, and some of P and Q with a part changed. `card`, `specs/Bench.antt`, has the
// same ones as lists. A line has the head and the generator map, the generators with J, or the checks of a stream.
use crate::drafts::{Card, Draft};

pub(crate) fn p() -> Card {
    Draft::of(
        b"\x00\x07\x01\x01\x00\
          \x03\x00\x00\x00\x02\
          \x01\x01\x00\x00\x00\x01\x02\x00\x00\x00",
    )
}

pub(crate) fn q() -> Card {
    Draft::of(
        b"\x00\x08\x03\x01\x00\
          \x0b\x00\x00\x00\x03\
          \x01\x01\x00\x00\x00\x01\x02\x00\x00\x00\x01\x08\x00\x00\x00",
    )
}

// "Q with s2 as a fourth check."
pub(crate) fn q_with_s2() -> Card {
    Draft::of(
        b"\x00\x08\x03\x01\x00\
          \x0b\x00\x00\x00\x04\
          \x01\x01\x00\x00\x00\x01\x02\x00\x00\x00\x01\x08\x00\x00\x00\x01\x04\x00\x00\x00",
    )
}

pub(crate) fn r() -> Card {
    Draft::of(
        b"\x00\x09\x05\x01\x00\
          \x39\x00\x00\x00\x04\
          \x01\x01\x00\x00\x00\x01\x08\x00\x00\x00\x01\x10\x00\x00\x00\x01\x22\x00\x00\x00",
    )
}

pub(crate) fn t() -> Card {
    Draft::of(
        b"\x03\x0a\x02\x03\x02\x03\x00\
          \x03\x00\x00\x00\x05\x00\x00\x00\
          \x02\x01\x01\x00\x00\x00\x01\x02\x00\x00\x00\
          \x02\x01\x01\x00\x00\x00\x01\x04\x00\x00\x00",
    )
}

// P with m 31, the generator with terms 0 and 31, and the checks s0 and s31.
pub(crate) fn p_reaching_31() -> Card {
    Draft::of(
        b"\x00\x07\x1f\x01\x00\
          \x01\x00\x00\x80\x02\
          \x01\x01\x00\x00\x00\x01\x00\x00\x00\x80",
    )
}

// P as it may be stored since before R-4: k stated as 1, n as 2.
pub(crate) fn p_with_defaults() -> Card {
    Draft::of(
        b"\x03\x07\x01\x02\x01\x01\x00\
          \x03\x00\x00\x00\x02\
          \x01\x01\x00\x00\x00\x01\x02\x00\x00\x00",
    )
}

// P with no generator: the map is zero.
pub(crate) fn p_without_generator() -> Card {
    Draft::of(
        b"\x00\x07\x01\x00\x00\
          \x02\
          \x01\x01\x00\x00\x00\x01\x02\x00\x00\x00",
    )
}
