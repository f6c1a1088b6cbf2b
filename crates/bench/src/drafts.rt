// Cards for the bench, drafted byte by byte: those of document 01, "Cards on the bench", and those that its other cases ask for.
mod document;
mod longest;
mod streams;

ghost use Rattle.std.specs.Prelude.{◌≤◌};

use card::LONGEST_CARD;

// Bytes put one after the other, as far as there is room: on no heap, so that the room is fixed.
#[derive(Drop)]
pub(crate) struct Draft<const ROOM: usize> {
    bytes: [u8; ROOM],
    len: usize,
    ghost within: { len ≤ ROOM },
}

impl<const ROOM: usize> Draft<ROOM> {
    pub(crate) fn of(values: &[u8]) -> Self {
        let empty = Draft {
            bytes: [0; ROOM],
            len: 0,
        };
        empty.bytes(values)
    }

    pub(crate) fn front(&self) -> &[u8] {
        &self.bytes[..self.len]
    }

    pub(crate) fn put(&mut self, value: u8) {
        if self.len < ROOM {
            self.bytes[self.len] = value;
            self.len += 1;
        }
    }

    pub(crate) fn byte(mut self, value: u8) -> Self {
        self.put(value);
        self
    }

    pub(crate) fn bytes(mut self, values: &[u8]) -> Self {
        for &value in values {
            self.put(value);
        }
        self
    }

    // The same bytes, some times.
    pub(crate) fn repeated(mut self, values: &[u8], times: u8) -> Self {
        for _ in 0..times {
            self = self.bytes(values);
        }
        self
    }

    // "Integers are little-endian."
    pub(crate) fn mask(self, m: u32) -> Self {
        self.bytes(&m.to_le_bytes())
    }

    // The byte at an offset changed.
    pub(crate) fn changed(mut self, offset: usize, value: u8) -> Self {
        if offset < ROOM {
            self.bytes[offset] = value;
        }
        self
    }

    // Only the first bytes.
    pub(crate) fn cut(mut self, len: usize) -> Self {
        self.len = self.len.min(len);
        self
    }
}

// The longest card, and a byte added to it.
const CARD_ROOM: usize = LONGEST_CARD + 1;

pub(crate) type Card = Draft<CARD_ROOM>;

// A card by the letter that the bench's rows have for it; a small letter is for a card that is not accepted under the present rule. Any other
// byte names the card of no bytes.
pub(crate) fn named(letter: u8) -> Card {
    match letter {
        b'P' => document::p(),
        b'Q' => document::q(),
        b'R' => document::r(),
        b'T' => document::t(),
        // P and the longest card without their last bytes.
        b'p' => document::p().cut(19),
        b'l' => longest::longest().cut(LONGEST_CARD - 1),
        // Q with s2 as a fourth check, P with no generator.
        b'q' => document::q_with_s2(),
        b'g' => document::p_without_generator(),
        // k 2 and no n: by default n is 2.
        b'n' => Draft::of(b"\x01\x01\x02"),
        // P with its defaults stated; n stated as 2; k stated as 1 and n not there; k not there.
        b'd' => document::p_with_defaults(),
        b'e' => Draft::of(b"\x02\x01\x02"),
        b'f' => Draft::of(b"\x03\x01\x01"),
        b'h' => Draft::of(b"\x01\x01"),
        // Eleven checks for a stream.
        b's' => streams::eleven_checks(),
        // P with m 31 and its terms far apart; no memory; all eight streams; unequal J; ten checks; the most bytes.
        b'F' => document::p_reaching_31(),
        b'M' => streams::repetition(),
        b'E' => streams::all_eight(),
        b'W' => streams::wide(),
        b'S' => streams::ten_checks(),
        b'L' => longest::longest(),
        _ => Draft::of(b""),
    }
}

// Byte 0, the card number 1, k and n, which both stand.
pub(crate) fn stated_head(k: u8, n: u8) -> Card {
    Draft::of(&[3, 1, k, n])
}

// The same, and a default doesn't stand.
pub(crate) fn head(k: u8, n: u8) -> Card {
    match (k, n) {
        (1, 2) => Draft::of(&[0, 1]),
        (1, _) => Draft::of(&[2, 1, n]),
        (_, 2) => Draft::of(&[1, 1, k]),
        _ => stated_head(k, n),
    }
}

// After its head; m is 0. Each information stream has the generator 1 at parity stream 1, whose bit is in the map, and the one check s0.
pub(crate) fn plain(head: Card, k: u8, map: [u8; 2]) -> Card {
    head.byte(0)
        .bytes(&map)
        .repeated(b"\x01\x00\x00\x00", k)
        .repeated(b"\x01\x01\x01\x00\x00\x00", k)
}
