// The records of a trace: a kind and its bytes.
ghost use Rattle.std.specs.Prelude.{◌<◌, length, IfSome};

use crate::sessions::Receiver;
use receiving::Reading;

// A frame as it is received: a byte, or readings.
#[derive(Clone, Copy)]
pub(crate) enum Received {
    Byte(u8),
    Readings([Reading; 8]),
}

// Each is one call of a session, or selects one.
#[derive(Clone, Copy)]
pub(crate) enum Record {
    Receive { number: u8, frame: Received },
    Figure,
    Information(u8),
    Tail,
    Select(Receiver),
}

// The level of a bit pattern. Every NaN's pattern gives a NaN: `from_bits` takes none.
fn level(pattern: u32) -> f32 {
    if 0x7f80_0000 < pattern % 0x8000_0000 {
        return 0.0f32 / 0.0f32;
    }
    f32::from_bits(pattern)
}

// A reading: a tag, 0 for a level and 1 for 'erased', and the level's four bytes, the lowest first.
fn reading(bytes: &[u8]) -> Option<Reading> {
    match bytes {
        [0, a, b, c, d] => Some(Reading::Level(level(u32::from_le_bytes([*a, *b, *c, *d])))),
        [1, ..] => Some(Reading::Erased),
        _ => None,
    }
}

// Eight of them, one behind the other.
fn readings(bytes: &[u8]) -> Option<[Reading; 8]> {
    let mut readings = [Reading::Erased; 8];
    for (place, bytes) in readings.iter_mut().zip(bytes.chunks_exact(5)) {
        *place = reading(bytes)?;
    }
    Some(readings)
}

// The record at the front of the input, and what follows it. There is none where it is cut short or of another kind.
pub(crate) fn first(input: &[u8]) -> Option<(Record, &[u8])>
    ensures { IfSome result (λ r. length r.1.now < length input.now) }
{
    let (record, rest) = match input {
        [b'b', number, frame, rest @ ..] => (
            Record::Receive {
                number: *number,
                frame: Received::Byte(*frame),
            },
            rest,
        ),
        [b'r', number, rest @ ..] if 40 <= rest.len() => {
            let (bytes, rest) = rest.split_at(40);
            let record = Record::Receive {
                number: *number,
                frame: Received::Readings(readings(bytes)?),
            };
            (record, rest)
        }
        [b'f', rest @ ..] => (Record::Figure, rest),
        [b'i', info, rest @ ..] => (Record::Information(*info), rest),
        [b't', rest @ ..] => (Record::Tail, rest),
        [b's', 0, rest @ ..] => (Record::Select(Receiver::First), rest),
        [b's', 1, rest @ ..] => (Record::Select(Receiver::Second), rest),
        _ => return None,
    };
    Some((record, rest))
}
