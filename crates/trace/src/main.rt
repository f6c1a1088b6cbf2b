// Drives the sessions from outside, so that they can be tried by anything. Standard input: a two-byte card length and the card, as for the
// listing, then records to the end; one line of output for each. The records are those of docs/TRACE.md.
#![tactic(auto)]

mod lines;
mod records;
mod sessions;

use outcomes::{MOST_CARD_BYTES, stated_length};
use sessions::{Receiver, Sessions};

// The longest input, and one byte to tell that there is more.
const ROOM: usize = 65537;

// Opens the sessions with the card, and goes through the records after it.
fn trace(rt: &(impl Print + Eprint), input: &[u8]) {
    let (_, rest) = input.split_at(input.len().min(2));
    let stated = stated_length(input);
    if MOST_CARD_BYTES < stated {
        return lines::too_long(rt);
    }
    let (card, records) = rest.split_at(rest.len().min(stated));
    let first = decoder::open(card);
    if let Err(fault) = first.verdict {
        return lines::refused_card(rt, fault);
    }
    lines::text(rt, b"open\n");
    let sessions = Sessions {
        first: first.session,
        second: digit_decoder::open(card).session,
        sender: encoder::open(card).session,
        selected: Receiver::First,
    };
    sessions::all(rt, records, sessions)
}

// A read that fails counts as the end of the input.
fn main(rt: HostRuntime) {
    let mut space = [0u8; ROOM];
    let (Ok(length) | Err(length)) = filling::fill(&mut rt.stdin(), &mut space);
    if ROOM <= length {
        return lines::too_long(&rt);
    }
    trace(&rt, &space[..length]);
}
