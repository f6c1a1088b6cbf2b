// The sessions that the records drive.
ghost use Rattle.std.specs.Prelude.{◌<◌, length, IfSome};

use crate::records::{Received, Record};
use crate::{lines, records};
use card::Refusal;
use receiving::Receives;

// The receiving sessions.
#[derive(Clone, Copy)]
pub(crate) enum Receiver {
    First = 0,
    Second = 1,
}

#[derive(Drop)]
pub(crate) struct Sessions {
    pub first: decoder::Session,
    pub second: digit_decoder::Session,
    pub sender: encoder::Session,
    pub selected: Receiver, // the one that gets the frames
}

// A frame under a card number, received by a session.
fn receive<H: Receives>(
    session: &mut receiving::Session<H>,
    number: u8,
    frame: Received,
) -> Result<Option<u8>, Refusal> {
    match frame {
        Received::Byte(frame) => session.receive_byte(number, frame),
        Received::Readings(readings) => session.receive_readings(number, readings),
    }
}

impl Sessions {
    // Carries a record out and writes its line. The second receiving session has no figure.
    // A match and no dyn: one would be chosen by the same match, and the figure is the first circuit's alone.
    fn carry_out(&mut self, rt: &(impl Print + Eprint), record: Record) -> Option<()> {
        match record {
            Record::Receive { number, frame } => {
                let came = match self.selected {
                    Receiver::First => receive(&mut self.first, number, frame),
                    Receiver::Second => receive(&mut self.second, number, frame),
                };
                lines::answer(rt, came);
            }
            Record::Figure => match self.selected {
                Receiver::First => lines::figure(rt, decoder::link_figure(&self.first)),
                Receiver::Second => return None,
            },
            Record::Information(info) => lines::answer(rt, self.sender.send(info).map(Some)),
            Record::Tail => lines::answer(rt, self.sender.send_tail().map(Some)),
            Record::Select(receiver) => {
                self.selected = receiver;
                lines::session(rt, receiver as u64);
            }
        }
        Some(())
    }

    // Carries out the first record of the input: what follows it.
    fn next<'a>(&mut self, rt: &(impl Print + Eprint), input: &'a [u8]) -> Option<&'a [u8]>
        ensures { IfSome result (λ rest. length rest.now < length input.now) }
    {
        let (record, rest) = records::first(input)?;
        self.carry_out(rt, record)?;
        Some(rest)
    }
}

// The records in their order, to the end or to one that is none or can't be carried out.
pub(crate) fn all(rt: &(impl Print + Eprint), input: &[u8], mut sessions: Sessions) {
    let mut rest = input;
    while !rest.is_empty() {
        match sessions.next(rt, rest) {
            Some(after) => rest = after,
            None => return lines::bad_record(rt),
        }
    }
}
