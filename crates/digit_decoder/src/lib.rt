// The receiving session of Massey's second circuit: received digits and decided ones, no syndromes, votes on the digits themselves. Its calls, answers and
// refusals are those of the first circuit's (`decoder`), and so are the frames that it hands out; it has no link figure.
#![tactic(auto)]

mod registers;

ghost use Rattle.std.specs.Prelude.{◌≡◌};
ghost use Rattle.digit_decoder.specs.Opening.{OpenPromise};
ghost use Rattle.digit_decoder.specs.Receive.{second_holding};

use card::Opened;
use code::Card;
use code::erased::Erased;
use receiving::{Frame, Receives};

// What a session holds of the frames that it took.
#[derive(Clone, Copy)]
pub struct Held {
    pub digits: [u32; 8], // bit a of register s: the digit of stream s received a after the frame that is decided next
    pub decided: [u32; 4], // bit 32 - b of register i: information digit i as decided, b before the frame that is decided next
    pub erased: Erased,
}

pub type Session = receiving::Session<Held>;

// Reads the card. A refused opening hands out a session with the empty card that refuses every call.
pub fn open(card: &[u8]) -> Opened<Session>
    ensures { OpenPromise card.now result }
{
    receiving::open(card)
}

impl Receives for Held {
    ghost holding = { second_holding };

    fn nothing() -> Held {
        Held {
            digits: [0; 8],
            decided: [0; 4],
            erased: Erased {
                registers: [0; 8],
                any: 0,
            },
        }
    }

    #[tactic(auto, unfolding(crate::specs::Held::held_with_frame))]
    fn put_in(&mut self, _card: &Card, place: usize, frame: Frame) {
        code::put_digits(&mut self.digits, u32::from(frame.digits), place);
        self.erased.put(u32::from(frame.erased), place);
    }

    // The decided frame stands from then on in place of what was received.
    #[tactic(auto, unfolding(crate::specs::Held::decided_in, crate::specs::Held::next_held, crate::specs::Receive::frame_of))]
    fn hand_out(&mut self, card: &Card) -> u8 {
        let sizes = card.sizes();
        let voters = vote::voters::voting(
            &card.generators,
            &card.counts,
            &card.checks,
            &self.erased.registers,
            self.erased.any,
            sizes,
        );
        let frame = registers::decide(
            &card.generators,
            &card.checks,
            &voters.words,
            &self.digits,
            &self.decided,
            sizes.k,
            sizes.p,
        );
        registers::put_decided(&mut self.decided, frame);
        code::move_on(&mut self.digits);
        self.erased.move_on();
        frame as u8
    }
}
