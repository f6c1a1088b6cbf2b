// The sending session: information frames, then the tail.
#![tactic(auto)]

ghost use Rattle.std.specs.Prelude.{◌≡◌, ◌+◌};
ghost use Rattle.encoder.specs.Opening.{closed, OpenPromise};
ghost use Rattle.encoder.specs.Outcome.{published};
ghost use Rattle.encoder.specs.Sending.{unsent_of, encoded_of, send_of, send_tail_of};

use card::{CardRule, Opened, Refusal};
use code::{Card, MOST_FRAMES};

// A session. What came before its first frame is zero, as the code says.
#[derive(Clone, Copy)]
pub struct Session {
    pub card: Card,
    pub history: [u32; 4], // bit a of register i: information digit i of the frame a before the last one sent
    pub sent: u32, // information frames taken
    pub tail: usize, // tail frames out
}

// A session before its first frame, with so many information frames counted as taken.
fn unsent(card: Card, sent: u32) -> Session
    ensures { result ≡ unsent_of card sent }
{
    Session {
        card,
        history: [0u32; 4],
        sent,
        tail: 0,
    }
}

// A session with the empty card and no room left, so that it refuses every call.
#[tactic(auto, unfolding(crate::specs::Opening::closed))]
fn closed() -> Session
    ensures { result ≡ closed }
{
    unsent(card::empty_card(), MOST_FRAMES as u32)
}

// Reads the card. A refused opening too hands a session out, which is closed: that is why the verdict stands beside it.
// Not one with `receiving::open`: another session, closed by a count of its own.
pub fn open(card: &[u8]) -> Opened<Session>
    ensures { OpenPromise card.now result }
{
    match card::read_card(CardRule::Present, card) {
        Ok(card) => Opened {
            verdict: Ok(()),
            session: unsent(card, 0),
        },
        Err(fault) => Opened {
            verdict: Err(fault),
            session: closed(),
        },
    }
}

impl Session {
    // The frame of the information digits `info`, which the history takes in.
    fn encode(&mut self, info: u8) -> u8
        ensures { published (Ok result) self.new ≡ encoded_of self.old info self.old.sent self.old.tail }
    {
        let card = &self.card;
        let info = u32::from(info);
        code::put_history(&mut self.history, card.k, info);
        code::frame(&card.generators, &self.history, card.k, card.p, info) as u8
    }

    // One information frame in, one frame of all streams out. A refused call leaves the session as it was.
    #[tactic(auto, unfolding(crate::specs::Sending::send_of, crate::specs::Sending::refused_of))]
    pub fn send(&mut self, info: u8) -> Result<u8, Refusal>
        ensures { published result self.new ≡ send_of self.old info }
    {
        if 0 < self.tail {
            return Err(Refusal::TailBegun);
        }
        if MOST_FRAMES < self.sent as usize + 1 + self.card.m.min(31) {
            return Err(Refusal::TooManyFrames);
        }
        if bits::beyond(info, self.card.k.min(4)) {
            return Err(Refusal::DigitBeyondStreams);
        }
        self.sent += 1;
        Ok(self.encode(info))
    }

    // One frame of the tail out, which has zero information and is sent in full.
    #[tactic(auto, unfolding(crate::specs::Sending::send_tail_of, crate::specs::Sending::refused_of))]
    pub fn send_tail(&mut self) -> Result<u8, Refusal>
        ensures { published result self.new ≡ send_tail_of self.old }
    {
        if self.card.m.min(31) <= self.tail {
            return Err(Refusal::TailSent);
        }
        self.tail += 1;
        Ok(self.encode(0))
    }
}
