// What the receiving sessions have in common: frames as they come, bytes or readings, the refusals that a call meets, in their order, and the session,
// whatever its circuit holds. What holds of any list of calls stands in specs/Calls.antt and specs/Claims.antt.
#![tactic(auto)]

ghost use Rattle.std.specs.Prelude.{◌≡◌, ℕ, min};
ghost use Rattle.card.specs.Outcome.{outcome_of};
ghost use Rattle.receiving.specs.Answers.{published};
ghost use Rattle.receiving.specs.Opening.{counted_at, OpensFresh};
ghost use Rattle.receiving.specs.Readings.{yield_of, frame_yield_of, digit_of, read_byte_of, read_frame_of};
ghost use Rattle.receiving.specs.Receive.{admit_of, receive_of, receive_byte_of, receive_readings_of, circuit_of};

use card::{CardRule, Fault, Opened, Refusal};
use code::{Card, MOST_FRAMES};

// A level, or the mark 'erased'. A level close to zero is a guess, and is erased as well.
// Not an Option: the interface has this type, by value, and an erased reading is no missing one.
#[derive(Clone, Copy)]
pub enum Reading {
    Level(f32),
    Erased,
}

// A frame as it came: its digits, an erased one as 0, and a 1 for each that is erased.
#[derive(Clone, Copy, Debug, PartialEq, Eq)]
pub struct Frame {
    pub digits: u8,
    pub erased: u8,
}

// What a circuit holds of the frames that it took, and what it does with it.
pub trait Receives: Copy {
    ghost use Rattle.code.specs.declared.Card.{Card};
    ghost use Rattle.receiving.specs.Receive.{Holding};

    ghost holding: { Holding Self };

    // Before the first frame.
    fn nothing() -> Self
        ensures { result ≡ holding.nothing };

    // Puts a frame in at a place.
    fn put_in(&mut self, card: &Card, place: usize, frame: Frame)
        ensures { self.new ≡ holding.put_in card.now self.old place frame.digits frame.erased };

    // Decides the frame that is decided next, and moves on to the one after it.
    fn hand_out(&mut self, card: &Card) -> u8
        ensures handed_out { result ≡ holding.handed_out card.now self.old }
        ensures moved_on { self.new ≡ holding.moved_on card.now self.old };
}

// What a session is between two calls.
#[derive(Clone, Copy)]
pub struct Session<H> {
    pub card: Card,
    pub held: H,
    pub received: u32, // how many frames were taken
}

// How many frames a session counts as received when it is opened. A refused card leaves no room for any, so that every call is refused.
#[tactic(auto, unfolding(crate::specs::Opening::counted_at))]
pub fn frames_at_opening(verdict: Result<(), Fault>) -> u32
    ensures { result ≡ counted_at (outcome_of verdict) }
{
    match verdict {
        Ok(()) => 0,
        Err(_) => MOST_FRAMES as u32,
    }
}

// A session with a card, before its first frame.
fn fresh<H: Receives>(verdict: Result<(), Fault>, card: Card) -> Opened<Session<H>>
    ensures verdict { result.verdict ≡ verdict }
    ensures session { result.session ≡ (circuit_of H.holding).fresh card (counted_at (outcome_of verdict)) }
{
    let session = Session {
        card,
        held: H::nothing(),
        received: frames_at_opening(verdict),
    };
    Opened { verdict, session }
}

// Reads the card. A refused opening hands out a session with the empty card that refuses every call. Each card goes straight into its session: a card is
// large.
pub fn open<H: Receives>(card: &[u8]) -> Opened<Session<H>>
    ensures { OpensFresh (circuit_of H.holding) card.now (outcome_of result.verdict) result.session }
{
    match card::read_card(CardRule::Present, card) {
        Ok(card) => fresh(Ok(()), card),
        Err(fault) => fresh(Err(fault), card::empty_card()),
    }
}

// A byte is its frame, with nothing erased, unless it has a digit beyond its n streams.
#[tactic(auto, unfolding(crate::specs::Readings::read_byte_of))]
pub fn read_byte(frame: u8, n: usize) -> Result<Frame, Refusal>
    ensures { frame_yield_of result ≡ read_byte_of frame n }
{
    if bits::beyond(frame, n) {
        return Err(Refusal::DigitBeyondStreams);
    }
    Ok(Frame {
        digits: frame,
        erased: 0,
    })
}

// A level of at least 0.25 is 1, one of at most minus 0.25 is 0, and one between them is erased; a level that is infinite or not a number is
// refused.
fn digit_of(reading: Reading) -> Result<Option<u32>, Refusal>
    ensures { yield_of result ≡ digit_of reading }
{
    match reading {
        Reading::Erased => Ok(None),
        Reading::Level(level) => {
            let infinite = 1.0f32 / 0.0f32;
            if level < infinite && level > -infinite {
                if level >= 0.25 {
                    return Ok(Some(1));
                }
                if level <= -0.25 {
                    return Ok(Some(0));
                }
                return Ok(None);
            }
            Err(Refusal::LevelNotFinite)
        }
    }
}

// The frame that readings make, or the refusal of the first that has one. Those after the n-th are not looked at.
pub fn read_frame(readings: [Reading; 8], n: usize) -> Result<Frame, Refusal>
    ensures { frame_yield_of result ≡ read_frame_of readings (min n 8) }
{
    let mut digits: u32 = 0;
    let mut erased: u32 = 0;
    for (s, reading) in readings[..n.min(8)].iter().enumerate() {
        match digit_of(*reading)? {
            Some(digit) => digits += bits::shift_up(digit, s),
            None => erased += bits::shift_up(1, s),
        }
    }
    Ok(Frame {
        digits: digits as u8,
        erased: erased as u8,
    })
}

// A frame under a card number, for a session with this number of its own and so many frames received: refused by 14, then 15, then its own
// refusal, or to be taken.
#[tactic(auto, unfolding(crate::specs::Receive::admit_of))]
pub fn admit(
    own: u8,
    received: u32,
    number: u8,
    read: Result<Frame, Refusal>,
) -> Result<Frame, Refusal>
    ensures { frame_yield_of result ≡ admit_of own received number (frame_yield_of read) }
{
    if number != own {
        return Err(Refusal::OtherCardNumber);
    }
    if MOST_FRAMES <= received as usize {
        return Err(Refusal::TooManyFrames);
    }
    read
}

impl<H: Receives> Session<H> {
    // Receives a frame as a byte, sent under a card number: the frame m before it, or none while the session waits for the first m.
    pub fn receive_byte(&mut self, number: u8, frame: u8) -> Result<Option<u8>, Refusal>
        ensures { published result self.new ≡ receive_byte_of (circuit_of H.holding) self.old number frame }
    {
        let read = read_byte(frame, self.card.sizes().n);
        self.receive(number, read)
    }

    // Receives a frame as eight readings, sent under a card number. Readings after the n-th are not looked at.
    pub fn receive_readings(
        &mut self,
        number: u8,
        readings: [Reading; 8],
    ) -> Result<Option<u8>, Refusal>
        ensures { published result self.new ≡ receive_readings_of (circuit_of H.holding) self.old number readings }
    {
        let read = read_frame(readings, self.card.sizes().n);
        self.receive(number, read)
    }

    // A frame, or its own refusal, under a card number. A refused call leaves the session as it was.
    fn receive(&mut self, number: u8, read: Result<Frame, Refusal>) -> Result<Option<u8>, Refusal>
        ensures { published result self.new ≡ receive_of (circuit_of H.holding) self.old number (frame_yield_of read) }
    {
        let received = self.received as usize;
        let frame = admit(self.card.number, self.received, number, read)?;
        let place = received.min(self.card.m);
        self.held.put_in(&self.card, place, frame);
        self.received += 1;
        if received < self.card.m {
            return Ok(None);
        }
        Ok(Some(self.held.hand_out(&self.card)))
    }
}
