// The receiving sessions, of both circuits.
ghost use Rattle.std.specs.Prelude.{◌≡◌};
ghost use Rattle.card.specs.Outcome.{outcome_of};
ghost use Rattle.card.specs.Reading.{read_card};
ghost use Rattle.receiving.specs.Answers.{published};
ghost use Rattle.receiving.specs.Calls.{reply_of};
ghost use Rattle.receiving.specs.Calls as call;
ghost use Rattle.decoder.specs.Receive.{first_circuit, link_figure_of};
ghost use Rattle.digit_decoder.specs.Receive.{second_circuit};
ghost use Rattle.terms.specs.Terms as term;

use card::{CardRule, Fault, Refusal};
use code::Card;
use receiving::Reading;

// What the same bytes give: the card, and a session of each circuit.
#[derive(Clone, Copy)]
pub struct Opened {
    pub read: Result<Card, Fault>,
    pub first: card::Opened<decoder::Session>,
    pub second: card::Opened<digit_decoder::Session>,
}

pub fn open(card: &[u8]) -> Opened
    ensures first_verdict { outcome_of result.first.verdict ≡ (read_card card.now).outcome }
    ensures second_verdict { outcome_of result.second.verdict ≡ (read_card card.now).outcome }
    ensures opened { term.Opened (read_card card.now) result.first.session result.second.session }
{
    let read = card::read_card(CardRule::Present, card);
    let first = decoder::open(card);
    let second = digit_decoder::open(card);
    Opened {
        read,
        first,
        second,
    }
}

// The calls stand here for each circuit, at its own definition: of one generic function it would only be known that a circuit does what it says
// it does.
#[tactic(auto, unfolding(receiving::specs::Calls::reply_of))]
pub fn receive_byte(
    session: &mut decoder::Session,
    number: u8,
    frame: u8,
) -> Result<Option<u8>, Refusal>
    ensures { published result session.new ≡ reply_of first_circuit session.old (call.byte number frame) }
{
    session.receive_byte(number, frame)
}

#[tactic(auto, unfolding(receiving::specs::Calls::reply_of))]
pub fn receive_readings(
    session: &mut decoder::Session,
    number: u8,
    readings: [Reading; 8],
) -> Result<Option<u8>, Refusal>
    ensures { published result session.new ≡ reply_of first_circuit session.old (call.readings number readings) }
{
    session.receive_readings(number, readings)
}

#[tactic(auto, unfolding(receiving::specs::Calls::reply_of))]
pub fn receive_byte_by_digits(
    session: &mut digit_decoder::Session,
    number: u8,
    frame: u8,
) -> Result<Option<u8>, Refusal>
    ensures { published result session.new ≡ reply_of second_circuit session.old (call.byte number frame) }
{
    session.receive_byte(number, frame)
}

#[tactic(auto, unfolding(receiving::specs::Calls::reply_of))]
pub fn receive_readings_by_digits(
    session: &mut digit_decoder::Session,
    number: u8,
    readings: [Reading; 8],
) -> Result<Option<u8>, Refusal>
    ensures { published result session.new ≡ reply_of second_circuit session.old (call.readings number readings) }
{
    session.receive_readings(number, readings)
}

pub fn figure(session: &decoder::Session) -> u32
    ensures { result ≡ link_figure_of session.now }
{
    decoder::link_figure(session)
}
