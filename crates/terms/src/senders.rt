// The sending session.
ghost use Rattle.std.specs.Prelude.{◌≡◌};
ghost use Rattle.card.specs.Outcome.{outcome_of};
ghost use Rattle.card.specs.Reading.{read_card};
ghost use Rattle.encoder.specs.Calls as sending;
ghost use Rattle.encoder.specs.Outcome.{published};
ghost use Rattle.terms.specs.Terms.{Sends};

use card::{CardRule, Fault, Refusal};
use code::Card;
use encoder::Session;

// What the same bytes give: the card, and a session.
#[derive(Clone, Copy)]
pub struct Opened {
    pub read: Result<Card, Fault>,
    pub sender: card::Opened<Session>,
}

pub fn open(card: &[u8]) -> Opened
    ensures verdict { outcome_of result.sender.verdict ≡ (read_card card.now).outcome }
    ensures sends { Sends (read_card card.now) result.sender.session }
{
    let read = card::read_card(CardRule::Present, card);
    let sender = encoder::open(card);
    Opened { read, sender }
}

#[tactic(auto, unfolding(encoder::specs::Calls::call_of))]
pub fn send(session: &mut Session, info: u8) -> Result<u8, Refusal>
    ensures { published result session.new ≡ sending.call_of session.old (sending.information info) }
{
    session.send(info)
}

#[tactic(auto, unfolding(encoder::specs::Calls::call_of))]
pub fn send_tail(session: &mut Session) -> Result<u8, Refusal>
    ensures { published result session.new ≡ sending.call_of session.old sending.tail }
{
    session.send_tail()
}
