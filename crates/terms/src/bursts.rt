// Bursts.
ghost use Rattle.card.specs.Reading.{read_card};
ghost use Rattle.terms.specs.Terms.{BurstSent, BurstReceived};

use card::{CardRule, Fault};
use code::Card;

pub fn send(card: &[u8], input: &[u8], output: &mut [u8]) -> i32
    ensures { BurstSent (read_card card.now) input.now output.old result output.new }
{
    burst::send::burst_send(card, input, output)
}

// The card that was read, and what receiving by it answers.
#[derive(Clone, Copy)]
pub struct Received {
    pub read: Result<Card, Fault>,
    pub answer: i32,
}

pub fn receive(card: &[u8], input: &[u8], output: &mut [u8]) -> Received
    ensures { BurstReceived (read_card card.now) input.now output.old result.answer output.new }
{
    let read = card::read_card(CardRule::Present, card);
    let answer = burst::receive::burst_receive(card, input, output);
    Received { read, answer }
}
