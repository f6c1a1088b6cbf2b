// Receiving a whole burst: the frames of all streams in, the corrected information frames out. Each frame that is handed out is read again from
// the input.
ghost use Rattle.std.specs.Prelude.{◌≡◌, ◌++◌, ◌+◌, ◌-◌, ◌≤◌, length, drop};
ghost use Rattle.code.specs.Guarantees.{Guarantees};
ghost use Rattle.majority.specs.Plain.{decoded};
ghost use Rattle.outcomes.specs.Outcome.{outcome, answer_of, held};
ghost use Rattle.outcomes.specs.Receiving.{receive_under, receive_of};
ghost use Rattle.outcomes.specs.Claims.{ComesOutAsSent};
ghost use Rattle.burst.specs.Registers.{AllWithin};

use crate::{one_parity_receive, parities};
use card::{CardRule, Refusal};
use code::{Card, MOST_FRAMES};
use outcomes::answer;

// The frames that the rule hands out for a burst under an accepted card.
fn receive_frames(card: &Card, input: &[u8], output: &mut [u8])
    requires guaranteed { Guarantees card.now }
    requires room { length input.now ≤ length output.old + card.now.m }
    requires within { AllWithin (card.now.k + card.now.p) input.now }
    ensures { output.new ≡ decoded card.now input.now ++ drop (length input.now - card.now.m) output.old }
{
    if input.len() < card.m {
        return;
    }
    // Chosen once a burst: the loops below are apart for speed.
    if card.p == 1 {
        one_parity_receive::receive(card, input, output);
    } else {
        parities::receive(card, input, output);
    }
}

// A burst under an accepted card, which is lent: a card is large. Every frame is tested before a byte is written.
// Not one with `send_under`: each of the three tests is of other numbers.
fn receive_under(card: &Card, input: &[u8], output: &mut [u8]) -> Result<usize, Refusal>
    requires { Guarantees card.now }
    ensures { outcome (answer_of (held result)) output.new ≡ receive_under card.now input.now output.old }
{
    if MOST_FRAMES < input.len() {
        return Err(Refusal::TooManyFrames);
    }
    let count = input.len().saturating_sub(card.m);
    if output.len() < count {
        return Err(Refusal::OutputTooShort);
    }
    if bits::any_beyond(input, card.k + card.p) {
        return Err(Refusal::DigitBeyondStreams);
    }
    receive_frames(card, input, output);
    Ok(count)
}

// The count of frames handed out, or why the burst is refused.
fn receive(card: &[u8], input: &[u8], output: &mut [u8]) -> Result<usize, Refusal>
    ensures output_after { outcome (answer_of (held result)) output.new ≡ receive_of card.now input.now output.old }
    ensures comes_out_as_sent { ComesOutAsSent card.now input.now output.old (answer_of (held result)) output.new }
{
    let card = card::read_card(CardRule::Present, card)?;
    receive_under(&card, input, output)
}

// Receives a whole burst: the count of frames handed out, or minus the refusal. Only that many bytes of the output are written, and a refused
// call writes none.
pub fn burst_receive(card: &[u8], input: &[u8], output: &mut [u8]) -> i32
    ensures output_after { outcome result output.new ≡ receive_of card.now input.now output.old }
    ensures comes_out_as_sent { ComesOutAsSent card.now input.now output.old result output.new }
{
    answer::of(receive(card, input, output))
}
