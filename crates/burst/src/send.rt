// Sending a whole burst: information frames in, the frames of all streams out, the tail included.
ghost use Rattle.std.specs.Prelude.{◌≡◌, ◌++◌, ◌+◌, ◌≤◌, length, drop};
ghost use Rattle.code.specs.Code.{sent};
ghost use Rattle.code.specs.Guarantees.{Guarantees};
ghost use Rattle.outcomes.specs.Outcome.{outcome, answer_of, held};
ghost use Rattle.outcomes.specs.Sending.{send_under, send_of};

use crate::one_parity_send::OneParity;
use crate::registers::stream_sums;
use crate::sender::{Sender, send_all};
use card::{CardRule, Refusal};
use code::{Card, MOST_FRAMES};
use outcomes::answer;

// The sender for parity streams of every number: by the history of the information digits.
#[derive(Clone, Copy)]
struct ByHistory<'a> {
    generators: &'a [u32; 32],
    k: usize,
    p: usize,
    history: [u32; 4],
}

impl<'a> Sender for ByHistory<'a> {
    ghost use Rattle.burst.specs.Sent.{ReadyBy};

    ghost Ready = { λ c input t s. ReadyBy c input t s.generators.now s.k s.p s.history };

    fn frame(&mut self, info: u8) -> u8 {
        let generators = self.generators;
        let info = u32::from(info);
        // In a local: it is gone through by index, and beside it in memory the sizes would be read anew in every frame.
        let mut history = self.history;
        code::put_history(&mut history, self.k, info);
        self.history = history;
        code::frame(generators, &history, self.k, self.p, info) as u8
    }
}

// The frames that the card's code sends for the input, tail included, into the front of the output.
fn send_frames(card: &Card, input: &[u8], output: &mut [u8])
    requires guaranteed { Guarantees card.now }
    requires room { length input.now + card.now.m ≤ length output.old }
    ensures { output.new ≡ sent card.now input.now ++ drop (length input.now + card.now.m) output.old }
{
    let k = card.k;
    if card.p == 1 {
        let sums = stream_sums(&card.generators, k, 0);
        let sender = OneParity {
            sums: &sums,
            k,
            coming: 0,
        };
        send_all(sender, card.m, input, output);
    } else {
        let sender = ByHistory {
            generators: &card.generators,
            k,
            p: card.p,
            history: [0u32; 4],
        };
        send_all(sender, card.m, input, output);
    }
}

// A burst under an accepted card, which is lent: a card is large. Every frame is tested before a byte is written.
fn send_under(card: &Card, input: &[u8], output: &mut [u8]) -> Result<usize, Refusal>
    requires { Guarantees card.now }
    ensures { outcome (answer_of (held result)) output.new ≡ send_under card.now input.now output.old }
{
    let count = input.len() + card.m;
    if MOST_FRAMES < count {
        return Err(Refusal::TooManyFrames);
    }
    if output.len() < count {
        return Err(Refusal::OutputTooShort);
    }
    if bits::any_beyond(input, card.k) {
        return Err(Refusal::DigitBeyondStreams);
    }
    send_frames(card, input, output);
    Ok(count)
}

// The count of output frames, or why the burst is refused.
fn send(card: &[u8], input: &[u8], output: &mut [u8]) -> Result<usize, Refusal>
    ensures { outcome (answer_of (held result)) output.new ≡ send_of card.now input.now output.old }
{
    let card = card::read_card(CardRule::Present, card)?;
    send_under(&card, input, output)
}

// Sends a whole burst: the count of output frames, information and tail, or minus the refusal. Only that many bytes of the output are written,
// and a refused call writes none.
pub fn burst_send(card: &[u8], input: &[u8], output: &mut [u8]) -> i32
    ensures { outcome result output.new ≡ send_of card.now input.now output.old }
{
    answer::of(send(card, input, output))
}
