// The loops of every burst sender. The information frames and the tail have a loop each, since a test of the input's end costs time in every frame.
ghost use Rattle.std.specs.Prelude.{◌≡◌, List, ◌++◌, ℕ, ◌+◌, ◌≤◌, length, drop};
ghost use Rattle.code.specs.Code.{sent};
ghost use Rattle.code.specs.Guarantees.{Guarantees};
ghost use Rattle.code.specs.declared.Card.{Card};
ghost use Rattle.burst.specs.Sent.{SendsNext, SentUpTo};

// A sender is what it keeps from one frame to the next.
pub(crate) trait Sender: Copy {
    // it is ready for the frame of a time, of those that the card's code sends for an input
    ghost Ready: { Card → List ℕ → ℕ → Self → Type 0 };

    // The frame of these information digits.
    fn frame(&mut self, info: u8) -> u8
        ensures { SendsNext Ready self.old info result self.new };
}

// The information frames, into the front of the output: the sender after them. By index, as every loop of this crate that writes the output: what
// `iter_mut().zip(..)` wrote is not known in a proof.
fn send_information<S: Sender>(first: S, input: &[u8], output: &mut [u8]) -> S
    requires { length input.now ≤ length output.old }
    ensures { (c : Card) → Guarantees c → S.Ready c input.now 0 first
        → S.Ready c input.now (length input.now) result × SentUpTo c input.now output.old (length input.now) output.new }
{
    let mut sender = first;
    for (at, info) in input.iter().enumerate() {
        output[at] = sender.frame(*info);
    }
    sender
}

// The tail, m frames of zero information, behind so many information frames.
fn send_tail<S: Sender>(first: S, sent: usize, m: usize, output: &mut [u8])
    requires { sent + m ≤ length output.old }
    ensures { (c : Card) (input output₀ : List ℕ) → Guarantees c → sent ≡ length input → S.Ready c input sent first
        → SentUpTo c input output₀ sent output.old → SentUpTo c input output₀ (sent + m) output.new }
{
    let mut sender = first;
    for at in sent..sent + m {
        output[at] = sender.frame(0);
    }
}

// All frames that a sender sends for the input, tail included, into the front of the output.
pub(crate) fn send_all<S: Sender>(first: S, m: usize, input: &[u8], output: &mut [u8])
    requires { length input.now + m ≤ length output.old }
    ensures { (c : Card) → Guarantees c → m ≡ c.m → S.Ready c input.now 0 first
        → output.new ≡ sent c input.now ++ drop (length input.now + c.m) output.old }
{
    let after = send_information(first, input, output);
    send_tail(after, input.len(), m, output);
}
