// Receiving under a card with any number of parity streams: the registers of each in arrays.
ghost use Rattle.std.specs.Prelude.{◌≡◌, ◌++◌, ◌+◌, ◌-◌, ◌^◌, ◌≤◌, length, drop};
ghost use Rattle.code.specs.Guarantees.{Guarantees};
ghost use Rattle.majority.specs.Plain.{decoded};
ghost use Rattle.burst.specs.Sums.{HasSums};
ghost use Rattle.burst.specs.Registers.{NoneFrom};
ghost use Rattle.burst.specs.Held.{Before};

use crate::registers::{Registers, corrected, generator_sums};
use code::Card;

// The registers after the first m frames, for which nothing is handed out.
fn filled(card: &Card, sums: &[[u32; 16]; 8], input: &[u8]) -> Registers
    requires guaranteed { Guarantees card.now }
    requires sums_are { HasSums card.now.generators card.now.k card.now.p (2 ^ card.now.k) sums.now }
    requires frames { card.now.m ≤ length input.now }
    ensures ready { Before card.now input.now card.now.m result }
    ensures none_beyond { NoneFrom card.now.p result.syndromes }
{
    let mut registers = Registers {
        coming: [0u32; 8],
        syndromes: [0u32; 8],
    };
    for frame in &input[..card.m] {
        registers.take_in(sums, card.k, card.p, card.m, *frame);
    }
    registers
}

// A whole burst of m frames or more: each but the last m is handed out, corrected. The sizes are in locals, which costs less in the loop than a card
// that is lent.
pub(crate) fn receive(card: &Card, input: &[u8], output: &mut [u8])
    requires guaranteed { Guarantees card.now }
    requires frames { card.now.m ≤ length input.now }
    requires room { length input.now ≤ length output.old + card.now.m }
    ensures { output.new ≡ decoded card.now input.now ++ drop (length input.now - card.now.m) output.old }
{
    let k = card.k;
    let p = card.p;
    let m = card.m;
    let sums = generator_sums(&card.generators, k, p);
    let mut registers = filled(card, &sums, input);
    for u in 0..input.len() - m {
        let held = registers.take_in(&sums, k, p, m, input[u + m]);
        let errors = registers.correct(held, &sums, &card.counts, &card.checks, k, p);
        output[u] = corrected(input[u], k, errors);
    }
}
