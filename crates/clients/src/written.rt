// Clients of the promises of the card writer.
ghost use Rattle.std.specs.Prelude.{◌≡◌, ◌++◌, take, drop, pos, neg_ℤ};
ghost use Rattle.code.specs.Bench as Bench;
ghost use Rattle.card.specs.Bench.{card_p};
ghost use Rattle.card.specs.Outcome.Outcome.{accepted};
ghost use Rattle.card.specs.Reading.{read_card};
ghost use Rattle.outcomes.specs.Outcome.{outcome, answer_of};
ghost use Rattle.clients.specs.Forms.{FormOfP};

use crate::cards::{P, STORED_P, T};
use card::{CardRule, Refusal};

// P comes back byte for byte: `comes_back`. What the output has beyond it is as it was.
pub fn p_comes_back(output: &mut [u8; 22]) -> i32
    ensures { outcome result output.new ≡ outcome (pos 20) (card_p ++ drop 20 output.old) }
{
    burst::write::card_write(&P, output)
}

// An output just as long as P is room enough: `comes_back`.
pub fn p_fits(output: &mut [u8; 20]) -> i32
    ensures { result ≡ pos 20 }
{
    burst::write::card_write(&P, output)
}

// What is written of T is read as T: `reads_back`.
pub fn t_is_carried_on(output: &mut [u8; 37]) -> i32
    ensures { read_card output.new ≡ record { outcome = accepted; card = Bench.T } }
{
    burst::write::card_write(&T, output)
}

// What is written of P, which is shorter, is read as P, wherever the output ends: `reads_back`.
pub fn p_is_carried_on(output: &mut [u8; 22]) -> i32
    ensures { read_card (take 20 output.new) ≡ record { outcome = accepted; card = Bench.P } }
{
    burst::write::card_write(&P, output)
}

// P with its defaults stated is refused, though there is room.
pub fn stored_p_is_refused(output: &mut [u8; 22]) -> i32
    ensures { outcome result output.new ≡ outcome (neg_ℤ (pos 18)) output.old }
{
    burst::write::card_write(&STORED_P, output)
}

// One that is a byte shorter is left as it was.
pub fn p_finds_no_room(output: &mut [u8; 19]) -> i32
    ensures { outcome result output.new ≡ outcome (neg_ℤ (pos 13)) output.old }
{
    burst::write::card_write(&P, output)
}

// A card's refusal comes before that: the output is too short for any card.
pub fn short_p_is_refused(output: &mut [u8; 1]) -> i32
    ensures { outcome result output.new ≡ outcome (neg_ℤ (pos 1)) output.old }
{
    burst::write::card_write(&P[..19], output)
}

// The card that P as stored is read as under the former rule, written: P's bytes, and each clause on the written form.
pub fn p_is_written(output: &mut [u8; 22]) -> Result<usize, Refusal>
    ensures bytes_are { outcome (answer_of result) output.new ≡ outcome (pos 20) (card_p ++ drop 20 output.old) }
    ensures form_of_p { FormOfP }
{
    let card = card::read_card(CardRule::Former, &STORED_P)?;
    writer::write_card(card, output)
}
