// Clients of the promise of the standard cards.
ghost use Rattle.std.specs.Prelude.{◌≡◌, Ok, [], ◌∷◌, ◌++◌, ◌≤◌, drop, pos, neg_ℤ};
ghost use Rattle.code.specs.Bench.{s, Six};
ghost use Rattle.card.specs.Bench.{card_p, card_q};
ghost use Rattle.card.specs.Fields.{card_of};
ghost use Rattle.outcomes.specs.Outcome.{outcome, answer_of};
ghost use Rattle.standard.specs.Standard.{standard_fields};

use card::{CardRule, Fault, Refusal};
use code::Card;

// P's bytes, but for the number: `terms_are`. What the output has beyond them is as it was.
pub fn two_checks(output: &mut [u8; 22]) -> i32
    ensures { outcome result output.new ≡ outcome (pos 20) ((0 ∷ 2 ∷ drop 2 card_p) ++ drop 20 output.old) }
{
    burst::write::standard_card(2, output)
}

// Q's bytes, but for the number, from Rattle: `terms_are`. There is just room enough.
pub fn three_checks(output: &mut [u8; 25]) -> Result<usize, Refusal>
    ensures { outcome (answer_of result) output.new ≡ outcome (pos 25) (0 ∷ 3 ∷ drop 2 (card_q (s 0 ∷ s 1 ∷ s 3 ∷ []))) }
{
    standard::write_standard(3, output)
}

// What is written is accepted, whichever of the cards it is, and is the card of the terms: `acceptable`. There is room for each: `length_is`.
pub fn each_is_accepted(checks: u32) -> Result<Card, Fault>
    ensures { 2 ≤ checks → checks ≤ 7 → result ≡ Ok (card_of (standard_fields checks)) }
{
    let mut output = [0; 45];
    let count = standard::write_standard(checks, &mut output).unwrap_or(0);
    card::read_card(CardRule::Present, &output[..count])
}

// The card with six checks, of which rows at an edge speak.
pub fn six_checks() -> Result<Card, Fault>
    ensures { result ≡ Ok Six }
{
    each_is_accepted(6)
}

// An output that is a byte shorter than the longest of them is left as it was: `length_is`.
pub fn seven_checks_find_no_room(output: &mut [u8; 44]) -> i32
    ensures { outcome result output.new ≡ outcome (neg_ℤ (pos 13)) output.old }
{
    burst::write::standard_card(7, output)
}

// There is no card of one check, whatever the room ..
pub fn no_card_of_one_check(output: &mut [u8]) -> i32
    ensures { outcome result output.new ≡ outcome (pos 0) output.old }
{
    burst::write::standard_card(1, output)
}

// .. and none of eight.
pub fn no_card_of_eight_checks(output: &mut [u8]) -> i32
    ensures { outcome result output.new ≡ outcome (pos 0) output.old }
{
    burst::write::standard_card(8, output)
}
