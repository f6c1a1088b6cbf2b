// Writing a card: one whose bytes are given, in its one written form, or a standard one.
ghost use Rattle.std.specs.Prelude.{◌≡◌};
ghost use Rattle.outcomes.specs.Outcome.{outcome, answer_of, held};
ghost use Rattle.writer.specs.Outcome.{write_of};
ghost use Rattle.writer.specs.Claims.{CarriesOn};
ghost use Rattle.standard.specs.Standard.{standard_of, StandardCards};

use card::{CardRule, Refusal};
use outcomes::answer;

// The count of bytes, or why the card is refused.
fn write(card: &[u8], output: &mut [u8]) -> Result<usize, Refusal>
    ensures { outcome (answer_of (held result)) output.new ≡ write_of card.now output.old }
{
    let card = card::read_card(CardRule::Present, card)?;
    writer::write_card(card, output)
}

// Writes the card that the bytes state: the count of bytes, or minus the refusal. Only that many bytes of the output are written, and a refused
// call writes none.
pub fn card_write(card: &[u8], output: &mut [u8]) -> i32
    ensures output_after { outcome result output.new ≡ write_of card.now output.old }
    ensures carries_on { CarriesOn card.now output.old result output.new }
{
    answer::of(write(card, output))
}

// Writes the standard card with this many checks: the count of bytes, 0 where there is no such card, or minus 13 where the output is too short.
// Only that many bytes of the output are written, and a refused call writes none.
pub fn standard_card(checks: u32, output: &mut [u8]) -> i32
    ensures output_after { outcome result output.new ≡ standard_of checks output.old }
    ensures standard_cards { StandardCards }
{
    answer::of(standard::write_standard(checks, output))
}
