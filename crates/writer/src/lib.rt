// Writing a card: the bytes that are read as that card, with no field that is equal to its default.
#![tactic(auto)]

mod masks;
mod parts;

ghost use Rattle.std.specs.Prelude.{◌≡◌, ◌++◌, ◌-◌, ◌^◌, ◌≤◌, min, length, drop};
ghost use Rattle.outcomes.specs.Outcome.{outcome, answer_of};
ghost use Rattle.card.specs.Written.{written};
ghost use Rattle.writer.specs.Outcome.{write_under};
ghost use Rattle.writer.specs.Claims.{WrittenForm};

use card::Refusal;
use code::Card;
use outcomes::cursor::Cursor;

// The bytes of a card, as many as the output has room for: the count of them all, held to the largest number.
fn lay_out(output: &mut [u8], card: &Card) -> usize
    ensures count { result ≡ min (length (written card.now)) (2 ^ 64 - 1) }
    ensures front { length (written card.now) ≤ length output.old
        → output.new ≡ written card.now ++ drop (length (written card.now)) output.old }
{
    let mut cursor = Cursor::new(output);
    parts::head(&mut cursor, card);
    parts::generators(&mut cursor, card);
    parts::streams(&mut cursor, card);
    cursor.at
}

// Writes a card: the count of bytes, or 13 where the output is too short. Only that many bytes are written, and a refused call writes none.
pub fn write_card(card: Card, output: &mut [u8]) -> Result<usize, Refusal>
    ensures output_after { outcome (answer_of result) output.new ≡ write_under card output.old }
    ensures written_form { WrittenForm card }
{
    let count = lay_out(&mut [], &card);
    if output.len() < count {
        return Err(Refusal::OutputTooShort);
    }
    lay_out(output, &card);
    Ok(count)
}
