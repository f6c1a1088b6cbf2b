// The standard cards, which most sites take: k 1, n 2 and J checks, by the report's rule for self-orthogonal codes.
#![tactic(auto)]

ghost use Rattle.std.specs.Prelude.{◌≡◌};
ghost use Rattle.outcomes.specs.Outcome.{outcome, answer_of, fitted};
ghost use Rattle.standard.specs.Standard.{standard_of, StandardCards};

use card::Refusal;

// The bytes of the longest card, and so of a row of the table.
const ROW: usize = 45;

// The cards of 2 to 7 checks, a row each: in its first line the head, the generator and J, in its second the checks, five bytes each. What is left
// of a row is zero.
const CARDS: [u8; 6 * ROW] = *b"\
    \x00\x02\x01\x01\x00\x03\x00\x00\x00\x02\
    \x01\x01\x00\x00\x00\x01\x02\x00\x00\x00\x00\x00\x00\x00\x00\x00\x00\x00\x00\x00\x00\x00\x00\x00\x00\x00\x00\x00\x00\x00\x00\x00\x00\x00\x00\
    \x00\x03\x03\x01\x00\x0b\x00\x00\x00\x03\
    \x01\x01\x00\x00\x00\x01\x02\x00\x00\x00\x01\x08\x00\x00\x00\x00\x00\x00\x00\x00\x00\x00\x00\x00\x00\x00\x00\x00\x00\x00\x00\x00\x00\x00\x00\
    \x00\x04\x07\x01\x00\x8b\x00\x00\x00\x04\
    \x01\x01\x00\x00\x00\x01\x02\x00\x00\x00\x01\x08\x00\x00\x00\x01\x80\x00\x00\x00\x00\x00\x00\x00\x00\x00\x00\x00\x00\x00\x00\x00\x00\x00\x00\
    \x00\x05\x0c\x01\x00\x8b\x10\x00\x00\x05\
    \x01\x01\x00\x00\x00\x01\x02\x00\x00\x00\x01\x08\x00\x00\x00\x01\x80\x00\x00\x00\x01\x00\x10\x00\x00\x00\x00\x00\x00\x00\x00\x00\x00\x00\x00\
    \x00\x06\x14\x01\x00\x8b\x10\x10\x00\x06\
    \x01\x01\x00\x00\x00\x01\x02\x00\x00\x00\x01\x08\x00\x00\x00\x01\x80\x00\x00\x00\x01\x00\x10\x00\x00\x01\x00\x00\x10\x00\x00\x00\x00\x00\x00\
    \x00\x07\x1e\x01\x00\x8b\x10\x10\x40\x07\
    \x01\x01\x00\x00\x00\x01\x02\x00\x00\x00\x01\x08\x00\x00\x00\x01\x80\x00\x00\x00\x01\x00\x10\x00\x00\x01\x00\x00\x10\x00\x01\x00\x00\x00\x40";

// The bytes, if the output has room for them all.
fn give(bytes: &[u8], output: &mut [u8]) -> Result<usize, Refusal>
    ensures { outcome (answer_of result) output.new ≡ fitted bytes.now output.old }
{
    // `get_mut` would do for the room, but the check knows no byte of a slice that it lends.
    if output.len() < bytes.len() {
        return Err(Refusal::OutputTooShort);
    }
    output[..bytes.len()].copy_from_slice(bytes);
    Ok(bytes.len())
}

// Writes the standard card with this many checks: the count of bytes, or 13 where the output is too short. There is none of fewer than 2 or more
// than 7 checks: the count is 0 then. Only that many bytes are written, and a refused call writes none.
pub fn write_standard(checks: u32, output: &mut [u8]) -> Result<usize, Refusal>
    ensures output_after { outcome (answer_of result) output.new ≡ standard_of checks output.old }
    ensures standard_cards { StandardCards }
{
    // `Ok(0)` and no `None`: the count is what `standard_card` answers in C (include/burst.h), and `standard_of` says it.
    if checks < 2 || 7 < checks {
        return Ok(0);
    }
    let terms = checks as usize;
    let start = (terms - 2) * ROW;
    // Ten bytes stand before the checks, and each of these has five.
    let end = start + 10 + 5 * terms;
    give(&CARDS[start..end], output)
}
