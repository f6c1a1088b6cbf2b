// Stored cards, read a last time under the former rule and written anew.
ghost use Rattle.std.specs.Prelude.{◌≡◌, ◌≤◌, length, pos};
ghost use Rattle.card.specs.Layout.{longest_card};
ghost use Rattle.card.specs.Written.{written};
ghost use Rattle.outcomes.specs.Outcome.{outcome, given_of};
ghost use Rattle.listing.specs.AtFront.{AtFront};
ghost use Rattle.listing.specs.Stored.{why_line};
ghost use Rattle.listing.specs.Rewriting.{Rewrites};

use crate::stored;
use crate::stored::Why;
use card::CardRule;
use code::Card;
use outcomes::cursor::Cursor;

// No card is longer, and no line either.
pub const REWRITING_ROOM: usize = card::LONGEST_CARD;

// A card in its written form, for which there is room.
fn write_anew(card: Card, output: &mut [u8; REWRITING_ROOM]) -> usize
    requires { length (written card) ≤ longest_card }
    ensures { outcome (pos result) output.new ≡ given_of (written card) output.old }
{
    writer::write_card(card, output).unwrap()
}

// The line that says why there is no card to write, at the front of the output.
fn refuse(why: Why, output: &mut [u8; REWRITING_ROOM]) -> usize
    ensures { AtFront longest_card (why_line why) output.old result output.new }
{
    let mut cursor = Cursor::new(output);
    stored::tell(&mut cursor, why);
    cursor.at
}

// A stored card as it is to be stored from now on, or why it is none, at the front of the output: the count of bytes. No call runs out of room.
pub fn rewrite(input: &[u8], output: &mut [u8; REWRITING_ROOM]) -> usize
    ensures { Rewrites input.now output.old result output.new }
{
    match stored::read(CardRule::Former, input) {
        Ok(card) => write_anew(card, output),
        Err(why) => refuse(why, output),
    }
}
