// Clients of the promise of the rewriting.
ghost use Rattle.std.specs.Prelude.{◌≡◌, List, [], ◌∷◌, ◌++◌, ℕ, ◌≤◌, take, drop};
ghost use Rattle.code.specs.Bench as Bench;
ghost use Rattle.code.specs.Bench.{s};
ghost use Rattle.code.specs.declared.Card.{Card};
ghost use Rattle.card.specs.Bench.{card_p, card_t};
ghost use Rattle.card.specs.Layout.{longest_card};
ghost use Rattle.card.specs.Outcome.Outcome.{accepted};
ghost use Rattle.card.specs.Reading.{read_under, read_card};
ghost use Rattle.card.specs.declared.CardRule.{CardRule};
ghost use Rattle.outcomes.specs.Listing.{too_long_line, refused_line};
ghost use Rattle.writer.specs.Bench.{card_w};
ghost use Rattle.listing.specs.Rewriting.{rewritten_under, rewritten};

use crate::cards::{P, STORED_P, T};
use listing::rewriting::REWRITING_ROOM;

// P's bytes, which are read as the same card: `wrote`, `carried_over`. What the output has beyond them is as it was.
pub fn stored_p_is_rewritten(output: &mut [u8; REWRITING_ROOM]) -> usize
    ensures bytes_are { (take result output.new ≡ card_p) × (drop result output.new ≡ drop result output.old) }
    ensures read_as_p { read_card (take result output.new) ≡ record { outcome = accepted; card = Bench.P } }
{
    listing::rewriting::rewrite(&STORED_P, output)
}

// A card of k 1 and n 3 that states both, and whose second parity stream has no generator: its k alone is left out.
pub fn default_is_left_out(output: &mut [u8; REWRITING_ROOM]) -> usize
    ensures { take result output.new ≡ card_w }
{
    listing::rewriting::rewrite(
        b"\x03\x0b\x01\x03\x00\x01\x00\x01\x00\x00\x00\x01\x01\x01\x00\x00\x00",
        output,
    )
}

// T, which is accepted under the present rule, stays as it is: `as_it_stands`.
pub fn t_stays_as_it_is(output: &mut [u8; REWRITING_ROOM]) -> usize
    ensures { take result output.new ≡ card_t (s 0 ∷ s 1 ∷ []) (s 0 ∷ s 2 ∷ []) }
{
    listing::rewriting::rewrite(&T, output)
}

// What is written of the first 19 bytes of P is the listing's line, which nobody can take for a card: `cards_only`.
pub fn short_p_is_no_card(output: &mut [u8; REWRITING_ROOM]) -> usize
    ensures line_is { take result output.new ≡ refused_line 1 19 }
    ensures no_card { (c : Card) → read_card (take result output.new) ≡ record { outcome = accepted; card = c } → ⊥ }
{
    listing::rewriting::rewrite(&P[..19], output)
}

// 2,048 bytes are read.
pub fn longest_is_read(input: &[u8; 2048], output: &mut [u8; REWRITING_ROOM]) -> usize
    ensures { take result output.new ≡ rewritten_under (read_under CardRule.Former input.now).outcome (read_under CardRule.Former input.now).card }
{
    listing::rewriting::rewrite(input, output)
}

// One more is too long, and what follows it changes nothing: `by_the_front`. There is always room.
pub fn longer_is_too_long(front: &[u8; 2049], output: &mut [u8; REWRITING_ROOM]) -> usize
    ensures line_is { take result output.new ≡ too_long_line }
    ensures by_the_front { (more : List ℕ) → take result output.new ≡ rewritten (front.now ++ more) }
    ensures has_room { result ≤ longest_card }
{
    listing::rewriting::rewrite(front, output)
}
