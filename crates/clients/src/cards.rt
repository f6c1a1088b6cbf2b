// Clients of `read_card`'s promise.
ghost use Rattle.std.specs.Prelude.{◌≡◌, Ok};
ghost use Rattle.code.specs.Bench as Bench;
ghost use Rattle.card.specs.Outcome.{outcome_of, card_in};
ghost use Rattle.card.specs.Outcome.Outcome.{accepted, refused};
ghost use Rattle.code.specs.Guarantees.{Guarantees};
ghost use Rattle.card.specs.Bench.{card_p, stored_p};
ghost use Rattle.card.specs.Fields.{Fields};
ghost use Rattle.card.specs.Layout.{Acceptable};
ghost use Rattle.card.specs.declared.CardRule.{CardRule};

use card::{CardRule, Fault, LONGEST_CARD};
use code::Card;

// Card P.
pub(crate) const P: [u8; 20] =
    *b"\x00\x07\x01\x01\x00\x03\x00\x00\x00\x02\x01\x01\x00\x00\x00\x01\x02\x00\x00\x00";

// P as it may be stored since before R-4: k stated as 1, n as 2.
pub(crate) const STORED_P: [u8; 22] =
    *b"\x03\x07\x01\x02\x01\x01\x00\x03\x00\x00\x00\x02\x01\x01\x00\x00\x00\x01\x02\x00\x00\x00";

// Card T.
pub(crate) const T: [u8; 37] = *b"\x03\x0a\x02\x03\x02\x03\x00\x03\x00\x00\x00\x05\x00\x00\x00\
       \x02\x01\x01\x00\x00\x00\x01\x02\x00\x00\x00\
       \x02\x01\x01\x00\x00\x00\x01\x04\x00\x00\x00";

// P is within the limits and its checks are orthogonal, so it cannot be turned down: `all_these`. The card is what its fields state: `only_these`.
pub fn p_is_accepted() -> Result<Card, Fault>
    ensures { result ≡ Ok Bench.P }
{
    card::read_card(CardRule::Present, &P)
}

// Bytes that are accepted and read as P are P's, and P's bytes are read as P: `one_form`.
pub fn p_has_one_form(bytes: &[u8]) -> Result<Card, Fault>
    ensures bytes_are { result ≡ Ok Bench.P → bytes.now ≡ card_p }
    ensures card_is { outcome_of result ≡ accepted → bytes.now ≡ card_p → card_in result ≡ Bench.P }
{
    card::read_card(CardRule::Present, bytes)
}

// P with its defaults stated: `is_read`. So it lies outside the limits, whatever its fields are said to be: `all_these`.
pub fn stored_p_is_refused() -> Result<Card, Fault>
    ensures refused_as { outcome_of result ≡ refused 18 2 }
    ensures never_acceptable { (f : Fields) → Acceptable CardRule.Present stored_p f → ⊥ }
{
    card::read_card(CardRule::Present, &STORED_P)
}

// Under the former rule it cannot be turned down, and is P: `all_these`, `only_these`, `guaranteed`.
pub fn stored_p_is_accepted() -> Result<Card, Fault>
    ensures { (result ≡ Ok Bench.P) × Guarantees (card_in result) }
{
    card::read_card(CardRule::Former, &STORED_P)
}

// T with s0, s2 for stream 1, whose checks are not orthogonal, cannot be got accepted under either rule: `only_these`.
pub fn t_with_s2_is_not_accepted(rule: CardRule) -> Result<Card, Fault>
    ensures { outcome_of result ≡ accepted → ⊥ }
{
    card::read_card(
        rule,
        b"\x03\x0a\x02\x03\x02\x03\x00\x03\x00\x00\x00\x05\x00\x00\x00\
          \x02\x01\x01\x00\x00\x00\x01\x04\x00\x00\x00\
          \x02\x01\x01\x00\x00\x00\x01\x04\x00\x00\x00",
    )
}

// More bytes than any card has: `length_most`.
pub fn too_long_is_not_accepted(
    rule: CardRule,
    bytes: &[u8; LONGEST_CARD + 1],
) -> Result<Card, Fault>
    ensures { outcome_of result ≡ accepted → ⊥ }
{
    card::read_card(rule, bytes)
}
