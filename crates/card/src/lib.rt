// Link cards: reading one from its bytes, and why something is refused.
#![tactic(auto)]

mod checks;
mod fields;
mod parts;

ghost use Rattle.std.specs.Prelude.{◌≡◌};
ghost use Rattle.orthogonal.specs.Judgements.{failure_number};
ghost use Rattle.card.specs.Fields.{empty_card};
ghost use Rattle.card.specs.Refusals.{number_of};
ghost use Rattle.card.specs.Promise.{CardPromise};

use code::{CHECK_WORDS, Card, MOST_CHECKS};
use orthogonal::Failure;

// No accepted card has more bytes: k 4 and n 8 stand, all sixteen generators, and for each stream J and the most checks, of four masks each.
pub const LONGEST_CARD: usize = 5 + (2 + 4 * 16) + 4 * (1 + MOST_CHECKS * (1 + 4 * 4));

// Why something is refused, under its published number.
#[derive(Clone, Copy, Debug, PartialEq, Eq)]
pub enum Refusal {
    CardCutShort = 1,
    KOutOfRange = 2,
    NOutOfRange = 3,
    MemoryAboveLimit = 4,
    MapBeyondStreams = 5,
    MaskOutOfRange = 6,
    CheckCountOutOfRange = 7,
    OwnDigitUntouched = 8,
    ErrorTouchedBefore = 9,
    BytesAfterChecks = 10,
    DigitBeyondStreams = 11,
    LevelNotFinite = 12,
    OutputTooShort = 13,
    OtherCardNumber = 14,
    TooManyFrames = 15,
    TailBegun = 16,
    TailSent = 17,
    DefaultStated = 18,
}

impl From<Refusal> for u8 {
    ghost from_gives = { λ refusal number. number ≡ number_of refusal };

    fn from(refusal: Refusal) -> u8 {
        refusal as u8
    }
}

impl From<Failure> for Refusal {
    ghost from_gives = { λ failure refusal. number_of refusal ≡ failure_number failure };

    fn from(failure: Failure) -> Refusal {
        match failure {
            Failure::OwnDigitUntouched => Refusal::OwnDigitUntouched,
            Failure::ErrorTouchedBefore => Refusal::ErrorTouchedBefore,
        }
    }
}

// Under which rule a card is read. A field that stands with its default is good under the former one, under which stored cards are read a last
// time, and is refused under the present one.
#[derive(Clone, Copy)]
pub enum CardRule {
    Former,
    Present,
}

// Where a card is refused, and why: at a byte offset.
#[derive(Clone, Copy, Debug, PartialEq, Eq)]
pub struct Fault {
    pub refusal: Refusal,
    pub offset: usize,
}

impl From<Fault> for Refusal {
    ghost from_gives = { λ fault refusal. refusal ≡ fault.refusal };

    fn from(fault: Fault) -> Refusal {
        fault.refusal
    }
}

// What opening a session comes to: whether its card is accepted, and the session. One that is opened with a refused card refuses every call.
#[derive(Clone, Copy)]
pub struct Opened<S> {
    pub verdict: Result<(), Fault>,
    pub session: S,
}

// The card that stands for one that is refused: nothing is stated.
pub fn empty_card() -> Card
    ensures { result ≡ empty_card }
{
    Card {
        number: 0,
        k: 0,
        p: 0,
        m: 0,
        generators: [0; 32],
        counts: [0; 4],
        checks: [0; CHECK_WORDS],
    }
}

// A card read from its bytes, front to back; the first fault stops it.
pub fn read_card(rule: CardRule, bytes: &[u8]) -> Result<Card, Fault>
    ensures { CardPromise rule bytes.now result }
{
    let (sizes, at) = parts::read_head(rule, bytes)?;
    let mut generators = [0u32; 32];
    let at = parts::read_generators(bytes, at, sizes, &mut generators)?;
    let mut counts = [0u32; 4];
    let mut checks = [0u32; CHECK_WORDS];
    let at = checks::read_checks(bytes, at, sizes, &generators, &mut counts, &mut checks)?;
    if at < bytes.len() {
        return Err(Fault {
            refusal: Refusal::BytesAfterChecks,
            offset: at,
        });
    }
    Ok(Card {
        number: sizes.number,
        k: sizes.k,
        p: sizes.p,
        m: sizes.m,
        generators,
        counts,
        checks,
    })
}
