// A stored card, or why a file holds none.
ghost use Rattle.std.specs.Prelude.{◌≡◌};
ghost use Rattle.listing.specs.declared.stored.Why.TheVariants.{Refused};
ghost use Rattle.listing.specs.Stored.{why_line, ReadStored};
ghost use Rattle.listing.specs.Written.{StoredLine};

use crate::lines;
use card::{CardRule, Fault};
use code::Card;
use outcomes::MOST_CARD_BYTES;
use outcomes::cursor::Cursor;

#[derive(Clone, Copy)]
pub(crate) enum Why {
    NotRead,
    TooLong,
    Refused(Fault),
}

impl From<Fault> for Why {
    ghost from_gives = { λ fault why. why ≡ Refused fault };

    fn from(fault: Fault) -> Why {
        Why::Refused(fault)
    }
}

// The card that the bytes of a file are.
pub(crate) fn read(rule: CardRule, bytes: &[u8]) -> Result<Card, Why>
    ensures { ReadStored rule bytes.now result }
{
    if MOST_CARD_BYTES < bytes.len() {
        return Err(Why::TooLong);
    }
    Ok(card::read_card(rule, bytes)?)
}

// The line that says why.
pub(crate) fn tell(cursor: &mut Cursor<'_>, why: Why)
    ensures { StoredLine 36 cursor.old cursor.new (why_line why) }
{
    match why {
        Why::NotRead => lines::not_read(cursor),
        Why::TooLong => lines::too_long(cursor),
        Why::Refused(fault) => lines::refused(cursor, fault.refusal, fault.offset),
    }
}
