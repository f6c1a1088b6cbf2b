// What a burst and a listing come to, by the definitions, and the third term for a burst: the code of `burst` and `listing` is proved to come to
// this. The only code here is what several crates share: the answers of the calls, and the length of the card that an input states.
#![tactic(auto)]

pub mod answer;
pub mod cursor;

ghost use Rattle.std.specs.Prelude.{◌≡◌};
ghost use Rattle.outcomes.specs.Listing.{stated_length};

// The most bytes of a card that is listed or traced, by its stated length, or written anew, by its bytes.
pub const MOST_CARD_BYTES: usize = 2048;

// The stated length of the card, 0 where a length byte is missing.
pub fn stated_length(input: &[u8]) -> usize
    ensures { result ≡ stated_length input.now }
{
    let [low, high, ..] = input else {
        return 0;
    };
    usize::from(*low) + usize::from(*high) * 256
}
