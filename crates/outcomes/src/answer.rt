// The answer of a call: the count of what was written, frames or bytes, or minus the refusal.
ghost use Rattle.std.specs.Prelude.{◌≡◌};
ghost use Rattle.outcomes.specs.Outcome.{answer_of, held};

use card::Refusal;
use code::MOST_FRAMES;

// No call writes more than a stream has frames, so that its count fits; one above is held to that.
pub fn of(came: Result<usize, Refusal>) -> i32
    ensures { result ≡ answer_of (held came) }
{
    match came {
        Ok(count) => count.min(MOST_FRAMES) as i32,
        Err(refusal) => -i32::from(u8::from(refusal)),
    }
}
