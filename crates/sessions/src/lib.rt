// What our benchmark measures: a session that gets one call for each frame.
#![tactic(auto)]

pub mod receive;
pub mod send;

ghost use Rattle.std.specs.Prelude.{◌≤◌, OnOk, IfErr};
ghost use Rattle.code.specs.Code.{most_frames};
ghost use Rattle.sessions.specs.Run.{RefusedBy};

use card::Refusal;
use code::MOST_FRAMES;

// So many calls, of which each may hand out a frame. More than a stream has frames are refused, so that the count fits the answer.
fn admit(calls: usize, room: usize) -> Result<(), Refusal>
    ensures ok { OnOk result ((calls ≤ most_frames) × (calls ≤ room)) }
    ensures err { IfErr result (RefusedBy calls room) }
{
    if MOST_FRAMES < calls {
        return Err(Refusal::TooManyFrames);
    }
    if room < calls {
        return Err(Refusal::OutputTooShort);
    }
    Ok(())
}
