// A receiving session that gets a call for each frame.
ghost use Rattle.std.specs.Prelude.{◌≡◌, ◌≤◌, IfOk};
ghost use Rattle.code.specs.Code.{most_frames};
ghost use Rattle.outcomes.specs.Outcome.{outcome, answer_of};
ghost use Rattle.outcomes.specs.Wrote.{Stored};
ghost use Rattle.sessions.specs.Receiving.{frames_of, session_receive_of};

use card::Refusal;
use decoder::Session;
use outcomes::answer;
use outcomes::cursor::Cursor;

// A call for each frame, under the session's own card number: the frames that are handed out, one behind the other.
fn receive_frames(session: &mut Session, input: &[u8], frames: &mut Cursor<'_>)
    ensures { Stored frames.old frames.new (frames_of session.old input.now) }
{
    let number = session.card.number;
    for &frame in input {
        if let Some(decided) = session.receive_byte(number, frame).unwrap_or(None) {
            frames.put(decided);
        }
    }
}

// The count of frames handed out, or why there was no call.
fn run(card: &[u8], input: &[u8], output: &mut [u8]) -> Result<usize, Refusal>
    ensures few { IfOk result (λ count. count ≤ most_frames) }
    ensures told { outcome (answer_of result) output.new ≡ session_receive_of card.now input.now output.old }
{
    let mut opened = decoder::open(card);
    opened.verdict?;
    crate::admit(input.len(), output.len())?;
    let mut frames = Cursor::new(output);
    receive_frames(&mut opened.session, input, &mut frames);
    Ok(frames.at)
}

// Opens a session and calls it for each frame: the count of frames handed out, or minus the refusal. A call that is refused hands nothing out,
// and the run goes on. Only so many bytes of the output are written.
pub fn session_receive(card: &[u8], input: &[u8], output: &mut [u8]) -> i32
    ensures { outcome result output.new ≡ session_receive_of card.now input.now output.old }
{
    answer::of(run(card, input, output))
}
