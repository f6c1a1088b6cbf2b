// A sending session that gets a call for each information frame, and then m for the tail.
ghost use Rattle.std.specs.Prelude.{◌≡◌, map, ◌+◌, ◌≤◌, IfOk, length, get_or};
ghost use Rattle.code.specs.Code.{most_frames};
ghost use Rattle.encoder.specs.Calls.{information, tail, call_of};
ghost use Rattle.encoder.specs.Outcome.{published};
ghost use Rattle.outcomes.specs.Outcome.{outcome, answer_of};
ghost use Rattle.outcomes.specs.Wrote.{Stored};
ghost use Rattle.sessions.specs.Sending.{frames_of, session_send_of};

use card::Refusal;
use encoder::Session;
use outcomes::answer;
use outcomes::cursor::Cursor;

// The call of turn t: with an information frame, after the last one for the tail.
fn call(session: &mut Session, input: &[u8], t: usize) -> Result<u8, Refusal>
    ensures { published result session.new ≡ call_of session.old (get_or (map information input.now) t tail) }
{
    if t < input.len() {
        session.send(input[t])
    } else {
        session.send_tail()
    }
}

// All calls: the frames that they hand out, one behind the other. `receive_frames` is the same loop over other calls: a trait for both, with the
// frames still to come as its law, would be longer than the two.
fn send_frames(session: &mut Session, calls: usize, input: &[u8], frames: &mut Cursor<'_>)
    requires { calls ≡ length input.now + session.old.card.m }
    ensures { Stored frames.old frames.new (frames_of session.old input.now) }
{
    // By turns, as `calls_on` lists them.
    for t in 0..calls {
        if let Ok(frame) = call(session, input, t) {
            frames.put(frame);
        }
    }
}

// The count of frames handed out, or why there was no call.
fn run(card: &[u8], input: &[u8], output: &mut [u8]) -> Result<usize, Refusal>
    ensures few { IfOk result (λ count. count ≤ most_frames) }
    ensures told { outcome (answer_of result) output.new ≡ session_send_of card.now input.now output.old }
{
    let mut opened = encoder::open(card);
    opened.verdict?;
    let calls = input.len() + opened.session.card.m;
    crate::admit(calls, output.len())?;
    let mut frames = Cursor::new(output);
    send_frames(&mut opened.session, calls, input, &mut frames);
    Ok(frames.at)
}

// Opens a session and calls it for each information frame and for the tail: the count of frames handed out, or minus the refusal. A call that is
// refused hands nothing out, and the run goes on. Only so many bytes of the output are written.
pub fn session_send(card: &[u8], input: &[u8], output: &mut [u8]) -> i32
    ensures { outcome result output.new ≡ session_send_of card.now input.now output.old }
{
    answer::of(run(card, input, output))
}
