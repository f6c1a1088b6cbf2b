// What the benchmark links: the calls of `sessions` for C, as tests/speed/sessions.h declares them.
#![tactic(auto)]

ghost use Rattle.std.specs.Prelude.{◌≡◌};
ghost use Rattle.outcomes.specs.Outcome.{outcome};
ghost use Rattle.sessions.specs.Sending.{session_send_of};
ghost use Rattle.sessions.specs.Receiving.{session_receive_of};

// Opens a session and calls it for each information frame and for the tail: the count of frames handed out, or minus the refusal. A call that is
// refused hands nothing out, and the run goes on. Only so many bytes of the output are written.
#[unsafe(no_mangle)]
pub extern "C" fn session_send(card: &[u8], input: &[u8], output: &mut [u8]) -> i32
    ensures { outcome result output.new ≡ session_send_of card.now input.now output.old }
{
    sessions::send::session_send(card, input, output)
}

// Opens a session and calls it for each frame: the count of frames handed out, or minus the refusal. A call that is refused hands nothing out,
// and the run goes on. Only so many bytes of the output are written.
#[unsafe(no_mangle)]
pub extern "C" fn session_receive(card: &[u8], input: &[u8], output: &mut [u8]) -> i32
    ensures { outcome result output.new ≡ session_receive_of card.now input.now output.old }
{
    sessions::receive::session_receive(card, input, output)
}
