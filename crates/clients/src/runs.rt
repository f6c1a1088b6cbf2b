// Clients of the promises of the runs of calls on a session.
ghost use Rattle.std.specs.Prelude.{◌≡◌, [], ◌∷◌, drop, pos, neg_ℤ};
ghost use Rattle.outcomes.specs.Outcome.{outcome, refused_of};
ghost use Rattle.sessions.specs.Run.{run_of};

use crate::cards::P;

// P receives 3, 3, 3, 2, one digit of it wrong, with room for a frame from each call and no more: what comes out stands at the front.
pub fn p_receives(output: &mut [u8; 4]) -> i32
    ensures { outcome result output.new ≡ outcome (pos 3) (1 ∷ 0 ∷ 1 ∷ drop 3 output.old) }
{
    sessions::receive::session_receive(&P, b"\x03\x03\x03\x02", output)
}

// A frame between them that has a digit beyond the streams is refused, and the run goes on.
pub fn p_receives_on(output: &mut [u8; 6]) -> i32
    ensures { outcome result output.new ≡ outcome (pos 3) (1 ∷ 0 ∷ 1 ∷ drop 3 output.old) }
{
    sessions::receive::session_receive(&P, b"\x03\x03\x04\x03\x02", output)
}

// An output that is too short for a frame from each call is left as it was, though it would do for those that come out.
pub fn p_finds_no_room(output: &mut [u8; 3]) -> i32
    ensures { outcome result output.new ≡ outcome (neg_ℤ (pos 13)) output.old }
{
    sessions::receive::session_receive(&P, b"\x03\x03\x03\x02", output)
}

// The first 19 bytes of P are refused.
pub fn short_p_receives(output: &mut [u8; 4]) -> i32
    ensures { outcome result output.new ≡ outcome (neg_ℤ (pos 1)) output.old }
{
    sessions::receive::session_receive(&P[..19], b"\x03\x03\x03\x02", output)
}

// P sends 1, 0, 1 and tail, a frame with a digit beyond its stream between them; what the output has beyond them is as it was.
pub fn p_sends(output: &mut [u8; 6]) -> i32
    ensures { outcome result output.new ≡ outcome (pos 4) (3 ∷ 2 ∷ 3 ∷ 2 ∷ drop 4 output.old) }
{
    sessions::send::session_send(&P, b"\x01\x02\x00\x01", output)
}

// There has to be room for the tail too.
pub fn p_finds_no_room_for_the_tail(output: &mut [u8; 3]) -> i32
    ensures { outcome result output.new ≡ outcome (neg_ℤ (pos 13)) output.old }
{
    sessions::send::session_send(&P, b"\x01\x00\x01", output)
}

// The first 19 bytes of P are refused.
pub fn short_p_sends(output: &mut [u8; 4]) -> i32
    ensures { outcome result output.new ≡ outcome (neg_ℤ (pos 1)) output.old }
{
    sessions::send::session_send(&P[..19], b"\x01\x00\x01", output)
}

// As many calls as there may be, and one more: 15, which comes before 13. Nothing runs.
pub fn most_calls()
    ensures { (run_of 1048576 [] [] ≡ refused_of 13 []) × (run_of 1048577 [] [] ≡ refused_of 15 []) }
{}
