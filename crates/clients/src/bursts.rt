// Clients of the promises of the burst calls.
ghost use Rattle.std.specs.Prelude.{◌≡◌, [], ◌∷◌, drop, pos, neg_ℤ};
ghost use Rattle.outcomes.specs.Outcome.{outcome};

use crate::cards::P;

// P receives 3, 3, 3, 2, one digit of it wrong: it comes out as sent, by the third term.
pub fn p_comes_out(output: &mut [u8; 3]) -> i32
    ensures { (result ≡ pos 3) × (output.new ≡ 1 ∷ 0 ∷ 1 ∷ []) }
{
    burst::receive::burst_receive(&P, b"\x03\x03\x03\x02", output)
}

// P receives 2, 2, 0, 0: the rule's frames, beyond the correctable number; what the output has beyond them is as it was.
pub fn p_receives(output: &mut [u8; 5]) -> i32
    ensures { outcome result output.new ≡ outcome (pos 3) (1 ∷ 0 ∷ 0 ∷ drop 3 output.old) }
{
    burst::receive::burst_receive(&P, b"\x02\x02\x00\x00", output)
}

// An output that is too short is left as it was.
pub fn p_finds_no_room(output: &mut [u8; 2]) -> i32
    ensures { outcome result output.new ≡ outcome (neg_ℤ (pos 13)) output.old }
{
    burst::receive::burst_receive(&P, b"\x03\x03\x03\x02", output)
}

// P sends 1, 0, 1 and tail; what the output has beyond them is as it was.
pub fn p_sends(output: &mut [u8; 6]) -> i32
    ensures { outcome result output.new ≡ outcome (pos 4) (3 ∷ 2 ∷ 3 ∷ 2 ∷ drop 4 output.old) }
{
    burst::send::burst_send(&P, b"\x01\x00\x01", output)
}
