// Clients of the pass over a check, for checks of Q: s0 touches its own digit and the parity digit beside it, s1 its own digit and both digits of the
// frame after.
ghost use Rattle.std.specs.Prelude.{◌≡◌, ◌∷◌, replicate};
ghost use Rattle.orthogonal.specs.Judgements.{judgement_number};
ghost use Rattle.clients.specs.Touched.{After, Holds};

use orthogonal::Failure;

// What the pass gives for a check of Q, of one mask, after others of its stream, and the errors touched then.
fn after(mask: u32, before: [u32; 8]) -> (Result<(), Failure>, [u32; 8])
    ensures { After mask before (judgement_number result.0) result.1 }
{
    let mut generators = [0; 32];
    generators[0] = 11;
    let mut masks = [0; 8];
    masks[0] = mask;
    let mut touched = before;
    let passed = orthogonal::pass(&generators, &masks, &mut touched, 1, 1, 0);
    (passed, touched)
}

// s0 stands, and its errors are those touched then: `number_is`, `added`.
pub fn q_s0_stands() -> (Result<(), Failure>, [u32; 8])
    ensures { (judgement_number result.0 ≡ 0) × Holds result.1 (1 ∷ 1 ∷ replicate 6 0) }
{
    after(1, [0; 8])
}

// s1 after it stands too, and its errors are added to those of s0: `number_is`, `added`.
pub fn q_s1_stands() -> (Result<(), Failure>, [u32; 8])
    ensures { (judgement_number result.0 ≡ 0) × Holds result.1 (3 ∷ 3 ∷ replicate 6 0) }
{
    after(2, [1, 1, 0, 0, 0, 0, 0, 0])
}

// s2 after both touches an error of s1 again, and not its own digit: 8 before 9, and the errors touched are as they were: `number_is`, `kept`.
pub fn q_s2_fails() -> (Result<(), Failure>, [u32; 8])
    ensures { (judgement_number result.0 ≡ 8) × (result.1 ≡ 3 ∷ 3 ∷ replicate 6 0) }
{
    after(4, [3, 3, 0, 0, 0, 0, 0, 0])
}

// s0 after itself touches the error of its parity digit again: 9.
pub fn q_s0_fails_again() -> (Result<(), Failure>, [u32; 8])
    ensures { (judgement_number result.0 ≡ 9) × (result.1 ≡ 1 ∷ 1 ∷ replicate 6 0) }
{
    after(1, [1, 1, 0, 0, 0, 0, 0, 0])
}
