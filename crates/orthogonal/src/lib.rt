// What a check touches, a word of each stream, and whether the checks of a stream are orthogonal, check by check: one pass over a check works out the
// errors that it touches, tests them against those of the earlier checks and adds them.
#![tactic(auto)]

ghost use Rattle.std.specs.Prelude.{◌≡◌, ℕ, ◌+◌, ◌*◌, ◌%◌, ◌<◌, ◌≤◌, ◌++◌, length, get_or, drop};
ghost use Rattle.std.specs.Int.Bits.{bit_or};
ghost use Rattle.bits.specs.Sums.{sum_below, up_to, back};
ghost use Rattle.bits.specs.Digits.{bit};
ghost use Rattle.code.specs.Checks.{touches_info};
ghost use Rattle.orthogonal.specs.Judgements.{judgement_number};
ghost use Rattle.orthogonal.specs.Pass.{Touched, Clash, Passed, word_code, information_streams, parity_streams, first_masks};

// Why a check does not stand, under its published number.
#[derive(Clone, Copy, Debug, PartialEq, Eq)]
pub enum Failure {
    OwnDigitUntouched = 8,
    ErrorTouchedBefore = 9,
}

// The errors of an information stream that a check touches by way of one parity stream, every offset at once: its mask there, moved down by each
// term of the generator.
fn through_terms(mask: u32, generator: u32) -> u32
    ensures { (b : ℕ) → b < 32 → bit result b ≡ sum_below 32 (λ a. bit mask a * back (bit generator) a b) % 2 }
{
    let mut sum: u32 = 0;
    let mut rest = generator;
    while 0 < rest {
        sum ^= mask >> rest.trailing_zeros();
        rest &= rest - 1;
    }
    sum
}

// The errors of information stream s that a check touches.
fn information_errors(generators: &[u32], masks: &[u32], p: usize, s: usize) -> u32
    requires { (p ≤ 8) × (s < 8) }
    ensures { (b : ℕ) → b < 32 → bit result b ≡ touches_info (word_code generators.now 0 p) (first_masks p masks.now) b s }
{
    let mut sum: u32 = 0;
    for j in 0..p {
        let generator = bits::word(generators, s * 8 + j);
        sum ^= through_terms(bits::word(masks, j), generator);
    }
    sum
}

// The errors of stream s that a check with these masks touches, that at offset b as digit b: none of a stream that there is not. More streams than the
// tables have are not looked at.
pub fn touched(generators: &[u32], masks: &[u32], k: usize, p: usize, s: usize) -> u32
    ensures { Touched (word_code generators.now (information_streams k) (parity_streams k p)) (first_masks (parity_streams k p) masks.now) s result }
{
    let streams = k.min(8);
    let parities = p.min(8 - streams);
    if s < streams {
        return information_errors(generators, masks, parities, s);
    }
    if s - streams < parities {
        bits::word(masks, s - streams)
    } else {
        0
    }
}

// The errors of stream s that are both among these and among those of before, without that of the own digit of a check of stream i.
pub fn clash(errors: u32, before: u32, i: usize, s: usize) -> u32
    ensures { Clash i s errors before result }
{
    let both = errors & before;
    if s == i { both - both % 2 } else { both }
}

// The errors of the first streams added to those touched. Beyond them there are none, and to add all eight words at once, as vectors, would wait for
// the words that were just stored.
fn add_errors(touched: &mut [u32; 8], errors: &[u32; 8], streams: usize)
    requires { streams ≤ 8 }
    ensures { touched.new ≡ up_to streams (λ s. bit_or (get_or touched.old s 0) (get_or errors.now s 0)) ++ drop streams touched.old }
{
    for s in 0..streams {
        touched[s] |= errors[s];
    }
}

// A whole check of stream i, given by its masks, and the errors that the earlier checks of its stream touch: each error of the check is worked out
// once. Its own digit is tested first, then whether it touches another error that was touched before; if neither fails its errors are added. More
// streams than the tables have are not looked at.
pub fn pass(
    generators: &[u32; 32],
    masks: &[u32; 8],
    touched: &mut [u32; 8],
    k: usize,
    p: usize,
    i: usize,
) -> Result<(), Failure>
    ensures { Passed (word_code generators.now (information_streams k) (parity_streams k p)) i (first_masks (parity_streams k p) masks.now)
        touched.old (judgement_number result) touched.new }
{
    let streams = k.min(8);
    let n = streams + p.min(8 - streams);
    let mut errors = [0u32; 8];
    let mut again: u32 = 0;
    for s in 0..n {
        let touches = crate::touched(generators, masks, k, p, s);
        again |= clash(touches, touched[s], i, s);
        errors[s] = touches;
    }
    let own = bits::word(&errors, i) % 2;
    if own == 0 {
        return Err(Failure::OwnDigitUntouched);
    }
    if 0 < again {
        return Err(Failure::ErrorTouchedBefore);
    }
    add_errors(touched, &errors, n);
    Ok(())
}
