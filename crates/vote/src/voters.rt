// Which checks of a stream vote, digit q of a word for check q: document 02, R-6. All do while nothing is erased. Else a check that touches an erased digit
// other than its own does not: bit b of erased register s is 1 if the digit of stream s at time u + b is erased, where the frame of time u is decided
// next.
ghost use Rattle.std.specs.Prelude.{◌≡◌, cond, ◌<◌, drop};
ghost use Rattle.code.specs.Limits.{most_checks};
ghost use Rattle.vote.specs.Voters.{voting_by, stream_voters_by, all_voting, voters_by, voters_of};

use code::{CHECK_STRIDE, MOST_CHECKS, Sizes};

// The checks that vote, a word for each stream, and how many they are.
#[derive(Clone, Copy)]
pub struct Voters {
    pub words: [u32; 4],
    pub counts: [u32; 4],
}

impl From<[u32; 4]> for Voters {
    ghost from_gives = { λ words voters. voters ≡ voters_of words };

    fn from(words: [u32; 4]) -> Voters {
        // No `map` of the array: its result is known by its calls alone, and that they count would be a longer proof than this loop's.
        let mut counts = [0; 4];
        for (i, count) in counts.iter_mut().enumerate() {
            *count = words[i].count_ones();
        }
        Voters { words, counts }
    }
}

// All checks of each stream, as words. More streams or checks than the tables have are not looked at.
fn all_checks(counts: &[u32], k: usize) -> [u32; 4]
    ensures { result ≡ all_voting counts.now k }
{
    // By index: after `iter_mut().take(n)` nothing is known of what was written.
    let mut words = [0; 4];
    for i in 0..k.min(4) {
        words[i] = (1 << crate::count_of(counts, i)) - 1;
    }
    words
}

// All checks of each stream.
pub fn all_voting(counts: &[u32], k: usize) -> Voters
    ensures { result ≡ voters_of (all_voting counts.now k) }
{
    Voters::from(all_checks(counts, k))
}

// The masks that begin there, and what follows them.
fn masks_from(checks: &[u32], at: usize) -> &[u32]
    ensures { result.now ≡ drop at checks.now }
{
    checks.get(at..).unwrap_or_default()
}

// Whether check q of stream i votes.
fn check_votes<'a>(
    generators: &'a [u32],
    checks: &'a [u32],
    erased: &[u32],
    sizes: Sizes,
    i: usize,
    q: usize,
) -> bool
    requires { (i < 4) × (q < most_checks) }
    ensures { cond result 1 0 ≡ voting_by generators.now checks.now erased.now sizes.k sizes.p i q }
{
    let masks = masks_from(checks, i * CHECK_STRIDE + q * 8);
    let mut met = 0;
    // By number: beyond the registers that are lent there are zeros.
    for s in 0..8 {
        let touches = orthogonal::touched(generators, masks, sizes.k, sizes.p, s);
        met |= orthogonal::clash(touches, bits::word(erased, s), i, s);
    }
    met == 0
}

// Those of the checks of stream i in a word that vote. Those after the last in the word are not worked out.
fn stream_voters<'a>(
    generators: &'a [u32],
    checks: &'a [u32],
    erased: &[u32],
    sizes: Sizes,
    i: usize,
    all: u32,
) -> u32
    requires { i < 4 }
    ensures { result ≡ stream_voters_by generators.now checks.now erased.now sizes.k sizes.p i all }
{
    let count = 32 - (all % (1 << MOST_CHECKS)).leading_zeros() as usize;
    let mut word = 0;
    for q in 0..count {
        if bits::digit(all, q) == 1 && check_votes(generators, checks, erased, sizes, i, q) {
            word += 1 << q;
        }
    }
    word
}

// The checks that vote. While nothing is erased the registers of erased digits are not looked at.
pub fn voting<'a>(
    generators: &'a [u32],
    counts: &'a [u32],
    checks: &'a [u32],
    erased: &[u32],
    any: u32,
    sizes: Sizes,
) -> Voters
    ensures { result ≡ voters_of (voters_by generators.now counts.now checks.now erased.now any sizes.k sizes.p) }
{
    let all = all_voting(counts, sizes.k);
    if any == 0 {
        return all;
    }
    let mut words = all.words;
    for (i, word) in words.iter_mut().enumerate() {
        *word = stream_voters(generators, checks, erased, sizes, i, *word);
    }
    Voters::from(words)
}
