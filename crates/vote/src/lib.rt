// Massey's majority vote on registers, for both sessions and the burst. What the checks of a stream say is two words: digit q of one, check q votes
// (`voters`); digit q of the other, check q votes and is 1. In the first circuit and the burst bit a of register j is the syndrome of parity stream j, the
// errors decided before taken out, a frames after the frame that is decided; in the second it is a sum of digits. It decides as the rule on whole
// streams (`majority`) does.
#![tactic(auto)]

pub mod voters;

ghost use Rattle.std.specs.Prelude.{◌≡◌, ℕ, Bool, true, min, cond, ◌+◌, ◌*◌, ◌<◌, ◌≤◌, ltb, get_or, length};
ghost use Rattle.bits.specs.Digits.{from_digits};
ghost use Rattle.code.specs.Limits.{most_checks, check_words};
ghost use Rattle.vote.specs.Voters.{all_voting, decide_voters, decide_marked};
ghost use Rattle.vote.specs.Voting.{check_by, all_by, ones_by, if_whole, stream_ones_by, decide_by};

use code::{CHECK_STRIDE, CHECK_WORDS, MOST_CHECKS, Sizes};
use voters::Voters;

// The check whose masks begin there: 0 or 1.
fn check(checks: &[u32], at: usize, words: &[u32], p: usize) -> u32
    requires { (at + 8 ≤ length checks.now) × (8 ≤ length words.now) × (p ≤ 8) }
    ensures { result ≡ check_by checks.now at words.now p }
{
    // By index: one j goes along the masks from `at` on and the words, and no table is cut for it in the innermost loop of a vote.
    let mut sum = 0u32;
    for j in 0..p {
        sum ^= checks[at + j] & words[j];
    }
    sum.count_ones() % 2
}

// The first checks of stream i, digit q for check q. From the last on, each moves those after it a place up, so that none has to be placed.
fn all_of(checks: &[u32], i: usize, count: usize, words: &[u32], p: usize) -> u32
    requires { (i < 4) × (count ≤ most_checks) × (check_words ≤ length checks.now) × (8 ≤ length words.now) × (p ≤ 8) }
    ensures { result ≡ all_by checks.now i count words.now p }
{
    let mut word = 0;
    for q in (0..count).rev() {
        word = (word << 1) + check(checks, i * CHECK_STRIDE + q * 8, words, p);
    }
    word
}

// The checks of stream i that vote and are 1. Those after the last that votes are not worked out.
fn ones(checks: &[u32], i: usize, voting: u32, words: &[u32], p: usize) -> u32
    requires { (i < 4) × (check_words ≤ length checks.now) × (8 ≤ length words.now) × (p ≤ 8) }
    ensures { result ≡ ones_by checks.now i voting words.now p }
{
    let count = 32 - (voting % (1 << MOST_CHECKS)).leading_zeros() as usize;
    all_of(checks, i, count, words, p) & voting
}

// Whether the table of checks and the words are whole.
fn whole(checks: &[u32], words: &[u32]) -> bool
    ensures long { result ≡ true → (check_words ≤ length checks.now) × (8 ≤ length words.now) }
    ensures is { (x : ℕ) → if_whole checks.now words.now x ≡ cond result x 0 }
{
    CHECK_WORDS <= checks.len() && 8 <= words.len()
}

// The same on words that stand for syndromes. A stream that the tables do not have has no checks, and tables or words that are not whole have none that
// are 1.
pub fn stream_ones(checks: &[u32], i: usize, voting: u32, words: &[u32], p: usize) -> u32
    ensures { result ≡ stream_ones_by checks.now i voting words.now p }
{
    if i < 4 && whole(checks, words) {
        ones(checks, i, voting, words, p.min(8))
    } else {
        0
    }
}

// How many checks stream i has, of those that the tables have.
pub fn count_of(counts: &[u32], i: usize) -> usize
    ensures { result ≡ min (get_or counts.now i 0) most_checks }
{
    (bits::word(counts, i) as usize).min(MOST_CHECKS)
}

// Whether more than half of so many checks are 1. A tie is not.
pub fn more_than_half(count: usize, ones: u32) -> bool
    ensures { result ≡ ltb count (2 * ones) }
{
    count < 2 * ones as usize
}

// The decided errors of a frame, bit i for stream i, 1 where `wrong` is true of it: all streams are decided before any is fed back.
fn decided<F: Fn(usize) -> bool>(k: usize, wrong: F) -> u32
    requires { (i : ℕ) → i < 4 → F.pre wrong i }
    ensures { (d : ℕ → Bool) → ((i : ℕ) → i < 4 → (b : Bool) → F.post wrong i b → b ≡ d i) → result ≡ from_digits (min k 4) (λ i. cond (d i) 1 0) }
{
    let mut errors = 0;
    for i in 0..k.min(4) {
        errors += u32::from(wrong(i)) << i;
    }
    errors
}

// The decided errors of a frame where all checks vote, as in a burst: what `decide` gives for them, without their words.
pub fn decide_all(counts: &[u32], checks: &[u32], syndromes: &[u32], k: usize, p: usize) -> u32
    ensures { result ≡ decide_voters (all_voting counts.now k) checks.now syndromes.now k p }
{
    if !whole(checks, syndromes) {
        return 0;
    }
    decided(k, |i| {
        let count = count_of(counts, i);
        more_than_half(
            count,
            all_of(checks, i, count, syndromes, p.min(8)).count_ones(),
        )
    })
}

// The decided errors of a frame, by the checks that vote and their number. More streams or checks than the tables have are not looked at, and tables or
// registers that are not whole decide nothing.
pub fn decide(voters: &Voters, checks: &[u32], syndromes: &[u32], k: usize, p: usize) -> u32
    ensures { result ≡ decide_by voters.now.words voters.now.counts checks.now syndromes.now k p }
{
    if !whole(checks, syndromes) {
        return 0;
    }
    decided(k, |i| {
        let votes = ones(checks, i, voters.words[i], syndromes, p.min(8)).count_ones();
        more_than_half(voters.counts[i] as usize, votes)
    })
}

// The decided errors of a frame where digits may be erased. While none is, all checks vote.
pub fn decide_marked<'a>(
    generators: &'a [u32],
    counts: &'a [u32],
    checks: &'a [u32],
    syndromes: &[u32],
    erased: &[u32],
    any: u32,
    sizes: Sizes,
) -> u32
    ensures { result ≡ decide_marked generators.now counts.now checks.now syndromes.now erased.now any sizes }
{
    if any == 0 {
        return decide_all(counts, checks, syndromes, sizes.k, sizes.p);
    }
    let voters = voters::voting(generators, counts, checks, erased, any, sizes);
    decide(&voters, checks, syndromes, sizes.k, sizes.p)
}
