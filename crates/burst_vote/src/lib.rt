// A burst's vote under a card with one parity stream, whose syndromes are one word. Most checks are a single syndrome, and how many of those are 1 is one
// count of ones: so the checks are sorted once, and a vote works out the parities of the others alone.
#![tactic(auto)]

ghost use Rattle.std.specs.Prelude.{◌≡◌, true, ◌%◌, ◌<◌, ◌≤◌, length};
ghost use Rattle.bits.specs.Digits.{dot};
ghost use Rattle.code.specs.Limits.{most_checks};
ghost use Rattle.burst_vote.specs.Sorted.{several_words, Joins, votes_sorted, decide_sorted, Sorted, SortedStream};

use code::{CHECK_STRIDE, CHECK_WORDS, MOST_CHECKS};
use vote::{count_of, more_than_half};

// The checks of several syndromes of all four streams take so many words.
pub const SEVERAL_WORDS: usize = MOST_CHECKS * 4;

// The checks of each information stream on one syndrome register, sorted.
#[derive(Clone, Copy)]
pub struct SortedChecks {
    pub alone: [u32; 4], // the syndromes that are a check of stream i by themselves
    pub several: [u32; SEVERAL_WORDS], // the other checks, stream i's r-th at i * MOST_CHECKS + r
    pub left: [usize; 4], // how many of the other checks stream i has
}

// The same of one stream, its other checks in a table that is lent.
#[derive(Drop)]
struct Stream {
    alone: u32,
    left: usize,
}

// Whether a check may be added to a union: it is of one syndrome, which the union does not have. One of none may be added as well.
fn joins(mask: u32, alone: u32) -> bool
    ensures { result ≡ true → Joins mask alone }
{
    mask & alone == 0 && mask.count_ones() < 2
}

// The checks of stream i, sorted. A check whose syndrome the union has already counts a second time, so it goes to the others.
fn sorted_stream(
    checks: &[u32; CHECK_WORDS],
    i: usize,
    count: usize,
    several: &mut [u32; SEVERAL_WORDS],
) -> Stream
    requires { (i < 4) × (count ≤ most_checks) × (length several.old ≡ several_words) }
    ensures { SortedStream checks.now i count several.old several.new result.alone result.left }
{
    let mut alone = 0;
    let mut left = 0;
    // Each eighth word: with one parity stream a check has one mask.
    for q in 0..count {
        let mask = checks[i * CHECK_STRIDE + q * 8];
        if joins(mask, alone) {
            alone |= mask;
        } else {
            several[i * MOST_CHECKS + left] = mask;
            left += 1;
        }
    }
    Stream { alone, left }
}

// The checks sorted. More streams or checks than the tables have are not looked at.
pub fn sorted<'a>(counts: &'a [u32; 4], checks: &'a [u32; CHECK_WORDS], k: usize) -> SortedChecks
    ensures { Sorted counts.now checks.now k result.alone result.several result.left }
{
    // By index: two arrays go along, and both are written.
    let mut alone = [0; 4];
    let mut several = [0; SEVERAL_WORDS];
    let mut left = [0; 4];
    for i in 0..k.min(4) {
        let stream = sorted_stream(checks, i, count_of(counts, i), &mut several);
        alone[i] = stream.alone;
        left[i] = stream.left;
    }
    SortedChecks {
        alone,
        several,
        left,
    }
}

// How many of the mask's syndromes are 1.
fn ones_in(mask: u32, word: u32) -> u32
    ensures { result ≡ dot mask word }
{
    (mask & word).count_ones()
}

// 1 if an odd number of the mask's syndromes are 1.
fn parity(mask: u32, word: u32) -> u32
    ensures { result ≡ dot mask word % 2 }
{
    ones_in(mask, word) % 2
}

impl SortedChecks {
    // How many of the checks of stream i are 1.
    fn votes(&self, i: usize, word: u32) -> u32
        requires { i < 4 }
        ensures { result ≡ votes_sorted self.now.alone self.now.several self.now.left i word }
    {
        let mut ones = ones_in(self.alone[i], word);
        // By index: over that part of the table, that its items are the stream's checks did not close.
        for r in 0..self.left[i].min(MOST_CHECKS) {
            ones += parity(self.several[i * MOST_CHECKS + r], word);
        }
        ones
    }

    // The decided errors of a frame, stream after stream.
    fn decide_streams(&self, counts: &[u32; 4], word: u32, k: usize) -> u32
        ensures { result ≡ decide_sorted counts.now self.now.alone self.now.several self.now.left word k }
    {
        // The loop of `vote`'s `decided`. That takes a closure, which a public function would have to require to be callable.
        let mut errors = 0;
        for i in 0..k.min(4) {
            errors += u32::from(more_than_half(count_of(counts, i), self.votes(i, word))) << i;
        }
        errors
    }

    // The decided errors of a frame, bit i for stream i, by the word of its syndromes. More streams or checks than the tables have are not looked at. One
    // stream whose checks are of one syndrome each, as in every standard card, takes one count of ones.
    pub fn decide(&self, counts: &[u32; 4], word: u32, k: usize) -> u32
        ensures { result ≡ decide_sorted counts.now self.now.alone self.now.several self.now.left word k }
    {
        if k == 1 && self.left[0] == 0 {
            return u32::from(more_than_half(count_of(counts, 0), ones_in(self.alone[0], word)));
        }
        self.decide_streams(counts, word, k)
    }
}
