// Receiving under a card with one parity stream, as most have. The stream's two registers are one word, which stays in a local: the syndromes in
// places 0 to m, the parity digits to come above them. A place further, the digit to come for the frame's time stands at place m, and with the frame's own
// digits put in there it is the frame's syndrome.
ghost use Rattle.std.specs.Prelude.{◌≡◌, List, ◌∷◌, ◌++◌, ◌⊎◌, ℕ, ◌+◌, ◌-◌, ◌*◌, ◌/◌, ◌%◌, ◌^◌, ◌<◌, ◌≤◌, length, get_or, drop, replicate, IfSome};
ghost use Rattle.std.specs.Int.Bits.{bit_xor};
ghost use Rattle.code.specs.Guarantees.{Guarantees};
ghost use Rattle.code.specs.declared.Card.{Card};
ghost use Rattle.majority.specs.Plain.{decoded};
ghost use Rattle.vote.specs.Voting.{decide_by_all};
ghost use Rattle.burst_vote.specs.Sorted.{Sorted};
ghost use Rattle.burst.specs.Registers.{AtLeast, AllWithin, in_one, put_of, HasPuts};
ghost use Rattle.burst.specs.Held.{OneParity, Before, Handing, Through};

use crate::registers::{corrected, stream_sums};
use burst_vote::{SortedChecks, sorted};
use code::Card;

// What a frame puts into the word.
fn put(sums: &[u32; 16], k: usize, m: usize, frame: u32) -> u64
    requires { (k ≤ 4) × (m ≤ 31) }
    ensures { result ≡ put_of sums.now k m frame }
{
    let sum = sums[(frame % (1 << k)) as usize];
    u64::from(sum ^ (frame >> k) % 2) << m
}

// The same for each frame of k + 1 digits, at its number.
fn puts(sums: &[u32; 16], k: usize, m: usize) -> [u64; 32]
    requires { (k ≤ 4) × (m ≤ 31) }
    ensures { HasPuts sums.now k m (2 ^ (k + 1)) result }
{
    let mut all = [0u64; 32];
    for frame in 0..2u32 << k {
        all[frame as usize] = put(sums, k, m, frame);
    }
    all
}

// The word a place further, with a frame put in.
fn taken_in(word: u64, puts: &[u64; 32], frame: u8) -> u64
    requires { frame < 32 }
    ensures { result ≡ bit_xor (word / 2) (get_or puts.now frame 0) }
{
    word >> 1 ^ puts[usize::from(frame)]
}

// The syndromes held.
fn syndromes(word: u64, m: usize) -> u32
    requires { m ≤ 31 }
    ensures { result ≡ word % 2 ^ (m + 1) }
{
    (word % (2 << m)) as u32
}

// Errors fed back: their generators taken out of the syndromes. A frame of these errors would put them in from place m on. The branch keeps the table
// off the way from one frame to the next.
fn fed_back(word: u64, puts: &[u64; 32], m: usize, errors: u32) -> u64
    requires { (m ≤ 31) × (errors < 16) }
    ensures { ((errors ≡ 0) × (result ≡ word)) ⊎ (result ≡ bit_xor word (get_or puts.now errors 0 / 2 ^ m)) }
{
    if errors == 0 {
        return word;
    }
    word ^ puts[errors as usize] >> m
}

// The word after the first m frames, for which nothing is handed out.
// Three lines, as in `parities`, over another state.
fn filled(card: &Card, puts: &[u64; 32], input: &[u8]) -> u64
    requires tables { OneParity card.now puts.now }
    requires frames { card.now.m ≤ length input.now }
    requires within { AllWithin (card.now.k + 1) input.now }
    ensures { Before card.now input.now card.now.m (in_one card.now.m result) }
{
    let mut word: u64 = 0;
    for frame in &input[..card.m] {
        word = taken_in(word, puts, *frame);
    }
    word
}

// The least number of checks that a stream has. None where no stream has checks of several syndromes: a vote is then no dearer than to count the
// syndromes that are 1.
fn least_checks(counts: &[u32; 4], left: &[usize; 4], k: usize) -> Option<u32>
    requires { k ≤ 4 }
    ensures { IfSome result (λ least. AtLeast counts.now k least) }
{
    if left[..k].iter().all(|others| *others == 0) {
        return None;
    }
    counts[..k].iter().copied().min()
}

// The errors that these syndromes decide. No syndrome is in two checks of a stream, so with few of them 1 there is no majority for any stream of so
// many checks or more, and no vote.
fn voted(card: &Card, sorted: &SortedChecks, least: Option<u32>, held: u32) -> u32
    requires guaranteed { Guarantees card.now }
    requires one { card.now.p ≡ 1 }
    requires sorted { Sorted card.now.counts card.now.checks card.now.k sorted.now.alone sorted.now.several sorted.now.left }
    requires at_least { IfSome least (λ checks. AtLeast card.now.counts card.now.k checks) }
    ensures { result ≡ decide_by_all card.now.counts card.now.checks (held ∷ replicate 7 0) card.now.k 1 }
{
    if let Some(checks) = least {
        if 2 * held.count_ones() <= checks {
            return 0;
        }
    }
    sorted.decide(&card.counts, held, card.k)
}

// How far the frames are handed out: the frame that is next, and the word with the frame m later taken in, if there is one.
#[derive(Clone, Copy)]
struct Reached {
    word: u64,
    u: usize,
}

// While no syndrome is 1 there is no vote: the frames are handed out as they came, up to the end of the input or to a frame that has to be voted on.
// Its sizes are numbers: those of a card that is lent would be read anew in every turn, which costs a fifth.
fn hand_through(
    puts: &[u64; 32],
    k: usize,
    m: usize,
    before: u64,
    from: usize,
    input: &[u8],
    output: &mut [u8],
) -> Reached
    requires sizes { (k ≤ 4) × (m ≤ 31) }
    requires frames { from + m ≤ length input.now }
    requires room { length input.now ≤ length output.old + m }
    requires within { AllWithin (k + 1) input.now }
    ensures stops { (from ≤ result.u) × (result.u ≤ length input.now - m) }
    ensures through { (c : Card) (output₀ : List ℕ) → OneParity c puts.now → k ≡ c.k → m ≡ c.m → length output₀ ≡ length output.old
        → Handing c input.now output₀ from (in_one c.m before) output.old → Through c puts.now input.now output₀ result.word result.u output.new }
{
    let end = input.len() - m;
    let mut word = before;
    for u in from..end {
        word = taken_in(word, puts, input[u + m]);
        if syndromes(word, m) != 0 {
            return Reached { word, u };
        }
        output[u] = corrected(input[u], k, 0);
    }
    Reached { word, u: end }
}

// A whole burst of m frames or more: each but the last m is handed out, with its errors corrected and fed back once the frame m later is taken in.
pub(crate) fn receive(card: &Card, input: &[u8], output: &mut [u8])
    requires guaranteed { Guarantees card.now }
    requires one { card.now.p ≡ 1 }
    requires frames { card.now.m ≤ length input.now }
    requires room { length input.now ≤ length output.old + card.now.m }
    requires within { AllWithin (card.now.k + 1) input.now }
    ensures { output.new ≡ decoded card.now input.now ++ drop (length input.now - card.now.m) output.old }
{
    let k = card.k;
    let m = card.m;
    let puts = puts(&stream_sums(&card.generators, k, 0), k, m);
    let sorted_checks = sorted(&card.counts, &card.checks, k);
    let least = least_checks(&card.counts, &sorted_checks.left, k);
    let end = input.len() - m;
    let first = filled(card, &puts, input);
    let mut reached = hand_through(&puts, k, m, first, 0, input, output);
    while reached.u < end {
        let errors = voted(card, &sorted_checks, least, syndromes(reached.word, m));
        output[reached.u] = corrected(input[reached.u], k, errors);
        let word = fed_back(reached.word, &puts, m, errors);
        reached = hand_through(&puts, k, m, word, reached.u + 1, input, output);
    }
}
