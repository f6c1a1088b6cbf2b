// The work on the registers of a session. Digit a of received register s is the digit of stream s at time u + a, where the frame of time u is decided
// next; digit 31 of decided register i is information digit i at u - 1, and those below it are of the times before. A vote sees the two as one
// register, in which the digits move down past time u and become decided ones there.
ghost use Rattle.std.specs.Prelude.{◌≡◌, ◌≤◌, ◌<◌};
ghost use Rattle.digit_decoder.specs.Held.{share_by, sum_by, sums_by, others_by, majority_digit, decide_frame_by, with_decided};

use std::cmp::Ordering;

// What the digits of an information stream add to the sums of a parity stream, digit a to that of time u + a: for each term of the generator both
// registers, moved by it.
fn share(generator: u32, received: u32, decided: u32) -> u32
    ensures { result ≡ share_by generator received decided }
{
    let mut sum: u32 = 0;
    for l in 0..32 - generator.leading_zeros() as usize {
        let moved = bits::shift_up(received, l) ^ bits::shift_down(decided, 32 - l);
        sum ^= moved * bits::digit(generator, l);
    }
    sum
}

// The sums of parity stream j, digit a for time u + a: its received digit, and the information digits that enter its parity.
fn sum(generators: &[u32], received: &[u32; 8], decided: &[u32; 4], k: usize, j: usize) -> u32
    requires { (k ≤ 4) × (j < 8) }
    ensures { result ≡ sum_by generators.now received.now decided.now k j }
{
    let mut sum: u32 = 0;
    for s in 0..k {
        sum ^= share(code::generator(generators, s, j), received[s], decided[s]);
    }
    bits::word(received, k + j) ^ sum
}

// The sums of every parity stream. This loop and that of `others` fill p words each: a function that took what to fill them with would be no plainer.
fn sums(generators: &[u32], received: &[u32; 8], decided: &[u32; 4], k: usize, p: usize) -> [u32; 8]
    requires { (k ≤ 4) × (p ≤ 8) }
    ensures { result ≡ sums_by generators.now received.now decided.now k p }
{
    let mut next = [0u32; 8];
    for j in 0..p {
        next[j] = sum(generators, received, decided, k, j);
    }
    next
}

// The sums without the digit of stream i at time u, which is `own`.
fn others(sums: &[u32; 8], generators: &[u32], own: u32, i: usize, p: usize) -> [u32; 8]
    requires { (own < 2) × (p ≤ 8) }
    ensures { result ≡ others_by sums.now generators.now own i p }
{
    let mut next = [0u32; 8];
    for j in 0..p {
        next[j] = sums[j] ^ code::generator(generators, i, j) * own;
    }
    next
}

// The majority of the checks that vote; a tie goes to the received digit.
#[tactic(auto, unfolding(crate::specs::Held::majority_digit))]
fn digit(voting: u32, ones: u32, own: u32) -> u32
    ensures { result ≡ majority_digit voting ones own }
{
    match (2 * ones.count_ones()).cmp(&voting.count_ones()) {
        Ordering::Greater => 1,
        Ordering::Less => 0,
        Ordering::Equal => own,
    }
}

// The frame of time u as it is decided, digit i for stream i. All votes are on received digits of that frame: no stream sees what is decided for another.
pub(crate) fn decide<'a>(
    generators: &'a [u32],
    checks: &'a [u32],
    voters: &[u32; 4],
    received: &[u32; 8],
    decided: &[u32; 4],
    k: usize,
    p: usize,
) -> u32
    requires { (k ≤ 4) × (p ≤ 8) }
    ensures { result ≡ decide_frame_by generators.now checks.now voters.now received.now decided.now k p }
{
    let all = sums(generators, received, decided, k, p);
    let mut frame: u32 = 0;
    for i in 0..k {
        let own = bits::digit(received[i], 0);
        let words = others(&all, generators, own, i, p);
        let voting = voters[i];
        let ones = vote::stream_ones(checks, i, voting, &words, p);
        frame += bits::shift_up(digit(voting, ones, own), i);
    }
    frame
}

// The digits of a decided frame, put at the upper end of the decided registers; the oldest digits leave them.
pub(crate) fn put_decided(registers: &mut [u32; 4], frame: u32)
    ensures { registers.new ≡ with_decided registers.old frame }
{
    for (i, register) in registers.iter_mut().enumerate() {
        *register = (*register >> 1) ^ bits::shift_up(bits::digit(frame, i), 31);
    }
}
