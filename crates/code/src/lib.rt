// The code and the checks that a card names, and the code by registers: bit a of history register i is information digit i of the frame a before
// the last one taken.
#![tactic(auto)]

pub mod erased;

ghost use Rattle.std.specs.Prelude.{◌≡◌, ◌<◌};
ghost use Rattle.code.specs.Registers.{generator_mask, generator_sum, shift_in, history_by, parity_by, frame_by, syndromes_by, feedback_by, with_digits, with_words, moved_on};
ghost use Rattle.code.specs.Sizes.{sizes_of};

// A stream has at most this many frames, the tail included.
pub const MOST_FRAMES: usize = 1048576;

// J, the number of checks of a stream, is at most this. A check has a mask for each of eight parity streams: that many words lie between the checks of a
// stream and those of the next, and those of all four streams take so many.
pub const MOST_CHECKS: usize = 10;

pub const CHECK_STRIDE: usize = MOST_CHECKS * 8;

pub const CHECK_WORDS: usize = CHECK_STRIDE * 4;

// What a card states; what it does not state is zero, so equal cards are equal values.
// Tables of fixed strides with their counts beside them, so that a card is a value and needs no heap.
#[derive(Clone, Copy)]
pub struct Card {
    pub number: u8,
    pub k: usize, // information streams
    pub p: usize, // parity streams, n - k
    pub m: usize, // memory
    pub generators: [u32; 32], // information stream i, parity stream j, at i * 8 + j
    pub counts: [u32; 4], // J of information stream i
    pub checks: [u32; CHECK_WORDS], // information stream i, check q, parity stream j, at i * CHECK_STRIDE + q * 8 + j
}

// k, p, n = k + p and m of a card.
#[derive(Clone, Copy)]
pub struct Sizes {
    pub k: usize,
    pub p: usize,
    pub n: usize,
    pub m: usize,
}

// The sizes of a card, its streams held to what the tables have. Those of an accepted card are its own.
pub fn sizes_of(k: usize, p: usize, m: usize) -> Sizes
    ensures { result ≡ sizes_of k p m }
{
    let k = k.min(4);
    let p = p.min(8 - k);
    Sizes { k, p, n: k + p, m }
}

impl Card {
    pub fn sizes(&self) -> Sizes
        ensures { result ≡ sizes_of self.now.k self.now.p self.now.m }
    {
        sizes_of(self.k, self.p, self.m)
    }
}

// The generator of information stream i and parity stream j, zero beyond the table.
pub fn generator(generators: &[u32], i: usize, j: usize) -> u32
    ensures { result ≡ generator_mask generators.now i j }
{
    if i < 4 && j < 8 {
        bits::word(generators, i * 8 + j)
    } else {
        0
    }
}

// The generators, on parity stream j, of those of the k information streams that are in x, added up. Beyond the table there is nothing to add.
pub fn generator_sum(generators: &[u32], k: usize, x: u32, j: usize) -> u32
    ensures { result ≡ generator_sum generators.now k x j }
{
    // Like `parity`, a sum over streams, but its terms are taken or not: one function of both would take the terms as a closure, and be no plainer.
    let mut sum = 0;
    for i in 0..k {
        sum ^= generator(generators, i, j) * bits::digit(x, i);
    }
    sum
}

// The register with one digit more at its low end; its oldest digit leaves the word.
fn shifted_in(x: u32, digit: u32) -> u32
    requires { digit < 2 }
    ensures { result ≡ shift_in x digit }
{
    (x << 1) + digit
}

// The digit of parity stream j that the information digits in the registers give.
pub fn parity(generators: &[u32], registers: &[u32], k: usize, j: usize) -> u32
    ensures { result ≡ parity_by generators.now registers.now k j }
{
    let mut sum = 0u32;
    for i in 0..k.min(4) {
        sum ^= generator(generators, i, j) & bits::word(registers, i);
    }
    sum.count_ones() % 2
}

// The frame that is sent: the information digits of `info`, and after them the parity digits that the registers give, eight digits at most.
pub fn frame(generators: &[u32], registers: &[u32], k: usize, p: usize, info: u32) -> u32
    ensures { result ≡ frame_by generators.now registers.now k p info }
{
    let streams = k.min(4);
    let mut digits = info % (1 << streams);
    for j in 0..p.min(8 - streams) {
        digits += parity(generators, registers, k, j) << (streams + j);
    }
    digits
}

// The syndromes of a received frame that the registers have already, digit j for parity stream j: where it differs from the frame that is sent for its
// information digits.
pub fn syndromes(generators: &[u32], registers: &[u32], k: usize, p: usize, received: u32) -> u32
    ensures { result ≡ syndromes_by generators.now registers.now k p received }
{
    (received ^ frame(generators, registers, k, p, received)) >> k.min(4)
}

// What the errors of a frame changed in the syndromes of each parity stream, from its time on.
pub fn feedback(generators: &[u32], k: usize, p: usize, errors: u32) -> [u32; 8]
    ensures { result ≡ feedback_by generators.now k p errors }
{
    let mut changes = [0; 8];
    if errors == 0 {
        return changes;
    }
    // By index: after `iter_mut().take(n)` nothing is known of what was written. So too in `put_history`.
    for j in 0..p.min(8) {
        changes[j] = generator_sum(generators, k, errors, j);
    }
    changes
}

// ---- registers, changed in place. But for the history, which goes by k, every register is changed alike, whatever is looked at of it: loops of a length that
// the compiler knows become a few instructions on whole arrays, where a word stored by itself is slow to load again with its neighbours.

// The history registers of k information streams take one frame more.
pub fn put_history(registers: &mut [u32], k: usize, frame: u32)
    ensures { registers.new ≡ history_by registers.old k frame }
{
    for i in 0..k.min(registers.len()) {
        registers[i] = shifted_in(registers[i], bits::digit(frame, i));
    }
}

// The digits of a frame, added to the registers at a place.
pub fn put_digits(registers: &mut [u32], frame: u32, place: usize)
    ensures { registers.new ≡ with_digits registers.old frame place }
{
    for (s, register) in registers.iter_mut().enumerate() {
        *register ^= bits::shift_up(bits::digit(frame, s), place);
    }
}

// Words added to the registers, digit by digit.
pub fn add_words(registers: &mut [u32], words: &[u32; 8])
    ensures { registers.new ≡ with_words registers.old words.now }
{
    // No `zip` with the words: after it nothing is known of the registers.
    for (s, register) in registers.iter_mut().enumerate() {
        *register ^= bits::word(words, s);
    }
}

// Every register for the next frame, its digits a place further.
pub fn move_on(registers: &mut [u32])
    ensures { registers.new ≡ moved_on registers.old }
{
    for register in registers.iter_mut() {
        *register >>= 1;
    }
}
