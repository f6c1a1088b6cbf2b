// The registers of the burst receiver. There is no history: each information digit adds its generators to what the parity digits to come will
// be. With a frame taken in, bit a of syndrome register j is the syndrome of the frame m - a before it, the decided errors taken out, and bit a
// of coming register j is the part that the digits so far have in the parity digit of the frame a + 1 after it.
ghost use Rattle.std.specs.Prelude.{◌≡◌, ℕ, ◌+◌, ◌%◌, ◌^◌, ◌<◌, ◌≤◌, get_or};
ghost use Rattle.burst.specs.Sums.{HasSums, HasStreamSums};
ghost use Rattle.burst.specs.Registers.{TakenIn, written, taken_out, Corrected, NoneFrom, corrected_by};

use code::CHECK_WORDS;

// Streams 1 to k of a frame.
pub(crate) fn information(frame: u8, k: usize) -> u32
    requires { k ≤ 4 }
    ensures { (result ≡ frame % 2 ^ k) × (result < 16) }
{
    u32::from(frame) % (1 << k)
}

// A frame's information with the decided errors added.
pub(crate) fn corrected(frame: u8, k: usize, errors: u32) -> u8
    requires { (k ≤ 4) × (errors < 16) }
    ensures { result ≡ corrected_by frame k errors }
{
    (information(frame, k) ^ errors) as u8
}

// The sum of the generators of each x of k digits on parity stream j, at x. Only what the card states is worked out, since a short burst has to
// wait for it.
pub(crate) fn stream_sums(generators: &[u32; 32], k: usize, j: usize) -> [u32; 16]
    requires { k ≤ 4 }
    ensures { HasStreamSums generators.now k j (2 ^ k) result }
{
    let mut sums = [0u32; 16];
    for x in 0..1u32 << k {
        sums[x as usize] = code::generator_sum(generators, k, x, j);
    }
    sums
}

// The same of each of p parity streams.
pub(crate) fn generator_sums(generators: &[u32; 32], k: usize, p: usize) -> [[u32; 16]; 8]
    requires { (k ≤ 4) × (p ≤ 8) }
    ensures { HasSums generators.now k p (2 ^ k) result }
{
    let mut sums = [[0u32; 16]; 8];
    for j in 0..p {
        sums[j] = stream_sums(generators, k, j);
    }
    sums
}

// Two arrays: the vote takes the syndromes as they stand.
#[derive(Clone, Copy)]
pub(crate) struct Registers {
    pub coming: [u32; 8],
    pub syndromes: [u32; 8],
}

impl Registers {
    // The frame taken in: every register a place further, and the frame's syndromes put in at place m. What is handed back is zero only if no
    // syndrome held is 1.
    pub(crate) fn take_in(
        &mut self,
        sums: &[[u32; 16]; 8],
        k: usize,
        p: usize,
        m: usize,
        frame: u8,
    ) -> u32
        requires { (k ≤ 4) × (k + p ≤ 8) × (m ≤ 31) }
        ensures { TakenIn sums.now k p m frame self.old self.new result }
    {
        let info = information(frame, k) as usize;
        let parities = u32::from(frame) >> k;
        let mut held: u32 = 0;
        for j in 0..p {
            let parity = self.coming[j] ^ sums[j][info];
            let syndrome = (parity ^ parities >> j) % 2;
            let register = self.syndromes[j] >> 1 ^ syndrome << m;
            self.coming[j] = parity >> 1;
            self.syndromes[j] = register;
            held |= register;
        }
        held
    }

    // Errors fed back: their generators taken out of the syndromes.
    fn take_out(&mut self, sums: &[[u32; 16]; 8], p: usize, errors: u32)
        requires { (p ≤ 8) × (errors < 16) }
        ensures { self.new ≡ record self.old { syndromes = written p (taken_out sums.now self.old.syndromes errors) self.old.syndromes } }
    {
        for j in 0..p {
            self.syndromes[j] ^= sums[j][errors as usize];
        }
    }

    // The errors of the frame m before the last one taken in, decided and fed back. While no syndrome held is 1 there is no vote. All eight registers
    // vote: a number that the compiler knows is faster than p, and those from the p-th on have no 1.
    pub(crate) fn correct(
        &mut self,
        held: u32,
        sums: &[[u32; 16]; 8],
        counts: &[u32; 4],
        checks: &[u32; CHECK_WORDS],
        k: usize,
        p: usize,
    ) -> u32
        requires p_most { p ≤ 8 }
        requires none_held { held ≡ 0 → (j : ℕ) → j < p → get_or self.old.syndromes j 0 ≡ 0 }
        requires none_beyond { NoneFrom p self.old.syndromes }
        ensures { Corrected sums.now counts.now checks.now k p self.old self.new result }
    {
        if held == 0 {
            return 0;
        }
        let errors = vote::decide_all(counts, checks, &self.syndromes, k, 8);
        if errors != 0 {
            self.take_out(sums, p, errors);
        }
        errors
    }
}
