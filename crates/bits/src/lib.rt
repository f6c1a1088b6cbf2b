// Digits of 32-bit words. Every function is total: beyond a word or a table there are zeros.
#![tactic(auto)]

ghost use Rattle.std.specs.Prelude.{◌≡◌, ◌/◌, ◌^◌, ◌<◌, get_or, leb};
ghost use Rattle.bits.specs.Digits.{bit, shift_up, any_beyond};

// Digit a of x.
pub fn digit(x: u32, a: usize) -> u32
    ensures { result ≡ bit x a }
{
    shift_down(x, a) % 2
}

// x moved up by a places, what leaves the word lost.
pub fn shift_up(x: u32, a: usize) -> u32
    ensures { result ≡ shift_up x a }
{
    if a < 32 { x << a } else { 0 }
}

// x moved down by a places, what leaves the word lost.
pub fn shift_down(x: u32, a: usize) -> u32
    ensures { result ≡ x / 2 ^ a }
{
    if a < 32 { x >> a } else { 0 }
}

// Word i of a table, zero beyond it.
pub fn word(table: &[u32], i: usize) -> u32
    ensures { result ≡ get_or table.now i 0 }
{
    table.get(i).copied().unwrap_or(0)
}

// Whether a frame has a digit at stream n or beyond.
pub fn beyond(frame: u8, n: usize) -> bool
    ensures { result ≡ leb (2 ^ n) frame }
{
    n < 8 && 0 < frame >> n
}

// Whether some frame has a digit at stream n or beyond.
pub fn any_beyond(frames: &[u8], n: usize) -> bool
    ensures { result ≡ any_beyond n frames.now }
{
    // An or over all frames, and no branch in the loop: in a burst that is taken every frame has to be looked at anyway.
    beyond(frames.iter().fold(0, |all, frame| all | frame), n)
}
