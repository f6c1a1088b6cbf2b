// What is read off the registers of a session. Digit a of syndrome register j is the syndrome of parity stream j at time u + a, where the frame of
// time u is decided next, with the errors decided before u taken out.
ghost use Rattle.std.specs.Prelude.{◌≡◌, ◌≤◌};
ghost use Rattle.decoder.specs.Held.{corrected_by, ones_by};

// The frame of the digits m back in the history registers, each plus its decided error.
pub(crate) fn corrected(history: &[u32; 4], errors: u32, k: usize, m: usize) -> u8
    requires { k ≤ 4 }
    ensures { result ≡ corrected_by history.now errors k m }
{
    let mut frame: u32 = 0;
    for (i, register) in history[..k].iter().enumerate() {
        let received = bits::digit(*register, m);
        frame += bits::shift_up((received + bits::digit(errors, i)) % 2, i);
    }
    frame as u8
}

// The ones of the first p registers.
pub(crate) fn ones(syndromes: &[u32; 8], p: usize) -> u32
    requires { p ≤ 8 }
    ensures { result ≡ ones_by syndromes.now p }
{
    syndromes[..p].iter().map(|word| word.count_ones()).sum()
}
