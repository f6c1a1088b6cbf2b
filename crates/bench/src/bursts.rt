// Whole bursts: the line of one, whether it is sent or received.
use crate::drafts;
use std::io;

// What an output byte holds before a call; no frame of the bench is like it.
pub(crate) const BEFORE: u8 = 170;

// What the call answers: the count of output frames, or minus the refusal.
pub(crate) fn answer(rt: &impl Print, came: i32) -> io::Result<()> {
    if came < 0 {
        print!(rt; ": refused {}", came.unsigned_abs())
    } else {
        print!(rt; ": count {came}")
    }
}

// And every byte that was lent for the output.
fn bytes(rt: &impl Print, output: &[u8]) -> io::Result<()> {
    rt.write_all(b", bytes")?;
    for byte in output {
        print!(rt; " {byte}")?;
    }
    rt.write_all(b"\n")
}

// What a row feeds is the letter of a card, the room for output frames, eight at most, and the input frames.
pub(crate) fn row<F: Fn(&[u8], &[u8], &mut [u8]) -> i32>(
    rt: &impl Print,
    call: F,
    fed: &[u8],
) -> io::Result<()>
    requires { F.IsAlwaysCallable call }
{
    let [letter, room, input @ ..] = fed else {
        return Ok(());
    };
    let mut frames = [BEFORE; 8];
    let output = &mut frames[..usize::from(*room).min(8)];
    answer(rt, call(drafts::named(*letter).front(), input, output))?;
    bytes(rt, output)
}
