// What the programs share: reading into a lent buffer, as far as the input and the buffer go, and a word where what they write is not written.
#![tactic(auto)]

ghost use Rattle.std.specs.Prelude.{◌<◌, ◌≤◌, IfOk, IsOk, IsTrue, length, take};
ghost use Rattle.std.specs.Io.KnownBytes.{Consumes, IsAtEnd};
ghost use Rattle.filling.specs.Came.{came};

use std::io;
use std::io::Read;

// Reads until the input ends or the buffer is full: how many bytes came. They stand at the buffer's front. A read that fails is no end: `Err` has how many
// came before it. Where it is known what the input has left, it is these bytes that are taken from it.
pub fn fill<R: Read>(input: &mut R, buffer: &mut [u8]) -> Result<usize, usize>
    ensures within { came result ≤ length buffer.new }
    ensures taken { Consumes (R.remaining input.old) (R.remaining input.new) (take (came result) buffer.new) }
    ensures end { IfOk result (λ n. n < length buffer.new → IsAtEnd (R.remaining input.new)) }
{
    let mut at = 0;
    // It goes on by as many as a read gives, which no range or iterator counts.
    while at < buffer.len() {
        match input.read(&mut buffer[at..]) {
            Err(_) => return Err(at),
            Ok(0) => return Ok(at),
            Ok(more) => at += more,
        }
    }
    Ok(at)
}

// What became of what a program writes. Its status does not tell, so standard error alone can tell that it is not whole.
pub fn tell_unless(rt: &impl Eprint, whole: bool, words: &str) -> io::Result<()>
    ensures { IsTrue whole → IsOk result }
{
    if whole { Ok(()) } else { rt.eprint(words) }
}
