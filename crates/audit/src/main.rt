// Audits stored cards: files by name as arguments, a line to standard output for each that holds no good card, and last the count of those that do.
#![tactic(auto)]

ghost use Rattle.std.specs.Prelude.{◌≤◌, length, IfSome};
ghost use Rattle.filling.specs.Came.{came};

use listing::auditing;
use listing::auditing::AUDIT_ROOM;
use outcomes::MOST_CARD_BYTES;
use std::env::FillError;
use std::io::{Read, Seek, SeekFrom};
use std::rt::{Env, Files};
use std::{fs, str};

// As much of a file as decides: one byte more than the longest that is read as a card (`by_the_front` in the promise of `audit`).
const FRONT: usize = MOST_CARD_BYTES + 1;

// Goes to a place of the file: how far from its start that is, if it can be asked for.
fn place(file: &mut impl Seek, at: SeekFrom) -> Option<u64> {
    file.seek(at).ok()
}

// Reads an open file: how many bytes came. It has to end where it ended before the reading, and the reading there too unless the buffer is full: otherwise it
// was changed meanwhile, and `Err` has how many came, as where a read fails. Where a pipe ends can't be asked for: there is no answer, and that tells nothing.
fn read_open(file: &mut (impl Read + Seek), buffer: &mut [u8]) -> Result<usize, usize>
    ensures { came result ≤ length buffer.new }
{
    let before = place(file, SeekFrom::End(0));
    place(file, SeekFrom::Start(0));
    let read = filling::fill(file, buffer);
    let here = place(file, SeekFrom::Current(0));
    let after = place(file, SeekFrom::End(0));
    let length = read?;
    let stayed = before == after && (here == after || length == buffer.len());
    if before.is_none() || stayed {
        Ok(length)
    } else {
        Err(length)
    }
}

// Reads the file whose name, of this size, stands at the front of the bytes. A name that is not UTF-8 can't be given to the library, and no byte comes of it.
fn read_file(rt: &impl Files, named: &[u8], size: usize, buffer: &mut [u8]) -> Result<usize, usize>
    requires { size ≤ length named.now }
    ensures { came result ≤ length buffer.new }
{
    let Ok(name) = str::from_utf8(&named[..size]) else {
        return Err(0);
    };
    let Ok(mut file) = fs::open(rt, name) else {
        return Err(0);
    };
    read_open(&mut file, buffer)
}

// How many arguments there are, the program's own name among them.
fn argument_count(rt: &impl Env) -> usize {
    for i in 0..usize::MAX {
        if let Err(FillError::NotPresent) = rt.arg(i, &mut []) {
            return i;
        }
    }
    usize::MAX
}

// What becomes of the file that an argument names: where it does not pass, its line is at the front of the output.
fn audit_argument(rt: &(impl Env + Files), i: usize, output: &mut [u8; AUDIT_ROOM]) -> Option<usize>
    ensures { IfSome result (λ count. count ≤ length output.new) }
{
    // An argument that can't be had has an empty name, which no file has.
    let size = rt.arg(i, output).unwrap_or(0);
    let mut buffer = [0u8; FRONT];
    let file = match read_file(rt, output, size, &mut buffer) {
        Ok(length) => Ok(&buffer[..length]),
        Err(length) => Err(&buffer[..length]),
    };
    auditing::audit(file, output, size)
}

fn main(rt: HostRuntime) {
    let mut output = [0u8; AUDIT_ROOM];
    let mut whole = true;
    let mut passed = 0;
    // the first is the program's own name
    for i in 1..argument_count(&rt) {
        match audit_argument(&rt, i, &mut output) {
            Some(count) => whole = rt.write_all(&output[..count]).is_ok() && whole,
            None => passed += 1,
        }
    }
    let count = auditing::end(&mut output, passed);
    whole = rt.write_all(&output[..count]).is_ok() && whole;
    let _ = filling::tell_unless(&rt, whole, "audit: the lines could not be written\n");
}
