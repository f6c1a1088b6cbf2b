// Audits of stored cards: a line for each file that holds no good card, and at the end the count of those that do.
ghost use Rattle.outcomes.specs.Listing.{line_of_end};
ghost use Rattle.listing.specs.AtFront.{AtFront};
ghost use Rattle.listing.specs.Auditing.{audit_room, bytes_of, Audits};
ghost use Rattle.listing.specs.Stored.{Passes};

use crate::stored::Why;
use crate::{lines, stored};
use card::CardRule;
use outcomes::cursor::Cursor;

// No name is longer: Linux hands a program no argument of so many bytes.
pub const MOST_NAME: usize = 131072;

// No line is longer: a name, a space, and the line of a refusal, which has at most 36 bytes.
pub const AUDIT_ROOM: usize = MOST_NAME + 1 + 36;

// Whether a file passes, or why not. What came of one that could not be read to its end is no card, whatever bytes it has.
fn pass(file: Result<&[u8], &[u8]>) -> Result<(), Why>
    ensures { Passes (bytes_of file.entry) result }
{
    let Ok(bytes) = file else {
        return Err(Why::NotRead);
    };
    stored::read(CardRule::Present, bytes)?;
    Ok(())
}

// A file, by the bytes that came of it: `Ok` if it was read to its end, `Err` if not. Its name, of this size, stands at the front of the output: if it does not
// pass, its line is there afterwards, and the answer is the count of the line's bytes.
pub fn audit(
    file: Result<&[u8], &[u8]>,
    output: &mut [u8; AUDIT_ROOM],
    size: usize,
) -> Option<usize>
    ensures { Audits (bytes_of file.entry) output.old size result output.new }
{
    let Err(why) = pass(file) else {
        return None;
    };
    let mut cursor = Cursor {
        output,
        at: size.min(MOST_NAME),
    };
    cursor.put(b' ');
    stored::tell(&mut cursor, why);
    Some(cursor.at)
}

// The last line: the count of those that pass.
pub fn end(output: &mut [u8; AUDIT_ROOM], passed: usize) -> usize
    ensures { AtFront audit_room (line_of_end passed) output.old result output.new }
{
    let mut cursor = Cursor::new(output);
    lines::end_line(&mut cursor, passed);
    cursor.at
}
