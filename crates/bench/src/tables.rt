// The tables of cases. A row is its name, with which its line begins, a bar, the bytes that it feeds, and a semicolon; neither of the two
// stands in a name or is fed. A card is fed by its letter: `drafts::named` has them.
//
// A table is one byte string, for one loop to walk: a call for each row, with a byte string for its name, is dear to check.
use std::io;

// Writes the name of each row, and does with what it feeds what the rows of the table are about.
pub(crate) fn each<F: Fn(&[u8]) -> io::Result<()>>(
    rt: &impl Print,
    table: &[u8],
    row: F,
) -> io::Result<()>
    requires { F.IsAlwaysCallable row }
{
    for line in table.split(|&byte| byte == b';') {
        // After the last semicolon there is no bar.
        if let Some(bar) = line.iter().position(|&byte| byte == b'|') {
            rt.write_all(&line[..bar])?;
            row(&line[bar + 1..])?;
        }
    }
    Ok(())
}
