// Text laid out by a cursor. It is not printed by `write!`: the promises of `list`, `audit` and `rewrite` say the bytes.
ghost use Rattle.std.specs.Prelude.{◌≡◌, [], ◌∷◌, ◌++◌, ◌/◌, ◌%◌, ◌<◌};
ghost use Rattle.outcomes.specs.Text.{decimal, glyph};
ghost use Rattle.outcomes.specs.Wrote.{Stored};

use outcomes::cursor::Cursor;

// The byte of a decimal digit.
pub(crate) fn glyph(digit: usize) -> u8
    requires { digit < 10 }
    ensures { result ≡ glyph digit }
{
    b'0' + digit as u8
}

// Two digits of a number.
fn pair(cursor: &mut Cursor<'_>, n: usize)
    requires { n < 100 }
    ensures { Stored cursor.old cursor.new (glyph (n / 10) ∷ glyph (n % 10) ∷ []) }
{
    cursor.put_all(&[glyph(n / 10), glyph(n % 10)]);
}

// A number in decimal: what stands before its last two digits, and these. By two, since a listing has a number in every line, and each call costs as much
// as the digits.
pub(crate) fn number(cursor: &mut Cursor<'_>, n: usize)
    ensures { Stored cursor.old cursor.new (decimal n) }
{
    if n < 10 {
        cursor.put(glyph(n));
        return;
    }
    if n < 100 {
        pair(cursor, n);
        return;
    }
    number(cursor, n / 100);
    pair(cursor, n % 100);
}

// A word, and a number after it.
pub(crate) fn numbered(cursor: &mut Cursor<'_>, word: &[u8], n: usize)
    ensures { Stored cursor.old cursor.new (word.now ++ decimal n) }
{
    cursor.put_all(word);
    number(cursor, n);
}
