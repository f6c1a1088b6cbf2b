// The cases of readings: document 01, "Readings and bursts", and the refusal 12; document 02, R-6, erased digits, and R-7, the band around zero.
use crate::{decoding, drafts, lines, tables};
use receiving::Reading;
use std::io;

// The level that a small letter of a row, or a sign, stands for: one, half, a quarter, the next ones above and below a quarter, the largest
// subnormal, the smallest above zero, zero, the largest, not a number, infinity. A dash, as any other byte, is minus one.
fn small_letter(letter: u8) -> f32 {
    match letter {
        b'+' => 1.0,
        b'h' => 0.5,
        b'q' => 0.25,
        b'a' => 0.25000003,
        b'b' => 0.24999999,
        b'd' => 1.1754942e-38,
        b's' => 1.0e-45,
        b'o' => 0.0,
        b'l' => 3.4028235e38,
        b'n' => 0.0f32 / 0.0f32,
        b'i' => 1.0f32 / 0.0f32,
        _ => -1.0,
    }
}

// A capital is minus its small letter.
fn level(letter: u8) -> f32 {
    match letter {
        b'A'..=b'Z' => -small_letter(letter - b'A' + b'a'),
        _ => small_letter(letter),
    }
}

fn reading(letter: u8) -> Reading {
    match letter {
        b'e' => Reading::Erased,
        _ => Reading::Level(level(letter)),
    }
}

// Eight readings by their letters; those after the third are alike.
fn lettered(first: u8, second: u8, third: u8, other: u8) -> [Reading; 8] {
    [first, second, third, other, other, other, other, other].map(reading)
}

// The frame that a letter of a session's row stands for. An `e` has its first digit erased and 1 as its second, a `p` has 1 as its first and
// its second erased, and a capital has 0 for the 1; an `x` is a lost frame, all of it erased. Any other letter is a level, and 1 after it.
pub(crate) fn frame(letter: u8) -> [Reading; 8] {
    match letter {
        b'E' => lettered(b'e', b'-', b'-', b'-'),
        b'p' => lettered(b'+', b'e', b'-', b'-'),
        b'P' => lettered(b'-', b'e', b'-', b'-'),
        b'x' => lettered(b'e', b'e', b'e', b'e'),
        _ => lettered(letter, b'+', b'-', b'-'),
    }
}

// What a row feeds are the letters of the first reading, of the third and of those after it; the second is one. The card has no memory.
fn row(rt: &impl Print, fed: &[u8]) -> io::Result<()> {
    let [first, third, other] = fed else {
        return Ok(());
    };
    let mut session = lines::session(rt, decoder::open(drafts::named(b'M').front()))?;
    let number = session.card.number;
    let readings = lettered(*first, b'+', *third, *other);
    lines::answer(rt, session.receive_readings(number, readings))?;
    rt.write_all(b"\n")
}

// With the digits d, 1 and 0 one of the two checks is 1, so that d is handed out, and 0 if it is erased. The third reading is the last of three
// streams.
pub(crate) fn digits(rt: &impl Print) -> io::Result<()> {
    tables::each(
        rt,
        b"m 0 reads 0.5, 1, -1|h--;\
          m 0 reads -0.5, 1, -1|H--;\
          m 0 reads erased, 1, -1|e--;\
          m 0 reads the largest level, 1, -1|l--;\
          m 0 reads NaN, 1, -1|n--;\
          m 0 reads infinity, 1, -1|i--;\
          m 0 reads minus infinity, 1, -1|I--;\
          m 0 reads 0.5, 1, NaN|hn-;\
          m 0 reads 0.5, 1, -1, then NaN|h-n;",
        |fed| row(rt, fed),
    )
}

// The second frame has the level as its information digit, and 1 after it. The first three rows tell apart what it may be: erased, 1 and 0. Of the
// others 0.24999999 and 0.25000003 are the neighbours of 0.25, and the last four the least and the largest subnormal.
pub(crate) fn band(rt: &impl Print) -> io::Result<()> {
    decoding::rows(
        rt,
        b"P receives 1, erased and 1, 0|P\x01e\x00;\
          P receives 1, 3, 0|P\x01\x03\x00;\
          P receives 1, 2, 0|P\x01\x02\x00;\
          P receives 1, 0.25 and 1, 0|P\x01q\x00;\
          P receives 1, 0.24999999 and 1, 0|P\x01b\x00;\
          P receives 1, 0.25000003 and 1, 0|P\x01a\x00;\
          P receives 1, -0.25 and 1, 0|P\x01Q\x00;\
          P receives 1, -0.24999999 and 1, 0|P\x01B\x00;\
          P receives 1, -0.25000003 and 1, 0|P\x01A\x00;\
          P receives 1, 0.0 and 1, 0|P\x01o\x00;\
          P receives 1, -0.0 and 1, 0|P\x01O\x00;\
          P receives 1, 1.0e-45 and 1, 0|P\x01s\x00;\
          P receives 1, -1.0e-45 and 1, 0|P\x01S\x00;\
          P receives 1, 1.1754942e-38 and 1, 0|P\x01d\x00;\
          P receives 1, -1.1754942e-38 and 1, 0|P\x01D\x00;",
    )
}

// Q sends 1 as 3, 2, 0, 2; P sends 1, 1, 0 as 3, 1, 2, 0, and 1, 0, 1 as 3, 2, 3, 2; T sends 3 as 3, 4, 4. A digit besides may be wrong. A row
// with nothing erased has the frames of the one before it as bytes, 0 for a lost one. T's s0 votes on stream 2, whose own digit is erased, and not
// on stream 1: with votes on both, its second row would give 0, and with none 3.
pub(crate) fn erasures(rt: &impl Print) -> io::Result<()> {
    decoding::rows(
        rt,
        b"Q receives 1, a lost frame, 0, 2|Q\x01x\x00\x02;\
          Q receives 1, 0, 0, 2|Q\x01\x00\x00\x02;\
          Q receives 2, 2, 0, 0, the first information digit erased|Qe\x02\x00\x00;\
          Q receives 1, 0, 0, 0, all parity digits but the third erased, so that J is 0|QpP\x00P;\
          Q receives 1, 0, 0, 0|Q\x01\x00\x00\x00;\
          P receives 2, 0, 2, 0, every information digit erased|PeEeE;\
          P receives 1, 1, 0, 0, every parity digit erased|PppPP;\
          P receives 1, 0, 1, 0, every parity digit erased|PpPpP;\
          P receives four lost frames|Pxxxx;\
          P receives a lost frame, 1, 0|Px\x01\x00;\
          P receives 0, 1, 0|P\x00\x01\x00;\
          T receives 1, 4, 4, the first digit of stream 2 erased|Tp\x04\x04;\
          T receives 0, 4, 4, the first digit of stream 2 erased|TP\x04\x04;\
          P receives 2, 0, 2, 0, every information digit erased, with the figure|PfefEfefEf;",
    )
}
