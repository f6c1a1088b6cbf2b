// The cases at the limit of 1,048,576 frames: the refusal 15 and its place in the orders. These lines come last: no others make a million
// calls, and `rt try` gives up on them, so that with `limits::cases()` left out it still tries the rest.
ghost use Rattle.std.specs.Prelude.{◌≡◌, ◌≤◌, length};

use crate::{bursts, decoding, drafts, sending, tables};
use burst::receive::burst_receive;
use burst::send::burst_send;
use code::MOST_FRAMES;
use std::io;

pub(crate) fn cases(rt: &impl Print) -> io::Result<()> {
    sending_sessions(rt)?;
    receiving_session(rt)?;
    sent_bursts(rt)?;
    received_bursts(rt)
}

// A count of frames by the sign that a row has for it: as many as a stream may have, two fewer, one fewer, or one more.
pub(crate) fn count(sign: u8) -> usize
    ensures { result ≤ TOO_MANY }
{
    match sign {
        b'_' => MOST_FRAMES - 2,
        b'-' => MOST_FRAMES - 1,
        b'+' => TOO_MANY,
        _ => MOST_FRAMES,
    }
}

// Room for the tail is kept; 16 comes before 15, and 15 before 11.
fn sending_sessions(rt: &impl Print) -> io::Result<()> {
    sending::rows(
        rt,
        b"P sends 1 for 1048575 times, then 1, 2, two tail frames and 1|P-\x01\x02tt\x01;\
          m 0 sends 1 for 1048576 times, then 1, 2 and a tail frame|M=\x01\x02t;\
          m 2 sends 1 for 1048575 times, then 8, three tail frames and 8|W-\x08ttt\x08;",
    )
}

// 14 comes before 15, and 15 before 11 and 12.
fn receiving_session(rt: &impl Print) -> io::Result<()> {
    decoding::rows(
        rt,
        b"P receives 0 for 1048576 times, then 0, 4 and NaN, then 0 under card number 8|P=\x00\x04n 8 \x00;\
          card number 200 receives 0 for 1048576 times, then 63, 64 and NaN, then 0 under card number 8|W=\x3f\x40n 8 \x00;",
    )
}

// One frame more than a stream may have.
const TOO_MANY: usize = MOST_FRAMES + 1;

// Bytes all alike.
fn alike<const N: usize>(byte: u8) -> [u8; N]
    ensures { length result ≡ N }
{
    [byte; N]
}

// What a row feeds is the letter of a card, the sign of a count, and the frame that is given so many times.
fn row<F: Fn(&[u8], &[u8], &mut [u8]) -> i32>(
    rt: &impl Print,
    call: F,
    fed: &[u8],
) -> io::Result<()>
    requires { F.IsAlwaysCallable call }
{
    let [letter, sign, frame] = fed else {
        return Ok(());
    };
    let frames = alike::<TOO_MANY>(*frame);
    let mut output = alike::<MOST_FRAMES>(bursts::BEFORE);
    let card = drafts::named(*letter);
    bursts::answer(rt, call(card.front(), &frames[..count(*sign)], &mut output))?;
    rt.write_all(b"\n")
}

// Information and tail together; 15 comes before 13.
fn sent_bursts(rt: &impl Print) -> io::Result<()> {
    tables::each(
        rt,
        b"P sends a burst of 1048575 frames|P-\x01;\
          P sends a burst of 1048576 frames|P=\x01;\
          m 0 sends a burst of 1048576 frames|M=\x01;\
          m 0 sends a burst of 1048577 frames|M+\x01;\
          m 2 sends a burst of 1048574 frames|W_\x01;\
          m 2 sends a burst of 1048575 frames|W-\x01;",
        |fed| row(rt, burst_send, fed),
    )
}

// 15 comes before 13.
fn received_bursts(rt: &impl Print) -> io::Result<()> {
    tables::each(
        rt,
        b"P receives a burst of 1048576 frames|P=\x00;\
          P receives a burst of 1048577 frames|P+\x00;\
          m 0 receives a burst of 1048576 frames|M=\x00;\
          m 0 receives a burst of 1048577 frames|M+\x00;\
          m 2 receives a burst of 1048576 frames|W=\x00;\
          m 2 receives a burst of 1048577 frames|W+\x00;",
        |fed| row(rt, burst_receive, fed),
    )
}
