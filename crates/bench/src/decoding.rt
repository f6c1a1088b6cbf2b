// The cases of receiving: document 01, "Checks" and "Readings and bursts", and the refusals 11, 13 and 14 in their orders. Those of readings
// are in `levels`, those of 15 in `limits`.
use crate::lines::Tally;
use crate::{bursts, drafts, levels, lines, tables};
use burst::receive::burst_receive;
use code::MOST_FRAMES;
use decoder::Session;
use std::io;

pub(crate) fn cases(rt: &impl Print) -> io::Result<()> {
    sessions(rt)?;
    levels::digits(rt)?;
    levels::band(rt)?;
    mixed_sessions(rt)?;
    levels::erasures(rt)?;
    whole_bursts(rt)
}

// An `f` asks for the link figure, a `z` for the frame 0 thirty times, an `=` for it as often as a stream may have frames. Any other
// letter is a frame as readings, by `levels::frame`. Any other byte is the frame, but for spaces and card numbers.
fn step(rt: &impl Print, session: &mut Session, number: u8, fed: u8) -> io::Result<()> {
    match fed {
        b' ' | b'0'..=b'9' => Ok(()),
        b'f' => print!(rt; ", figure {}", decoder::link_figure(session)),
        b'z' => receive_zeros(rt, session, 30),
        b'=' => receive_zeros(rt, session, MOST_FRAMES),
        b'A'..=b'Z' | b'a'..=b'z' => {
            lines::answer(rt, session.receive_readings(number, levels::frame(fed)))
        }
        frame => lines::answer(rt, session.receive_byte(number, frame)),
    }
}

fn receive_zeros(rt: &impl Print, session: &mut Session, times: usize) -> io::Result<()> {
    let number = session.card.number;
    let Tally { waiting, frames } = Tally::of(times, || session.receive_byte(number, 0));
    print!(rt; ", {waiting} waiting and {frames} frames")
}

// What a row feeds is the letter of a card, and the steps of the session. A digit tells the card number that the calls after it are under; till
// then it is the session's own.
fn row(rt: &impl Print, fed: &[u8]) -> io::Result<()> {
    let [letter, steps @ ..] = fed else {
        return Ok(());
    };
    let mut session = lines::session(rt, decoder::open(drafts::named(*letter).front()))?;
    let mut number = session.card.number;
    for &fed in steps {
        if let b'0'..=b'9' = fed {
            number = fed - b'0';
        }
        step(rt, &mut session, number, fed)?;
    }
    rt.write_all(b"\n")
}

// A table of sessions, here, in `levels` and in `limits`.
pub(crate) fn rows(rt: &impl Print, table: &[u8]) -> io::Result<()> {
    tables::each(rt, table, |fed| row(rt, fed))
}

// The last ones with the link figure, before the first frame and after each.
fn sessions(rt: &impl Print) -> io::Result<()> {
    rows(
        rt,
        b"P receives 3, 3, 3, 2|P\x03\x03\x03\x02;\
          P receives 2, 2, 0, 0|P\x02\x02\x00\x00;\
          Q receives 2, 2, 0, 0|Q\x02\x02\x00\x00;\
          P receives one frame|P\x03;\
          T receives 4, 4, 4, 0, 0|T\x04\x04\x04\x00\x00;\
          k 4, n 8 receives 16, 2, 187, 240, two digits wrong|E\x10\x02\xbb\xf0;\
          m 0 receives 7, 6, 2, 1|M\x07\x06\x02\x01;\
          m 31 receives 2, then 0 for 30 times, then 2|F\x02z\x02;\
          Q receives 2, 2, 0, 0, with the figure|Qf\x02f\x02f\x00f\x00f;\
          P receives 2, 2, with the figure|Pf\x02f\x02f;\
          m 0 receives 2, with the figure|Mf\x02f;",
    )
}

// Bytes and readings in one session; then calls under other card numbers. A refused call leaves the session as it was; 14 comes before 12
// and before 11.
fn mixed_sessions(rt: &impl Print) -> io::Result<()> {
    rows(
        rt,
        b"P receives 3 as readings, 3, 3 as bytes, 2 as readings|Ph\x03\x03H;\
          P receives NaN under card number 8, then NaN, 3, 2 under 7|P 8 n 7 n\x03\x02;\
          P receives 3, 4 under card number 8, then 4, 3, 2 under 7|P 8 \x03\x04 7 \x04\x03\x02;\
          the first 19 bytes of P receive 3 under card numbers 7 and 0|p 7 \x03 0 \x03;",
    )
}

// The last of those that are answered have m frames or fewer, so that none is handed out. Of the refusals, the card comes before 13, and 13
// before 11.
fn whole_bursts(rt: &impl Print) -> io::Result<()> {
    tables::each(
        rt,
        b"P receives the burst 3, 3, 3, 2 into 3 bytes|P\x03\x03\x03\x03\x02;\
          P receives the burst 2, 2, 0, 0 into 5 bytes|P\x05\x02\x02\x00\x00;\
          Q receives the burst 2, 2, 0, 0 into 1 byte|Q\x01\x02\x02\x00\x00;\
          T receives the burst 4, 4, 4, 0, 0 into 3 bytes|T\x03\x04\x04\x04\x00\x00;\
          k 4, n 8 receives the burst 16, 2, 187, 240 into 3 bytes|E\x03\x10\x02\xbb\xf0;\
          m 0 receives the burst 7, 6, 2, 1 into 4 bytes|M\x04\x07\x06\x02\x01;\
          k 3, n 6 receives the burst 31, 56, 24, four digits wrong, into 1 byte|W\x01\x1f\x38\x18;\
          P receives an empty burst into 1 byte|P\x01;\
          Q receives the burst 2, 2 into 1 byte|Q\x01\x02\x02;\
          Q receives the burst 2, 2, 0 into 1 byte|Q\x01\x02\x02\x00;\
          P receives the burst 3, 3, 3, 2 into 2 bytes|P\x02\x03\x03\x03\x02;\
          P receives the burst 3, 4, 3, 2 into 3 bytes|P\x03\x03\x04\x03\x02;\
          P receives the burst 3, 4, 3, 2 into 2 bytes|P\x02\x03\x04\x03\x02;\
          the first 19 bytes of P receive the burst 4, 4, 4 into 1 byte|p\x01\x04\x04\x04;",
        |fed| bursts::row(rt, burst_receive, fed),
    )
}
