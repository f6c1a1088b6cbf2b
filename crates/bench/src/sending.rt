// The cases of sending: document 01, "The code" and "Readings and bursts", and the refusals 11, 13, 16 and 17 in their orders. Those of 15 are
// in `limits`.
use crate::lines::Tally;
use crate::{bursts, drafts, limits, lines, tables};
use burst::send::burst_send;
use encoder::Session;
use std::io;

pub(crate) fn cases(rt: &impl Print) -> io::Result<()> {
    sessions(rt)?;
    whole_bursts(rt)
}

// A `t` asks for a tail frame, a `-` or `=` for the information 1 as many times as it stands for; any other byte is the information.
fn step(rt: &impl Print, session: &mut Session, fed: u8) -> io::Result<()> {
    match fed {
        b't' => lines::answer(rt, session.send_tail().map(Some)),
        b'-' | b'=' => {
            let tally = Tally::of(limits::count(fed), || session.send(1).map(Some));
            print!(rt; ", {} frames", tally.frames)
        }
        info => lines::answer(rt, session.send(info).map(Some)),
    }
}

// What a row feeds is the letter of a card, and the steps of the session.
fn row(rt: &impl Print, fed: &[u8]) -> io::Result<()> {
    let [letter, steps @ ..] = fed else {
        return Ok(());
    };
    let mut session = lines::session(rt, encoder::open(drafts::named(*letter).front()))?;
    for &fed in steps {
        step(rt, &mut session, fed)?;
    }
    rt.write_all(b"\n")
}

// A table of sessions, here and in `limits`.
pub(crate) fn rows(rt: &impl Print, table: &[u8]) -> io::Result<()> {
    tables::each(rt, table, |fed| row(rt, fed))
}

// A refused call leaves the session as it was; 16 comes before 11.
fn sessions(rt: &impl Print) -> io::Result<()> {
    rows(
        rt,
        b"P sends 1, 0, 1 and tail|P\x01\x00\x01t;\
          k 4, n 8 sends 1, 2, 15 and tail|E\x01\x02\x0ft;\
          m 0 sends a tail frame, then 1, 0|Mt\x01\x00;\
          P sends a tail frame, then 1, 2 and a tail frame|Pt\x01\x02t;\
          P sends 2, a digit beyond stream 1, then 1|P\x02\x01;\
          k 4, n 8 sends 16, a digit beyond stream 4, then 1|E\x10\x01;\
          the first 19 bytes of P send 1 and a tail frame|p\x01t;",
    )
}

// The card comes before 13, and 13 before 11.
fn whole_bursts(rt: &impl Print) -> io::Result<()> {
    tables::each(
        rt,
        b"P sends the burst 1, 0, 1 into 4 bytes|P\x04\x01\x00\x01;\
          P sends the burst 1, 0, 1 into 6 bytes|P\x06\x01\x00\x01;\
          P sends an empty burst into 1 byte|P\x01;\
          k 4, n 8 sends the burst 1, 2, 15 into 4 bytes|E\x04\x01\x02\x0f;\
          m 0 sends the burst 1, 0 into 2 bytes|M\x02\x01\x00;\
          P sends the burst 1, 0, 1 into 3 bytes|P\x03\x01\x00\x01;\
          P sends the burst 1, 2, 1 into 4 bytes|P\x04\x01\x02\x01;\
          P sends the burst 1, 2, 1 into 3 bytes|P\x03\x01\x02\x01;\
          the first 19 bytes of P send the burst 1 into 1 byte|p\x01\x01;",
        |fed| bursts::row(rt, burst_send, fed),
    )
}
