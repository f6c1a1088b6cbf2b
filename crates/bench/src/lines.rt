// The lines that the bench writes: what a case is, a colon, and what it came to.
use crate::drafts::Card;
use card::{CardRule, Fault, Opened, Refusal};
use std::io;

fn verdict(rt: &impl Print, came: Result<(), Fault>) -> io::Result<()> {
    match came {
        Ok(()) => rt.write_all(b": accepted"),
        Err(Fault { refusal, offset }) => print!(rt; ": refused {} at {offset}", u8::from(refusal)),
    }
}

// A whole line: what reading the card comes to under a rule.
pub(crate) fn outcome(rt: &impl Print, rule: CardRule, card: &Card) -> io::Result<()> {
    verdict(rt, card::read_card(rule, card.front()).map(|_| ()))?;
    rt.write_all(b"\n")
}

// The session that opening came to. What each call answers comes after the verdict.
pub(crate) fn session<S: Drop>(rt: &impl Print, opened: Opened<S>) -> io::Result<S> {
    verdict(rt, opened.verdict)?;
    Ok(opened.session)
}

// What a call of a session answers: 'waiting' is no frame.
pub(crate) fn answer(rt: &impl Print, came: Result<Option<u8>, Refusal>) -> io::Result<()> {
    match came {
        Ok(None) => rt.write_all(b", waiting"),
        Ok(Some(frame)) => print!(rt; ", frame {frame}"),
        Err(refusal) => print!(rt; ", refused {}", u8::from(refusal)),
    }
}

// What a run of calls comes to: how often 'waiting' came, and how many frames.
#[derive(Clone, Copy, Default)]
pub(crate) struct Tally {
    pub waiting: usize,
    pub frames: usize,
}

impl Tally {
    // The same call so many times.
    pub(crate) fn of<F: FnMut() -> Result<Option<u8>, Refusal>>(times: usize, mut call: F) -> Self
        requires { F.IsAlwaysCallable call }
    {
        let mut tally = Tally::default();
        for _ in 0..times {
            match call() {
                Ok(None) => tally.waiting += 1,
                Ok(Some(_)) => tally.frames += 1,
                Err(_) => {}
            }
        }
        tally
    }
}
