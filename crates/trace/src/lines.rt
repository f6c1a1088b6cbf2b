// The lines that a trace writes. A line goes out in parts, and standard error is told of each that could not be written (docs/DECISIONS.md, "A write that
// fails"): a line as a whole, by Display, would be told of once.
use card::{Fault, Refusal};

// What became of a part of a line.
fn written(rt: &impl Eprint, whole: bool) {
    let _ = filling::tell_unless(rt, whole, "trace: part of a line could not be written\n");
}

pub(crate) fn text(rt: &(impl Print + Eprint), words: &[u8]) {
    written(rt, rt.write_all(words).is_ok());
}

fn number(rt: &(impl Print + Eprint), n: u64) {
    written(rt, rt.print(n).is_ok());
}

pub(crate) fn too_long(rt: &(impl Print + Eprint)) {
    text(rt, b"input too long\n");
}

// Where a record is cut short, of another kind, or one that can't be carried out.
pub(crate) fn bad_record(rt: &(impl Print + Eprint)) {
    text(rt, b"bad record\n");
}

// A word, a number and the line's end.
fn counted(rt: &(impl Print + Eprint), words: &[u8], n: u64) {
    text(rt, words);
    number(rt, n);
    text(rt, b"\n");
}

pub(crate) fn refused_card(rt: &(impl Print + Eprint), fault: Fault) {
    text(rt, b"refused ");
    number(rt, u64::from(u8::from(fault.refusal)));
    text(rt, b" at ");
    number(rt, fault.offset as u64);
    text(rt, b"\n");
}

// What a call for a frame gave.
pub(crate) fn answer(rt: &(impl Print + Eprint), came: Result<Option<u8>, Refusal>) {
    match came {
        Ok(None) => text(rt, b"waiting\n"),
        Ok(Some(frame)) => counted(rt, b"frame ", u64::from(frame)),
        Err(refusal) => counted(rt, b"refused ", u64::from(u8::from(refusal))),
    }
}

pub(crate) fn figure(rt: &(impl Print + Eprint), count: u32) {
    counted(rt, b"figure ", u64::from(count));
}

pub(crate) fn session(rt: &(impl Print + Eprint), selected: u64) {
    counted(rt, b"session ", selected);
}
