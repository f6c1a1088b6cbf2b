// The bench: the cases of document 01, "Cards on the bench". The starred ones are a theorem over the definitions; all of them run here
// through the code, and the lines are held to `stdout`.
#![tactic(auto)]

mod bursts;
mod decoding;
mod drafts;
mod levels;
mod limits;
mod lines;
mod listed;
mod reading;
mod sending;
mod tables;

ghost use Rattle.bench.specs.Rows.{Rows};

use std::io;

// The starred cases, over the definitions. Nothing runs: what is promised is the theorem, and as a promise it is asked for by every check.
fn starred_rows()
    ensures { Rows }
{}

fn main(rt: HostRuntime) -> io::Result<()> {
    starred_rows();
    reading::cases(&rt)?;
    sending::cases(&rt)?;
    decoding::cases(&rt)?;
    limits::cases(&rt)?;
    listed::cases(&rt)
}
