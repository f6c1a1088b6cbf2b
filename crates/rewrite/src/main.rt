// Writes a stored card anew: standard input to standard output.
#![tactic(auto)]

use listing::rewriting;
use listing::rewriting::REWRITING_ROOM;
use outcomes::MOST_CARD_BYTES;

// The input is read to its end, for which a read that fails counts, or to one byte more than the longest: what follows changes nothing (`by_the_front` in
// the promise of `rewrite`).
fn main(rt: HostRuntime) {
    let mut input = [0u8; MOST_CARD_BYTES + 1];
    let (Ok(length) | Err(length)) = filling::fill(&mut rt.stdin(), &mut input);
    let mut output = [0u8; REWRITING_ROOM];
    let count = rewriting::rewrite(&input[..length], &mut output);
    let whole = rt.write_all(&output[..count]).is_ok();
    let _ = filling::tell_unless(&rt, whole, "rewrite: the card could not be written\n");
}
