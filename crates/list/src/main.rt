// Lists a card and received frames: standard input to standard output.
#![tactic(auto)]

use listing::{LISTING_ROOM, LONGEST_INPUT};

// The input is read to its end, for which a read that fails counts, or to one byte more than the longest that is listed. Of an input as long as that the
// length is known already: with a stated length of at most 2,048 it has more than 32,768 frames, so it is too long whatever follows
// (`by_the_front` in the promise of `list`). `rewrite` has these six lines too: one function of both would take a closure, and a public function here has no
// `requires`, which a call of a closure asks for.
fn main(rt: HostRuntime) {
    let mut input = [0u8; LONGEST_INPUT + 1];
    let (Ok(length) | Err(length)) = filling::fill(&mut rt.stdin(), &mut input);
    let mut output = [0u8; LISTING_ROOM];
    let count = listing::list(&input[..length], &mut output);
    let whole = rt.write_all(&output[..count]).is_ok();
    let _ = filling::tell_unless(&rt, whole, "list: the listing could not be written\n");
}
