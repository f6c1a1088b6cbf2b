// The cases of card reading: document 01, "Cards on the bench" and "Refused because of the input", 1 to 10; document 02, R-4, 18, and R-13.
use crate::drafts::{Card, Draft};
use crate::{drafts, lines, tables};
use card::CardRule;
use std::io;

pub(crate) fn cases(rt: &impl Print) -> io::Result<()> {
    starred(rt)?;
    memory_and_streams(rt)?;
    stated_defaults(rt)?;
    maps_and_masks(rt)?;
    counts(rt)?;
    cuts(rt)?;
    lengths(rt)
}

// What a row feeds is the letter of a card, and after it nothing, a byte to add, or the offset and the value of a byte to change; or, of a
// plain card, a B if k and n both stand or another letter if a default doesn't, k, n, and the two bytes of the generator map.
fn drafted(fed: &[u8]) -> Card {
    match fed {
        [letter, byte] => drafts::named(*letter).byte(*byte),
        [letter, offset, value] => drafts::named(*letter).changed(usize::from(*offset), *value),
        [b'B', k, n, low, high] => drafts::plain(drafts::stated_head(*k, *n), *k, [*low, *high]),
        [_, k, n, low, high] => drafts::plain(drafts::head(*k, *n), *k, [*low, *high]),
        [letter, ..] => drafts::named(*letter),
        [] => Draft::of(b""),
    }
}

// A row for each card, under the present rule.
fn cards(rt: &impl Print, table: &[u8]) -> io::Result<()> {
    tables::each(
        rt,
        table,
        |fed| lines::outcome(rt, CardRule::Present, &drafted(fed)),
    )
}

// The same under both rules: what the cards come to, and what they came to before R-4.
fn stored_cards(rt: &impl Print, table: &[u8]) -> io::Result<()> {
    cards(rt, table)?;
    tables::each(rt, table, |fed| {
        rt.write_all(b", under the former rule")?;
        lines::outcome(rt, CardRule::Former, &drafted(fed))
    })
}

// The starred cases, the rows of `specs/Rows.antt`. The mask of Q's third check begins at byte 21, that of R's fourth at 26, and that of the
// second of T's stream 1 at 22.
fn starred(rt: &impl Print) -> io::Result<()> {
    cards(
        rt,
        b"P|P;\
          Q|Q;\
          R|R;\
          R with s5 for s1 + s5|R\x1a\x20;\
          Q with s2 as a fourth check|q;\
          T|T;\
          T with s0, s2 for stream 1|T\x16\x04;\
          the first 19 bytes of P|p;\
          P with a zero byte added|P\x00;\
          Q with s0 again as its third check|Q\x15\x01;",
    )
}

// m is byte 2 of P. Then k at both ends, and n at both ends for each k; a default doesn't stand.
fn memory_and_streams(rt: &impl Print) -> io::Result<()> {
    cards(
        rt,
        b"P with m 31|P\x02\x1f;\
          P with m 31 and terms 0 and 31|F;\
          P with m 32|P\x02\x20;\
          k 0, n 2|K\x00\x02\x01\x00;\
          k 5, n 8|K\x05\x08\x01\x00;\
          k 1, n 1|K\x01\x01\x01\x00;\
          k 1, n 2|K\x01\x02\x01\x00;\
          k 1, n 8|K\x01\x08\x01\x00;\
          k 1, n 9|K\x01\x09\x01\x00;\
          k 2, n 3|K\x02\x03\x03\x00;\
          k 2, n 8|K\x02\x08\x41\x00;\
          k 2, n 9|K\x02\x09\x41\x00;\
          k 3, n 3|K\x03\x03\x07\x00;\
          k 3, n 4|K\x03\x04\x07\x00;\
          k 3, n 8|K\x03\x08\x21\x04;\
          k 3, n 9|K\x03\x09\x21\x04;\
          k 4, n 4|K\x04\x04\x0f\x00;\
          k 4, n 5|K\x04\x05\x0f\x00;\
          k 4, n 8|K\x04\x08\x11\x11;\
          k 4, n 9|K\x04\x09\x11\x11;\
          k 2, n by default|n;\
          k 3, n 6, J 4, 2 and 3|W;",
    )
}

// Fields that stand with their defaults, and what is tested before that: a field's end and its range.
fn stated_defaults(rt: &impl Print) -> io::Result<()> {
    stored_cards(
        rt,
        b"P, k stated as 1 and n as 2|d;\
          k 1, n 2, both stated|B\x01\x02\x01\x00;\
          k 1, n 3, both stated|B\x01\x03\x01\x00;\
          k 1, n 9, both stated|B\x01\x09\x01\x00;\
          k 2, n 2, both stated|B\x02\x02\x03\x00;\
          k 0, n 2, both stated|B\x00\x02\x01\x00;\
          n stated as 2, and no more|e;\
          k stated as 1, and no n|f;\
          k stated, and no k|h;",
    )
}

// P's maps are byte 0, bytes 3 and 4 for its one generator, and byte 10 for the one parity stream of its first check. Its generator begins
// at byte 5, the mask of its first check at byte 11; m is 1.
fn maps_and_masks(rt: &impl Print) -> io::Result<()> {
    cards(
        rt,
        b"P with bit 2 of byte 0|P\x00\x04;\
          P with bit 7 of byte 0|P\x00\x80;\
          P with bit 1 of its generator map|P\x03\x03;\
          P with bit 15 of its generator map|P\x04\x80;\
          P with bit 1 of a check's map|P\x0a\x03;\
          P with no generator|g;\
          P with a check whose map is zero|P\x0a\x00;\
          P with a generator that is zero|P\x05\x00;\
          P with a generator that has a bit above m|P\x05\x07;\
          P with a check's mask that is zero|P\x0b\x00;\
          P with a check's mask that has a bit above m|P\x0b\x05;",
    )
}

// J is byte 34 of the card with ten checks, and of that with eleven: document 02, R-13, "7 is now met from J = 11", "in R-4's program too".
fn counts(rt: &impl Print) -> io::Result<()> {
    stored_cards(
        rt,
        b"J 0|S\x22\x00;\
          J 10|S;\
          J 11|s;\
          J 16|S\x22\x10;\
          J 255|S\x22\xff;",
    )
}

// P ends at byte 20.
fn cuts(rt: &impl Print) -> io::Result<()> {
    for len in 0..20usize {
        print!(rt; "P cut at byte {len}")?;
        lines::outcome(rt, CardRule::Present, &drafts::named(b'P').cut(len))?;
    }
    Ok(())
}

// "No accepted card is then longer than 755 bytes" (R-13), and one has as many.
fn lengths(rt: &impl Print) -> io::Result<()> {
    cards(
        rt,
        b"no bytes|;\
          755 bytes|L;\
          its first 754 bytes|l;\
          a zero byte added to it|L\x00;",
    )
}
