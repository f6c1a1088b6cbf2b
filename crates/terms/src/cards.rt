// Cards: read, written, audited, and the standard ones; the pass over a check.
ghost use Rattle.std.specs.Prelude.{min, take};
ghost use Rattle.card.specs.Outcome.{published};
ghost use Rattle.listing.specs.Auditing.{bytes_of, line_count, passed};
ghost use Rattle.orthogonal.specs.Judgements.{judgement_number};
ghost use Rattle.orthogonal.specs.Pass.{word_code, information_streams, parity_streams, first_masks};
ghost use Rattle.terms.specs.Terms as term;

use card::{CardRule, Fault};
use code::Card;
use listing::auditing;
use listing::auditing::AUDIT_ROOM;
use listing::rewriting::REWRITING_ROOM;
use orthogonal::Failure;

pub fn read(rule: CardRule, bytes: &[u8]) -> Result<Card, Fault>
    ensures { term.CardRead rule bytes.now (published result) }
{
    card::read_card(rule, bytes)
}

pub fn write(card: &[u8], output: &mut [u8]) -> i32
    ensures { term.CardWritten card.now output.old result output.new }
{
    burst::write::card_write(card, output)
}

// For streams, masks and words of every value: more streams than there are words for are not looked at.
pub fn pass(
    generators: &[u32; 32],
    masks: &[u32; 8],
    touched: &mut [u32; 8],
    k: usize,
    p: usize,
    i: usize,
) -> Result<(), Failure>
    ensures { term.Passes (word_code generators.now (information_streams k) (parity_streams k p)) i (first_masks (parity_streams k p) masks.now)
        touched.old (judgement_number result) touched.new }
{
    orthogonal::pass(generators, masks, touched, k, p, i)
}

pub fn rewrite(input: &[u8], output: &mut [u8; REWRITING_ROOM]) -> usize
    ensures { term.Rewritten input.now output.old result output.new }
{
    listing::rewriting::rewrite(input, output)
}

// A file that does not pass has a line of so many bytes; one that passes has none, and counts. No name is longer than 131,072 bytes
// (`listing/Auditing: most_name`).
pub fn audit(
    file: Result<&[u8], &[u8]>,
    output: &mut [u8; AUDIT_ROOM],
    size: usize,
) -> Option<usize>
    ensures { term.Audited (bytes_of file.entry) (take (min size 131072) output.old) output.old (line_count result) (passed result) output.new }
{
    auditing::audit(file, output, size)
}

pub fn audit_end(output: &mut [u8; AUDIT_ROOM], passed: usize) -> usize
    ensures { term.AuditEnds passed output.old result output.new }
{
    auditing::end(output, passed)
}

pub fn standard(checks: u32, output: &mut [u8]) -> i32
    ensures { term.StandardCard checks output.old result output.new }
{
    burst::write::standard_card(checks, output)
}
