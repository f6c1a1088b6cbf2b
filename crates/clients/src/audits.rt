// Clients of the promise of an audit.
ghost use Rattle.std.specs.Prelude.{◌≡◌, None, Ok, List, ◌++◌, ℕ, take};
ghost use Rattle.card.specs.Reading.{read_card};
ghost use Rattle.outcomes.specs.Listing.{too_long_line, refused_line};
ghost use Rattle.listing.specs.Auditing.{name_in, not_read_line, fault_under, fault, audit_line, line_count, passed};

use crate::cards::{P, STORED_P};
use listing::auditing;
use listing::auditing::AUDIT_ROOM;

// P passes, whatever its name is, and no byte of the output is changed: `told`, `counted`, `good_passes`.
pub fn p_passes(output: &mut [u8; AUDIT_ROOM], size: usize) -> Option<usize>
    ensures { (result ≡ None) × (output.new ≡ output.old) }
{
    auditing::audit(Ok(&P), output, size)
}

// P with its defaults stated is refused, by the present rule, and not counted: `told`, `counted`.
pub fn stored_p_is_told(output: &mut [u8; AUDIT_ROOM], size: usize) -> Option<usize>
    ensures { (take (line_count result) output.new ≡ audit_line (name_in output.old size) (refused_line 18 2)) × (passed result ≡ 0) }
{
    auditing::audit(Ok(&STORED_P), output, size)
}

// What came of a file that was not read to its end is no card, though it be P's bytes.
pub fn half_read_p_is_not_read(output: &mut [u8; AUDIT_ROOM], size: usize) -> Option<usize>
    ensures { (take (line_count result) output.new ≡ audit_line (name_in output.old size) not_read_line) × (passed result ≡ 0) }
{
    auditing::audit(Err(&P), output, size)
}

// 2,048 bytes are read.
pub fn longest_is_read(
    bytes: &[u8; 2048],
    output: &mut [u8; AUDIT_ROOM],
    size: usize,
) -> Option<usize>
    ensures { take (line_count result) output.new ≡ audit_line (name_in output.old size) (fault_under (read_card bytes.now).outcome) }
{
    auditing::audit(Ok(bytes), output, size)
}

// One more is too long, and what follows it changes nothing: `by_the_front`.
pub fn longer_is_too_long(
    front: &[u8; 2049],
    output: &mut [u8; AUDIT_ROOM],
    size: usize,
) -> Option<usize>
    ensures line_is { (take (line_count result) output.new ≡ audit_line (name_in output.old size) too_long_line) × (passed result ≡ 0) }
    ensures by_the_front { (more : List ℕ) → fault (Ok (front.now ++ more)) ≡ too_long_line }
{
    auditing::audit(Ok(front), output, size)
}
