// Clients of the promise of the listing.
ghost use Rattle.std.specs.Prelude.{◌≡◌, List, ◌++◌, ℕ, ◌≤◌, take, drop};
ghost use Rattle.outcomes.specs.Listing.{listing};
ghost use Rattle.clients.specs.Listed.{listed_p};

use listing::LISTING_ROOM;

// Document 01's example; what the output has beyond it is as it was.
pub fn p_is_listed(output: &mut [u8; LISTING_ROOM]) -> usize
    ensures { (take result output.new ≡ listed_p) × (drop result output.new ≡ drop result output.old) }
{
    listing::list(
        b"\x14\x00\x00\x07\x01\x01\x00\x03\x00\x00\x00\x02\x01\x01\x00\x00\x00\x01\x02\x00\x00\x00\x03\x03\x03\x02",
        output,
    )
}

// What follows the first 34,819 bytes of an input changes nothing, and no listing is longer than its room.
pub fn front_is_enough(front: &[u8; 34819], output: &mut [u8; LISTING_ROOM]) -> usize
    ensures { ((more : List ℕ) → take result output.new ≡ listing (front.now ++ more)) × (result ≤ 458784) }
{
    listing::list(front, output)
}
