// The parts of a card before its checks: the head, and the generators. The tables of a card are lent from part to part and filled in place: handed
// on by value they would be copied each time.
ghost use Rattle.std.specs.Prelude.{◌≡◌, ◌<◌, ◌≤◌, length, replicate};
ghost use Rattle.card.specs.Fields.{store_rows};
ghost use Rattle.card.specs.Reading.{read_mapped, read_head, read_generators};
ghost use Rattle.card.specs.Parts.{read_by, head_by, sizes_of};

use crate::{CardRule, Fault, Refusal, fields};

// What the head of a card states.
// Not code's `Sizes`: it is what the bytes state, the card's number too, before anything is held to the tables.
#[derive(Clone, Copy)]
pub(crate) struct Sizes {
    pub number: u8,
    pub k: usize, // information streams
    pub p: usize, // parity streams, n - k
    pub m: usize, // memory
}

// The fields before the generators, and the offset after them.
pub(crate) fn read_head(rule: CardRule, bytes: &[u8]) -> Result<(Sizes, usize), Fault>
    ensures { head_by result ≡ read_mapped sizes_of (read_head rule bytes.now) }
{
    let map = fields::byte_field(bytes, 0, 0, 3, Refusal::MapBeyondStreams)?;
    let number = fields::byte_field(bytes, 1, 0, 255, Refusal::CardCutShort)?;
    let k = fields::k_field(rule, bytes, map % 2)?;
    let n_at = 2 + (map % 2) as usize;
    let n = fields::n_field(rule, bytes, n_at, map / 2, k)?;
    let m_at = n_at + (map / 2) as usize;
    let m = fields::byte_field(bytes, m_at, 0, 31, Refusal::MemoryAboveLimit)?;
    let sizes = Sizes {
        number: number as u8,
        k: k as usize,
        p: (n - k) as usize,
        m: m as usize,
    };
    Ok((sizes, m_at + 1))
}

// The generator map and its masks, after the head, stored in the empty table; the offset after them.
pub(crate) fn read_generators(
    bytes: &[u8],
    start: usize,
    sizes: Sizes,
    generators: &mut [u32; 32],
) -> Result<usize, Fault>
    requires start_in_bounds { start ≤ length bytes.now }
    requires sizes_in_limits { (sizes.k ≤ 4) × ((sizes.p ≤ 7) × (sizes.m < 32)) }
    requires generators_empty { generators.old ≡ replicate 32 0 }
    ensures { read_by result generators.new
        ≡ read_mapped (λ rows. store_rows 0 rows (replicate 32 0)) (read_generators bytes.now start sizes.k sizes.p sizes.m) }
{
    let mut rest = fields::map_field(bytes, start, sizes.k * sizes.p)?;
    let mut at = start + 2;
    // By place: the table keeps fixed strides. The three lines within are those of `read_checks`, whose loops are one nest that the scope names.
    for i in 0..sizes.k {
        for j in 0..sizes.p {
            generators[i * 8 + j] = fields::standing_mask(bytes, at, sizes.m, rest % 2)?;
            at += (rest % 2) as usize * 4;
            rest /= 2;
        }
    }
    Ok(at)
}
