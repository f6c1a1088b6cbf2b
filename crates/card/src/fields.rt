// The fields of a card: each has a value, or is cut short or out of its range.
ghost use Rattle.std.specs.Prelude.{Err, ◌≡◌, ◌<◌, ◌≤◌, length};
ghost use Rattle.card.specs.Refusals.{number_of};
ghost use Rattle.card.specs.Reading.{byte_field, standing_field, k_field, n_field, map_field, mask_field, standing_mask};
ghost use Rattle.card.specs.Reading.Field.{value, bad};
ghost use Rattle.card.specs.Parts.{field_of};

use crate::{CardRule, Fault, Refusal};

// The fault of a field that the bytes end before.
fn cut_short(bytes: &[u8]) -> Fault
    ensures { field_of (Err result) ≡ bad 1 (length bytes.now) }
{
    Fault {
        refusal: Refusal::CardCutShort,
        offset: bytes.len(),
    }
}

// The one-byte field at an offset, refused outside low to high.
pub(crate) fn byte_field(
    bytes: &[u8],
    at: usize,
    low: u32,
    high: u32,
    refusal: Refusal,
) -> Result<u32, Fault>
    ensures { field_of result ≡ byte_field bytes.now at low high (number_of refusal) }
{
    let Some(&byte) = bytes.get(at) else {
        return Err(cut_short(bytes));
    };
    let v = u32::from(byte);
    if v < low || high < v {
        return Err(Fault {
            refusal,
            offset: at,
        });
    }
    Ok(v)
}

// A field that stands and is in its range: under the present rule it is refused with its default.
fn standing_field(rule: CardRule, v: u32, default: u32, at: usize) -> Result<u32, Fault>
    ensures { field_of result ≡ standing_field rule default at (value v) }
{
    match rule {
        CardRule::Former => Ok(v),
        CardRule::Present if v == default => Err(Fault {
            refusal: Refusal::DefaultStated,
            offset: at,
        }),
        CardRule::Present => Ok(v),
    }
}

// k, where its bit of byte 0 stands.
pub(crate) fn k_field(rule: CardRule, bytes: &[u8], stands: u32) -> Result<u32, Fault>
    ensures { field_of result ≡ k_field rule bytes.now stands }
{
    if stands == 1 {
        let k = byte_field(bytes, 2, 1, 4, Refusal::KOutOfRange)?;
        return standing_field(rule, k, 1, 2);
    }
    Ok(1)
}

// n, where its bit of byte 0 stands.
pub(crate) fn n_field(
    rule: CardRule,
    bytes: &[u8],
    at: usize,
    stands: u32,
    k: u32,
) -> Result<u32, Fault>
    requires { k ≤ 4 }
    ensures { field_of result ≡ n_field rule bytes.now at stands k }
{
    if stands == 1 {
        let n = byte_field(bytes, at, k + 1, 8, Refusal::NOutOfRange)?;
        return standing_field(rule, n, 2, at);
    }
    if 2 < k + 1 {
        return Err(Fault {
            refusal: Refusal::NOutOfRange,
            offset: 0,
        });
    }
    Ok(2)
}

// The generator map of so many bits, two bytes.
pub(crate) fn map_field(bytes: &[u8], at: usize, count: usize) -> Result<u32, Fault>
    requires { (at ≤ length bytes.now) × (count < 32) }
    ensures { field_of result ≡ map_field bytes.now at count }
{
    let &[low, high, ..] = &bytes[at..] else {
        return Err(cut_short(bytes));
    };
    let map = u32::from(u16::from_le_bytes([low, high]));
    if 0 < map >> count {
        return Err(Fault {
            refusal: Refusal::MapBeyondStreams,
            offset: at,
        });
    }
    Ok(map)
}

// The four-byte mask at an offset: not zero, and no bit above m.
fn mask_field(bytes: &[u8], at: usize, m: usize) -> Result<u32, Fault>
    requires { (at ≤ length bytes.now) × (m < 32) }
    ensures { field_of result ≡ mask_field bytes.now at m }
{
    let &[a, b, c, d, ..] = &bytes[at..] else {
        return Err(cut_short(bytes));
    };
    let mask = u32::from_le_bytes([a, b, c, d]);
    if mask == 0 || 1 < mask >> m {
        return Err(Fault {
            refusal: Refusal::MaskOutOfRange,
            offset: at,
        });
    }
    Ok(mask)
}

// A mask where its bit of the map stands, else zero.
pub(crate) fn standing_mask(bytes: &[u8], at: usize, m: usize, stands: u32) -> Result<u32, Fault>
    requires { (at ≤ length bytes.now) × (m < 32) }
    ensures { field_of result ≡ standing_mask bytes.now at m stands }
{
    if stands == 1 {
        mask_field(bytes, at, m)
    } else {
        Ok(0)
    }
}
