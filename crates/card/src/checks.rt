// The checks of a card, after its generators.
ghost use Rattle.std.specs.Prelude.{◌≡◌, ◌+◌, ◌<◌, ◌≤◌, length, replicate};
ghost use Rattle.code.specs.Limits.{check_words};
ghost use Rattle.card.specs.Reading.{read_mapped, read_streams};
ghost use Rattle.card.specs.Parts.{read_by, code_by, tables_with};

use crate::parts::Sizes;
use crate::{Fault, Refusal, fields};
use code::{CHECK_STRIDE, CHECK_WORDS, MOST_CHECKS};

// The checks of every information stream, stored in the empty tables; the offset after them. The loops over streams, checks and masks are one nest
// that is left by label at the first refusal: a form that the project's scope names. They go by place, since the tables keep fixed strides.
pub(crate) fn read_checks(
    bytes: &[u8],
    start: usize,
    sizes: Sizes,
    generators: &[u32; 32],
    counts: &mut [u32; 4],
    checks: &mut [u32; CHECK_WORDS],
) -> Result<usize, Fault>
    requires start_in_bounds { start ≤ length bytes.now }
    requires sizes_in_limits { (sizes.k ≤ 4) × ((sizes.k + sizes.p ≤ 8) × ((sizes.p ≤ 7) × (sizes.m < 32))) }
    requires tables_empty { (counts.old ≡ replicate 4 0) × (checks.old ≡ replicate check_words 0) }
    ensures { read_by result (record { counts = counts.new; checks = checks.new })
        ≡ read_mapped (tables_with 0 (replicate 4 0) (replicate check_words 0))
        (read_streams bytes.now (code_by sizes generators.now) sizes.k 0 start) }
{
    let most_checks = MOST_CHECKS as u32;
    let mut at = start;
    let mut outcome = Ok(());
    'card: for i in 0..sizes.k {
        let counted = fields::byte_field(bytes, at, 1, most_checks, Refusal::CheckCountOutOfRange);
        let count = match counted {
            Ok(count) => count,
            Err(fault) => {
                outcome = Err(fault);
                break 'card;
            }
        };
        counts[i] = count;
        at += 1;
        let mut touched = [0u32; 8];
        for q in 0..count as usize {
            let place = at;
            let mapped = fields::byte_field(
                bytes,
                at,
                0,
                (1 << sizes.p) - 1,
                Refusal::MapBeyondStreams,
            );
            let mut rest = match mapped {
                Ok(map) => map,
                Err(fault) => {
                    outcome = Err(fault);
                    break 'card;
                }
            };
            at += 1;
            let mut masks = [0u32; 8];
            for j in 0..sizes.p {
                let mask = match fields::standing_mask(bytes, at, sizes.m, rest % 2) {
                    Ok(mask) => mask,
                    Err(fault) => {
                        outcome = Err(fault);
                        break 'card;
                    }
                };
                masks[j] = mask;
                checks[i * CHECK_STRIDE + q * 8 + j] = mask;
                at += (rest % 2) as usize * 4;
                rest /= 2;
            }
            let passed = orthogonal::pass(generators, &masks, &mut touched, sizes.k, sizes.p, i);
            if let Err(failure) = passed {
                outcome = Err(Fault {
                    refusal: Refusal::from(failure),
                    offset: place,
                });
                break 'card;
            }
        }
    }
    outcome.and(Ok(at))
}
