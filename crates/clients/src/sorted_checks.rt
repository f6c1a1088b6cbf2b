// A client of the vote by sorted checks.
ghost use Rattle.std.specs.Prelude.{◌≡◌, ◌∷◌, replicate};
ghost use Rattle.vote.specs.Voting.{decide_by_all};

use code::CHECK_WORDS;

// Sorted and decided, whatever the tables: as the vote on registers decides that has the word as its first one.
pub fn sorted_checks_decide(
    counts: &[u32; 4],
    checks: &[u32; CHECK_WORDS],
    word: u32,
    k: usize,
) -> u32
    ensures { result ≡ decide_by_all counts.now checks.now (word ∷ replicate 7 0) k 1 }
{
    burst_vote::sorted(counts, checks, k).decide(counts, word, k)
}
