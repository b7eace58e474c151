// Instructions one after another: a stretch of plain ones, and the instruction at its end.
#![tactic(auto)]

ghost use Rattle.std.specs.Prelude.{◌≡◌};
ghost use Rattle.stretches.specs.Stretch.{told_at, Stretched};

use paper::{Reason, Version};

// Where a stretch of plain instructions ends: the position of the instruction at its end, how many plain ones are before it, and
// what is told of it.
#[derive(Clone, Copy)]
pub struct Stretch {
    pub at: usize,
    pub count: usize,
    pub told: u64,
}

// Judges instruction after instruction from `from` on, as long as they are plain and the next one begins before `stop`. Behind these
// tokens `beyond` more are there. Most instructions are plain: they neither open nor close a block, and may stand anywhere.
#[tactic(auto, using(crate::proofs::Stretches::turns))]
pub fn judge_stretch(
    version: Version,
    tokens: &[u32],
    from: usize,
    stop: usize,
    beyond: usize,
) -> Stretch
    ensures { Stretched version tokens.now from stop beyond result }
{
    let mut at = from;
    let mut count = 0;
    while at < tokens.len() {
        let told = door::tell(version, tokens[at], &tokens[at + 1..], beyond);
        if !told::is_plain(told) {
            return Stretch { at, count, told };
        }
        let next = at + 1 + told::size_of(told);
        if stop <= next {
            return Stretch { at, count, told };
        }
        at = next;
        count += 1;
    }
    Stretch {
        at,
        count,
        told: told::refused_first(Reason::RunOut),
    }
}

// What is told of the instruction at a place of these tokens, behind which `beyond` more are there.
#[tactic(auto, using(crate::proofs::Stretches::leads_one))]
pub fn judge_at(version: Version, tokens: &[u32], at: usize, beyond: usize) -> u64
    ensures { result ≡ told_at version tokens.now beyond at }
{
    judge_stretch(version, tokens, at, 0, beyond).told
}
