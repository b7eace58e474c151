// The reader: document 01, "Records". One instruction at a place of a stream, judged and read into its record.
#![tactic(auto)]

ghost use Rattle.std.specs.Prelude.{◌≡◌};
ghost use Rattle.reader.specs.Reading.{reading_at, reading, told_reading};

use paper::{Reason, Refusal, Version};
use records::Record;

// An instruction that was read, and the place behind it.
#[derive(Clone, Copy)]
pub struct Reading {
    pub next: usize,
    pub instruction: Record,
}

fn read_at(version: Version, tokens: &[u32], at: usize) -> Result<Reading, Refusal>
    ensures { result ≡ reading_at version tokens.now at }
{
    if tokens.len() <= at {
        return Err(Refusal::at(tokens.len(), Reason::RunOut));
    }
    let told = stretches::judge_at(version, tokens, at, 0);
    if told::is_refused(told) {
        let detail = told::bit_of(told);
        return Err(Refusal {
            reason: told::reason_of(told),
            position: at + told::position_of(told),
            detail,
        });
    }
    let class = told::class_of(told);
    let from = at + 1;
    let next = from + told::size_of(told);
    let instruction = records::read_record(version, class, tokens[at], &tokens[from..next]);
    Ok(Reading { next, instruction })
}

// The instruction at a place of these tokens, of the version that this token names: its record and the next place, or why there is none.
pub fn read(version: u32, tokens: &[u32], at: usize) -> Result<Reading, Refusal>
    ensures { told_reading result ≡ told_reading (reading version tokens.now at) }
{
    // LENGTH: "over 16,384 only"
    if paper::MOST_TOKENS < tokens.len() {
        return Err(Refusal::at(0, Reason::Length));
    }
    let Some(known) = versions::version_of(version) else {
        return Err(Refusal::at(0, Reason::Version));
    };
    read_at(known, tokens, at)
}
