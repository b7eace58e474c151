// The operands of one instruction, from left to right: document 01, "The numbers given back", the order within one instruction.
#![tactic(auto)]

ghost use Rattle.std.specs.Prelude.{◌≡◌, ◌+◌, ◌≤◌, ◌<◌, length, drop};
ghost use Rattle.paper.specs.Instruction.{relative_token, operand, operands};
ghost use Rattle.paper.specs.Numbers.{told_token};
ghost use Rattle.paper.specs.OperandTokens.{token_at};
ghost use Rattle.tokens.specs.Brief.{brief};
ghost use Rattle.places.specs.Places.{place_by, decoded};
ghost use Rattle.told.specs.Numbered.{fault_number, taken_number, operands_number};

use paper::{Fault, Reason, Version};
use tokens::Wrong;

// What is told of a token that is not good, the token being at `at` of those behind the instruction token. Only here is asked what is wrong with its
// layout.
fn refused_at(version: Version, place: u64, token: u32, wrong: Wrong, at: usize) -> u64
    requires { (brief version (place_by place) token ≡ Err wrong) × (at < 64) }
    ensures { result ≡ fault_number (told_token (token_at version (place_by place) token)) (at + 1) }
{
    let position = at as u32 + 1;
    match wrong {
        Wrong::Layout => told::refused_by(faults::fault_at(version, place, token), position),
        Wrong::Register => told::refused_by(Some(Fault::of(Reason::Register)), position),
    }
}

// The relative token that bit 13 brings, the token at `at` of those behind the instruction token.
fn take_relative(version: Version, behind: &[u32], at: usize) -> u64
    requires { (at ≤ length behind.now) × (at < 64) }
    ensures { result ≡ taken_number (relative_token version (at + 1) (drop at behind.now)) }
{
    let Some(&token) = behind.get(at) else {
        return told::refused_first(Reason::Size);
    };
    match tokens::judge_relative(version, token) {
        Ok(()) => told::TWO_TAKEN,
        Err(wrong) => refused_at(version, places::RELATIVE, token, wrong, at),
    }
}

// The operand at `at` of the tokens behind the instruction token. Bit 13 brings a relative token at a free place.
fn take_operand(version: Version, place: u64, behind: &[u32], at: usize) -> u64
    requires { (at ≤ length behind.now) × (at < 32) }
    ensures { result ≡ taken_number (operand version (place_by place) (at + 1) (drop at behind.now)) }
{
    let Some(&token) = behind.get(at) else {
        return told::refused_first(Reason::Size);
    };
    if let Err(wrong) = tokens::judge_token(version, place, token) {
        return refused_at(version, place, token, wrong, at);
    }
    if tokens::brings_relative(place, token) {
        return take_relative(version, behind, at + 1);
    }
    told::ONE_TAKEN
}

// The operands at these places, from left to right, and no token more. A number of 64 bits has at most ten places, and an operand takes
// at most two tokens. A row of places is one number, of which nothing in std goes over the digits: hence `while`.
pub fn judge_operands(version: Version, places: u64, behind: &[u32]) -> u64
    ensures { result ≡ operands_number (operands version (decoded places) 1 behind.now) }
{
    let mut left = places;
    let mut at = 0;
    while left != 0 {
        let taken = take_operand(version, left % places::BASE, behind, at);
        if told::is_refused(taken) {
            return taken;
        }
        at += told::taken_of(taken);
        left /= places::BASE;
    }
    if at == behind.len() {
        return told::FIT;
    }
    told::refused_first(Reason::Size)
}
