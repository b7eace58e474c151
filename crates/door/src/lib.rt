// The door: a lawful instruction of the common kind is passed by a few tests against the row of its opcode. Whatever is not passed goes to the judge,
// which alone refuses.
#![tactic(auto)]

mod quick;

ghost use Rattle.std.specs.Prelude.{◌≡◌, ℕ, ◌+◌, ◌-◌, ◌≤◌, ◌∷◌, IfSome, length, drop};
ghost use Rattle.paper.specs.Places.{Types, destination, source};
ghost use Rattle.paper.specs.Instruction.{relative_token, operand, operands};
ghost use Rattle.paper.specs.Versions.{has_coissue};
ghost use Rattle.uniform.specs.Uniform.{sources};
ghost use Rattle.told.specs.Numbered.{judged_number};
ghost use Rattle.instruction.specs.Shown.{judged_in};
ghost use Rattle.door.specs.Door.{took_in, is_fit, Meant, Asked, passed};

use paper::Version;
use uniform::Row;

// The class of a plain instruction.
const PLAIN: u64 = 1;

// How many tokens an operand takes whose relative token is sought at `at` of those behind the instruction token, if it is good.
fn take_relative(version: Version, behind: &[u32], at: usize) -> Option<usize>
    ensures few { IfSome result (λ taken. taken ≤ 2) }
    ensures took { (offset : ℕ) → result ≡ took_in (relative_token version offset (drop at behind.now)) }
{
    tokens::judge_relative(version, *behind.get(at)?)
        .is_ok()
        .then_some(2)
}

// How many tokens the destination takes, which is first and has these types, if it is good.
fn take_written(version: Version, types: u32, behind: &[u32]) -> Option<usize>
    ensures few { IfSome result (λ taken. taken ≤ 2) }
    ensures took { (written : Types) → Meant version (destination written) types → (offset : ℕ) → result ≡ took_in (operand version (destination written) offset behind.now) }
{
    let token = *behind.first()?;
    if !tokens::good_written(version, types, token) {
        return None;
    }
    if token / 0x2000 % 2 == 0 {
        return Some(1);
    }
    take_relative(version, behind, 1)
}

// The same of the source at `at`. Most are plain.
fn take_read(version: Version, types: u32, behind: &[u32], at: usize) -> Option<usize>
    ensures few { IfSome result (λ taken. taken ≤ 2) }
    ensures took { (read : Types) → Meant version (source read) types → (offset : ℕ) → result ≡ took_in (operand version (source read) offset (drop at behind.now)) }
{
    let token = *behind.get(at)?;
    if tokens::plain_source(token) {
        return versions::type_in(types, token).then_some(1);
    }
    if !tokens::good_read(version, types, token) {
        return None;
    }
    if token / 0x2000 % 2 == 0 {
        return Some(1);
    }
    if versions::marked_sources(version) {
        return Some(1);
    }
    take_relative(version, behind, at + 1)
}

// Whether these tokens are the operands of a row, a destination and sources, and no token more.
fn fits(version: Version, row: Row, behind: &[u32]) -> bool
    ensures { (d s : Types) → Meant version (destination d) row.written → Meant version (source s) row.read → result ≡ is_fit (operands version (destination d ∷ sources (row.count - 1) s) 1 behind.now) }
{
    let Some(mut at) = take_written(version, row.written, behind) else {
        return false;
    };
    for _ in 1..row.count {
        let Some(taken) = take_read(version, row.read, behind, at) else {
            return false;
        };
        at += taken;
    }
    at == behind.len()
}

// Whether bit 30 of a first token may be one: in the versions that have a shift scale.
fn has_coissue(version: Version) -> bool
    ensures { result ≡ has_coissue version }
{
    versions::has_shift_scale(version)
}

// What is asked of the tokens behind a first one: a row of operands, and how many tokens they claim.
#[derive(Clone, Copy)]
struct Wanted {
    claim: u32,
    row: Row,
}

// Nothing is asked where the instruction is not of the common kind.
fn asked_by(version: Version, first: u32) -> Option<Wanted>
    ensures { Asked version first result }
{
    let opcode = instruction_token::opcode_of(first);
    if versions::has_sizes(version) {
        if !instruction_token::has_zeros(first) {
            return None;
        }
        let row = Row {
            count: uniform::free_count(version, opcode)?,
            written: versions::free_destination_types(version),
            read: versions::free_source_types(version),
        };
        return Some(Wanted {
            claim: first / 0x100_0000,
            row,
        });
    }
    if !instruction_token::unsized_laid(has_coissue(version), first) {
        return None;
    }
    let row = uniform::first_row(version, opcode)?;
    Some(Wanted {
        claim: row.count,
        row,
    })
}

// What is told of a good instruction of the common kind.
pub fn pass(version: Version, first: u32, behind: &[u32]) -> Option<u64>
    ensures { result ≡ passed version first behind.now }
{
    let wanted = asked_by(version, first)?;
    let claimed = behind.get(..wanted.claim as usize)?;
    fits(version, wanted.row, claimed).then_some(told::yes(wanted.claim, PLAIN))
}

// What is told of the instruction whose first token this is, as the judge tells it. Most that are good are told of by a few tests.
pub fn tell(version: Version, first: u32, behind: &[u32], beyond: usize) -> u64
    ensures { result ≡ judged_number (judged_in version first behind.now (length behind.now + beyond)) }
{
    if let Some(told) = quick::tell(version, first, behind) {
        return told;
    }
    if let Some(told) = pass(version, first, behind) {
        return told;
    }
    instruction::judge_first(version, first, behind, beyond)
}
