// Checks one shader on standard input and prints a line: `accept tokens 5 instructions 1`, `refuse 9 at 3` or, where a token's layout is wrong,
// `refuse 16 at 2 bit 14`. Behind an accept stands a line for each instruction with a shape that a named driver reads otherwise, as
// `note 3 at 5 comments 3`; behind a refusal with a bit a line that says which operand it is of, as
// `token 2148483072 operand 1 place 63 instruction 1 version 4294836736`, of a DCL's usage token with ` destination 2416902144` at its end.
// Where the input cannot be read there is no verdict: a line on standard error says why, and the status is 1. So it is where the output cannot be written.
#![tactic(auto)]

mod failure;
mod fault;
mod input;

use notes::Note;
use paper::{Reason, Refusal, Verdict};
use std::io;
use std::process::ExitCode;

fn print_accepted(rt: &impl Print, tokens: usize, instructions: usize) -> io::Result<()> {
    println!(rt; "accept tokens {tokens} instructions {instructions}")
}

// Which operand it is, of a refusal with a bit. A DCL's usage token is judged by its destination, which stands behind it.
fn print_fault(rt: &impl Print, version: u32, tokens: &[u32], position: usize) -> io::Result<()> {
    let fault = fault::fault_at(version, tokens, position);
    let token = fault::token_at(tokens, position);
    let instruction = fault.instruction;
    // Where it is of no operand, both numbers are 0.
    let told = fault.operand.unwrap_or_default();
    let operand = told.number;
    let place = told.place;
    if place == places::USAGE {
        let destination = fault::token_at(tokens, position.wrapping_add(1));
        return println!(rt;
            "token {token} operand {operand} place {place} instruction {instruction} version {version} destination {destination}"
        );
    }
    println!(rt;
        "token {token} operand {operand} place {place} instruction {instruction} version {version}"
    )
}

// As many tokens as the longest lawful stream has.
fn print_decoded(rt: &impl Print, bytes: &[u8], position: usize) -> io::Result<()> {
    let mut tokens = [0u32; 16384];
    let held = byte_checker::decode(bytes, &mut tokens);
    print_fault(rt, tokens[0], &tokens[..held], position)
}

// Whether the detail of a refusal is a bit.
fn has_bit(reason: Reason) -> bool {
    matches!(
        reason,
        Reason::Reserved | Reason::Modifier | Reason::Relative
    )
}

fn print_refused(rt: &impl Print, bytes: &[u8], refusal: Refusal) -> io::Result<()> {
    let reason = refusal.reason;
    let number = paper::number_of(reason);
    let position = refusal.position;
    if has_bit(reason) {
        let bit = refusal.detail;
        println!(rt; "refuse {number} at {position} bit {bit}")?;
        return print_decoded(rt, bytes, position);
    }
    println!(rt; "refuse {number} at {position}")
}

fn print_note(rt: &impl Print, note: Note) -> io::Result<()> {
    let shapes = note.notes;
    let at = note.at;
    let comments = note.comments;
    println!(rt; "note {shapes} at {at} comments {comments}")
}

// The notes of the stream from token 1 on, which its check has accepted.
fn print_notes(rt: &impl Print, version: u32, tokens: &[u32]) -> io::Result<()> {
    let mut at = 1;
    while at < tokens.len() {
        match notes::next_note(version, tokens, at) {
            Ok(note) if note.notes != 0 => {
                print_note(rt, note)?;
                at = note.next;
            }
            _ => break,
        }
    }
    Ok(())
}

// As many tokens as the longest lawful stream has.
fn print_accepted_with_notes(rt: &impl Print, bytes: &[u8], instructions: usize) -> io::Result<()> {
    let mut tokens = [0u32; 16384];
    let held = byte_checker::decode(bytes, &mut tokens);
    print_accepted(rt, held, instructions)?;
    print_notes(rt, tokens[0], &tokens[..held])
}

fn print_verdict(rt: &impl Print, bytes: &[u8], verdict: Verdict) -> io::Result<()> {
    match verdict {
        Ok(instructions) => print_accepted_with_notes(rt, bytes, instructions),
        Err(refusal) => print_refused(rt, bytes, refusal),
    }
}

// One byte more than the longest lawful stream has: longer input fills the buffer and is LENGTH, not a verdict of what was cut off.
fn main(rt: HostRuntime) -> ExitCode {
    let mut buffer = [0u8; 65537];
    let held = match input::read_input(&mut rt.stdin(), &mut buffer) {
        Ok(held) => held,
        Err(error) => {
            failure::tell(&rt, "standard input cannot be read", error);
            return ExitCode::FAILURE;
        }
    };
    let bytes = &buffer[..held];
    if let Err(error) = print_verdict(&rt, bytes, byte_checker::check_bytes(bytes)) {
        failure::tell(&rt, "standard output cannot be written", error);
        return ExitCode::FAILURE;
    }
    ExitCode::SUCCESS
}
