// The writer: document 01, "Records". One record, written into the part of a token buffer that starts at a given place.
#![tactic(auto)]

ghost use Rattle.std.specs.Prelude.{◌≡◌, [], ◌∷◌, ◌++◌, ◌+◌, ◌*◌, ◌^◌, ◌≤◌, ◌<◌, eqb, leb, length, get_or};
ghost use Rattle.std.proofs.lemmas.List.Edits.{sets};
ghost use Rattle.paper.specs.Notation.{pick};
ghost use Rattle.paper.specs.Places.{is_destination};
ghost use Rattle.paper.specs.Instruction.{judged};
ghost use Rattle.places.specs.Places.{place_by, decoded};
ghost use Rattle.records.specs.Record.{operand_count, predicate_slot, no_operand};
ghost use Rattle.record_tokens.specs.Tokens.{token_of, middle_of, operand_tokens, row_tokens, instruction_token};
ghost use Rattle.writer.specs.Same.{same_operand};
ghost use Rattle.writer.specs.Buffer.{word};
ghost use Rattle.writer.specs.Row.{most_encoded, row_number};
ghost use Rattle.writer.specs.Laid.{raw_fits, destination_fits, source_fits, relative_fits, relative_none, fits, array_fits, says_fields, bare_fits, bare_token, is_whole, PutIf};
ghost use Rattle.writer.specs.Writing.{told_writing, Writes};
ghost use Rattle.writer.specs.Decided.{Encodes, room, content_after, writing_in, content_in};

use paper::{Reason, Version};
use records::{Operand, Record};

// With its first token a comment is no longer than the longest stream.
const LONGEST_COMMENT: usize = paper::MOST_TOKENS - 1;

// No instruction but a comment has more tokens than its first one and two for each operand.
const MOST_ENCODED: usize = 1 + 2 * records::OPERANDS;

// The bit of an instruction token that says predicated.
const MARK: u32 = 0x1000_0000;

// An unused place is zero.
fn is_unused(operand: Operand) -> bool
    ensures { result ≡ same_operand no_operand operand }
{
    Operand::default() == operand
}

// Whether an operand's fields are as reading gives them: a raw one's, a destination's, a source's, and those of its relative token. By `&`:
// with `&&` the real mix of vs_2_0 is written in 191 instructions a token, with `&` in 184.
fn raw_fits(operand: Operand) -> bool
    ensures { result ≡ raw_fits operand }
{
    records::raw_operand(operand.raw) == operand
}

fn destination_fits(operand: Operand) -> bool
    ensures { result ≡ destination_fits operand }
{
    (operand.number < 0x800)
        & (operand.kind < 32)
        & (operand.relative < 2)
        & (operand.mask < 16)
        & (operand.result < 8)
        & (operand.shift < 16)
        & (operand.swizzle == 0)
        & (operand.modifier == 0)
        & (operand.raw == 0)
}

fn source_fits(operand: Operand) -> bool
    ensures { result ≡ source_fits operand }
{
    (operand.number < 0x800)
        & (operand.kind < 32)
        & (operand.relative < 2)
        & (operand.swizzle < 0x100)
        & (operand.modifier < 16)
        & (operand.mask == 0)
        & (operand.result == 0)
        & (operand.shift == 0)
        & (operand.raw == 0)
}

fn own_fits(place: u64, operand: Operand) -> bool
    ensures { result ≡ pick (is_destination (place_by place)) (destination_fits operand) (source_fits operand) }
{
    if places::is_destination(place) {
        return destination_fits(operand);
    }
    source_fits(operand)
}

fn relative_fits(operand: Operand) -> bool
    ensures { result ≡ relative_fits operand }
{
    (operand.relative_number < 0x800)
        & (operand.relative_kind < 32)
        & (operand.relative_swizzle < 0x100)
}

fn relative_none(operand: Operand) -> bool
    ensures { result ≡ relative_none operand }
{
    (operand.relative_number == 0) & (operand.relative_kind == 0) & (operand.relative_swizzle == 0)
}

// A token of these fields, cut to 32 bits. No sum of fields passes 64 bits, whatever they are.
fn token_of(number: u32, kind: u32, relative: u32, middle: u64) -> u32
    requires { middle < 2 ^ 42 }
    ensures { result ≡ word (token_of number kind relative middle) }
{
    let kind = kind as u64;
    let token = number as u64
        + 0x800 * (kind / 8)
        + 0x2000 * relative as u64
        + 0x1_0000 * middle
        + 0x1000_0000 * (kind % 8)
        + 0x8000_0000;
    (token % 0x1_0000_0000) as u32
}

fn operand_token(operand: Operand) -> u32
    ensures { result ≡ word (token_of operand.number operand.kind operand.relative (middle_of operand)) }
{
    let middle = operand.mask as u64
        + operand.swizzle as u64
        + 0x10 * operand.result as u64
        + 0x100 * (operand.modifier as u64 + operand.shift as u64);
    token_of(operand.number, operand.kind, operand.relative, middle)
}

fn relative_token(operand: Operand) -> u32
    ensures { result ≡ word (token_of operand.relative_number operand.relative_kind 0 operand.relative_swizzle) }
{
    token_of(
        operand.relative_number,
        operand.relative_kind,
        0,
        operand.relative_swizzle as u64,
    )
}

// The first token of a record whose operands take so many tokens; where the version states no size its bits are zero.
fn first_token(version: Version, instruction: &Record, size: usize) -> u32
    requires { size < 2 ^ 4 }
    ensures { result ≡ word (instruction_token version instruction.now size) }
{
    let stated = if versions::has_sizes(version) {
        size
    } else {
        0
    };
    let token = instruction.opcode as u64
        + 0x1_0000 * instruction.controls as u64
        + 0x100_0000 * stated as u64
        + 0x1000_0000 * instruction.predicated as u64
        + 0x4000_0000 * instruction.coissue as u64;
    (token % 0x1_0000_0000) as u32
}

fn put_token(room: &mut [u32], token: u32)
    requires { 1 ≤ length room.old }
    ensures { room.new ≡ sets room.old 0 (token ∷ []) }
{
    room[0] = token;
}

// An operand at the front of the room: its token, and at a free place its relative token in the remainder, which is lent on. How many tokens
// it takes, if its fields are as reading gives them.
fn put_operand(room: &mut [u32], place: u64, operand: Operand) -> Option<usize>
    requires { 2 ≤ length room.old }
    ensures { PutIf (fits (place_by place) operand) (operand_tokens (place_by place) operand) room.old result room.new }
{
    if places::is_raw(place) {
        if !raw_fits(operand) {
            return None;
        }
        room[0] = operand.raw;
        return Some(1);
    }
    if !own_fits(place, operand) {
        return None;
    }
    if places::is_free(place) & (operand.relative == 1) {
        if !relative_fits(operand) {
            return None;
        }
        room[0] = operand_token(operand);
        put_token(&mut room[1..], relative_token(operand));
        return Some(2);
    }
    if !relative_none(operand) {
        return None;
    }
    room[0] = operand_token(operand);
    Some(1)
}

// The operands of a row of places at the front of the room, those in token order one after the other, and the predicate's where the row has
// it: each is lent the remainder that the ones before it leave. How many tokens they take, if each operand's fields are as reading gives
// them and each unused place is zero.
fn put_row(room: &mut [u32], row: u64, instruction: &Record) -> Option<usize>
    requires { (length (decoded row) ≤ operand_count) × (2 * operand_count ≤ length room.old) }
    ensures { PutIf (array_fits (decoded row) (eqb instruction.now.predicated 1) instruction.now.operands) (row_tokens (decoded row) instruction.now.operands (get_or instruction.now.operands predicate_slot no_operand)) room.old result room.new }
{
    let mut left = row;
    let mut next = 0;
    let mut held = 0;
    // The places are the digits of one number: there is no slice to go over.
    while left != 0 {
        let place = left % places::BASE;
        let predicate = places::is_predicate(place);
        let slot = if predicate {
            records::PREDICATE_SLOT
        } else {
            held
        };
        let taken = put_operand(&mut room[next..], place, instruction.operands[slot])?;
        next += taken;
        if !predicate {
            held += 1;
        }
        left /= places::BASE;
    }
    let marked = instruction.predicated == 1;
    if !(marked | is_unused(instruction.operands[records::PREDICATE_SLOT])) {
        return None;
    }
    for slot in held..records::PREDICATE_SLOT {
        if !is_unused(instruction.operands[slot]) {
            return None;
        }
    }
    Some(next)
}

// The places of an opcode of this shape, and the predicate's where a record is marked.
fn row_of(shape: u64, marked: bool) -> u64
    ensures { result ≡ row_number shape marked }
{
    if marked {
        return instruction_token::places_of(shape, MARK);
    }
    instruction_token::places_of(shape, 0)
}

// A comment's first token, or END, at the front of the room, for a record that has nothing but its opcode and its length. How many tokens
// there are before the body that the record is lent, if there is such a record and the body's length agrees.
fn encode_bare(room: &mut [u32], opcode: u32, size: u32, lent: usize) -> Option<usize>
    requires { 1 ≤ length room.old }
    ensures { PutIf (bare_fits opcode size lent) (bare_token opcode size ∷ []) room.old result room.new }
{
    if lent != size as usize {
        return None;
    }
    if opcode == paper::COMMENT {
        if LONGEST_COMMENT < lent {
            return None;
        }
        room[0] = paper::COMMENT + 0x1_0000 * size;
        return Some(1);
    }
    if (opcode == paper::END) & (lent == 0) {
        room[0] = paper::END;
        return Some(1);
    }
    None
}

// Whether the fields of a first token are those of a record.
fn is_first(token: u32, instruction: &Record) -> bool
    ensures { result ≡ says_fields token instruction.now.opcode instruction.now.controls instruction.now.predicated instruction.now.coissue }
{
    (token % 0x1_0000 == instruction.opcode)
        & (token / 0x1_0000 % 0x100 == instruction.controls)
        & (token / 0x1000_0000 % 2 == instruction.predicated)
        & (token / 0x4000_0000 % 2 == instruction.coissue)
}

// Whether the judge lets these tokens pass as one instruction.
fn is_whole(version: Version, tokens: &[u32]) -> bool
    ensures { result ≡ is_whole (judged version tokens.now) (length tokens.now) }
{
    let told = stretches::judge_at(version, tokens, 0, 0);
    if told::is_refused(told) {
        return false;
    }
    told::size_of(told) + 1 == tokens.len()
}

// What stands before the body that a record is lent, at the front of the room: a comment's first token, or the tokens of any other record.
// How many there are, if reading yields such a record and the body's length agrees: its fields are as reading gives them, and its tokens are
// judged good.
fn encode(room: &mut [u32], known: Version, instruction: &Record, lent: usize) -> Option<usize>
    requires { most_encoded ≤ length room.old }
    ensures { Encodes known instruction.now lent result room.new }
{
    let shape = opcodes::shape_of(known, instruction.opcode);
    let row = row_of(shape, instruction.predicated == 1);
    let size = put_row(&mut room[1..], row, instruction)?;
    if shape == 0 {
        let bare = (instruction.controls == 0)
            & (instruction.predicated == 0)
            & (instruction.coissue == 0);
        if !bare {
            return None;
        }
        return encode_bare(room, instruction.opcode, instruction.extent, lent);
    }
    let first = first_token(known, instruction, size);
    if !is_first(first, instruction) {
        return None;
    }
    if !((instruction.extent == 0) & (lent == 0)) {
        return None;
    }
    room[0] = first;
    let count = 1 + size;
    if !is_whole(known, &room[..count]) {
        return None;
    }
    Some(count)
}

// Tokens in a room of their own. `copy_from_slice` would ask the C library for memmove, and C users are promised that the library asks for
// memcpy and memset alone (include/santubeli.h).
fn copy(room: &mut [u32], tokens: &[u32])
    requires { length tokens.now ≡ length room.old }
    ensures { room.new ≡ tokens.now }
{
    for (k, token) in tokens.iter().enumerate() {
        room[k] = *token;
    }
}

// Tokens at the front of the room, and those behind them in the remainder, which is lent on.
fn put(room: &mut [u32], tokens: &[u32], behind: &[u32])
    requires { length tokens.now + length behind.now ≤ length room.old }
    ensures { room.new ≡ sets room.old 0 (tokens.now ++ behind.now) }
{
    let (front, remainder) = room.split_at_mut(tokens.len());
    front.copy_from_slice(tokens);
    // Most records have no body: a call that copies nothing takes longer than this test.
    if !behind.is_empty() {
        copy(&mut remainder[..behind.len()], behind);
    }
}

fn fits(count: usize, at: usize, room: usize) -> bool
    ensures { result ≡ leb (at + count) room }
{
    at <= room && count <= room - at
}

// Tokens and those behind them, written into the part of the buffer that starts at a place, if they fit.
fn place(tokens: &[u32], behind: &[u32], buffer: &mut [u32], at: usize) -> Result<usize, Reason>
    ensures { (result ≡ room (tokens.now ++ behind.now) buffer.old at) × (buffer.new ≡ content_after result (tokens.now ++ behind.now) buffer.old at) }
{
    let count = tokens.len() + behind.len();
    if !fits(count, at, buffer.len()) {
        return Err(Reason::Room);
    }
    put(&mut buffer[at..], tokens, behind);
    Ok(at + count)
}

fn write_known(
    known: Version,
    instruction: &Record,
    body: &[u32],
    buffer: &mut [u32],
    at: usize,
) -> Result<usize, Reason>
    ensures { (result ≡ writing_in known instruction.now body.now buffer.old at) × (buffer.new ≡ content_in known instruction.now body.now buffer.old at) }
{
    let mut tokens = [0; MOST_ENCODED];
    let Some(count) = encode(&mut tokens, known, instruction, body.len()) else {
        return Err(Reason::Record);
    };
    place(&tokens[..count], body, buffer, at)
}

// The record, written in the version that this token names into the part of the buffer that starts at a place; a comment with the body that
// is lent beside it. The next place, or why nothing was written.
pub fn write(
    version: u32,
    instruction: Record,
    body: &[u32],
    buffer: &mut [u32],
    at: usize,
) -> Result<usize, Reason>
    ensures { Writes version instruction body.now buffer.old at (told_writing result) buffer.new }
{
    let Some(known) = versions::version_of(version) else {
        return Err(Reason::Version);
    };
    write_known(known, &instruction, body, buffer, at)
}
