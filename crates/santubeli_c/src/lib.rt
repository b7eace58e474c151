// The entries as a static library for C, include/santubeli.h. Each calls the function of its name in `santubeli`, and promises what that one does.
#![tactic(auto)]

ghost use Rattle.std.specs.Prelude.{◌≡◌, ◌/◌, length};
ghost use Rattle.paper.specs.Stream.{verdict};
ghost use Rattle.byte_checker.specs.Bytes.{bytes_verdict};
ghost use Rattle.reader.specs.Reading.{reading};
ghost use Rattle.santubeli.specs.Entries.{answer_of, read_answer_of, edit_answer_of, note_answer_of, write_told};
ghost use Rattle.writer.specs.Writing.{Writes};
ghost use Rattle.notes.specs.Noted.{noted};
ghost use Rattle.edit.specs.Edit.{edited_in, buffer_after};

use records::Record;
use santubeli::{Answer, EditAnswer, NoteAnswer, ReadAnswer, WriteAnswer};

#[unsafe(no_mangle)]
pub extern "C" fn santubeli_check(bytes: &[u8]) -> Answer
    ensures { result ≡ answer_of (length bytes.now / 4) (bytes_verdict bytes.now) }
{
    santubeli::santubeli_check(bytes)
}

#[unsafe(no_mangle)]
pub extern "C" fn santubeli_check_tokens(tokens: &[u32]) -> Answer
    ensures { result ≡ answer_of (length tokens.now) (verdict tokens.now) }
{
    santubeli::santubeli_check_tokens(tokens)
}

#[unsafe(no_mangle)]
pub extern "C" fn santubeli_read(version: u32, tokens: &[u32], at: usize) -> ReadAnswer
    ensures { result ≡ read_answer_of (reading version tokens.now at) }
{
    santubeli::santubeli_read(version, tokens, at)
}

#[unsafe(no_mangle)]
pub extern "C" fn santubeli_note(version: u32, tokens: &[u32], at: usize) -> NoteAnswer
    ensures { result ≡ note_answer_of (noted version tokens.now at) }
{
    santubeli::santubeli_note(version, tokens, at)
}

#[unsafe(no_mangle)]
pub extern "C" fn santubeli_edit(
    buffer: &mut [u32],
    n: usize,
    i: usize,
    j: usize,
    run: &[u32],
) -> EditAnswer
    ensures told { result ≡ edit_answer_of (edited_in buffer.old n i j run.now) }
    ensures held { buffer.new ≡ buffer_after buffer.old n i j run.now }
{
    santubeli::santubeli_edit(buffer, n, i, j, run)
}

#[unsafe(no_mangle)]
pub extern "C" fn santubeli_write(
    version: u32,
    instruction: Record,
    body: &[u32],
    buffer: &mut [u32],
    at: usize,
) -> WriteAnswer
    ensures { Writes version instruction body.now buffer.old at (write_told result) buffer.new }
{
    santubeli::santubeli_write(version, instruction, body, buffer, at)
}
