// The entries for C. Each is a thin hand over a proved function; include/santubeli.h has the words for a C user.
#![tactic(auto)]

ghost use Rattle.std.specs.Prelude.{◌≡◌, ◌/◌, length};
ghost use Rattle.paper.specs.Stream.{verdict};
ghost use Rattle.byte_checker.specs.Bytes.{bytes_verdict};
ghost use Rattle.reader.specs.Reading.{reading};
ghost use Rattle.santubeli.specs.Entries.{answer_of, read_answer_of, edit_answer_of, note_answer_of, write_told};
ghost use Rattle.writer.specs.Writing.{told_writing, Writes};
ghost use Rattle.notes.specs.Noted.{noted};
ghost use Rattle.edit.specs.Edit.{edited_in, buffer_after};

use edit::{Edited, Outcome};
use notes::Note;
use paper::{Reason, Refusal, Verdict};
use reader::Reading;
use records::Record;

#[repr(C)]
#[derive(Clone, Copy, Default)]
pub struct Answer {
    pub number: u32,
    pub position: usize,
    pub detail: usize,
    pub tokens: usize,
    pub instructions: usize,
}

fn answer_of(tokens: usize, verdict: Verdict) -> Answer
    ensures { result ≡ answer_of tokens verdict }
{
    match verdict {
        Ok(instructions) => Answer {
            tokens,
            instructions,
            ..Answer::default()
        },
        Err(refusal) => Answer {
            number: paper::number_of(refusal.reason),
            position: refusal.position,
            detail: refusal.detail,
            ..Answer::default()
        },
    }
}

#[unsafe(no_mangle)]
pub extern "C" fn santubeli_check(bytes: &[u8]) -> Answer
    ensures { result ≡ answer_of (length bytes.now / 4) (bytes_verdict bytes.now) }
{
    answer_of(bytes.len() / 4, byte_checker::check_bytes(bytes))
}

#[unsafe(no_mangle)]
pub extern "C" fn santubeli_check_tokens(tokens: &[u32]) -> Answer
    ensures { result ≡ answer_of (length tokens.now) (verdict tokens.now) }
{
    answer_of(tokens.len(), checker::check(tokens))
}

#[repr(C)]
#[derive(Clone, Copy)]
pub struct ReadAnswer {
    pub number: u32,
    pub position: usize,
    pub detail: usize,
    pub next: usize,
    pub instruction: Record,
}

// No record has a default: a refusal's is the reader's record of nothing.
fn read_answer_of(reading: Result<Reading, Refusal>) -> ReadAnswer
    ensures { result ≡ read_answer_of reading }
{
    match reading {
        Ok(reading) => ReadAnswer {
            number: 0,
            position: 0,
            detail: 0,
            next: reading.next,
            instruction: reading.instruction,
        },
        Err(refusal) => ReadAnswer {
            number: paper::number_of(refusal.reason),
            position: refusal.position,
            detail: refusal.detail,
            next: 0,
            instruction: records::no_record(),
        },
    }
}

#[unsafe(no_mangle)]
pub extern "C" fn santubeli_read(version: u32, tokens: &[u32], at: usize) -> ReadAnswer
    ensures { result ≡ read_answer_of (reading version tokens.now at) }
{
    read_answer_of(reader::read(version, tokens, at))
}

#[repr(C)]
#[derive(Clone, Copy, Default)]
pub struct NoteAnswer {
    pub number: u32,
    pub position: usize,
    pub detail: usize,
    pub notes: u32,
    pub at: usize,
    pub comments: usize,
    pub next: usize,
}

fn note_answer_of(noted: Result<Note, Refusal>) -> NoteAnswer
    ensures { result ≡ note_answer_of noted }
{
    match noted {
        Ok(note) => NoteAnswer {
            notes: note.notes,
            at: note.at,
            comments: note.comments,
            next: note.next,
            ..NoteAnswer::default()
        },
        Err(refusal) => NoteAnswer {
            number: paper::number_of(refusal.reason),
            position: refusal.position,
            detail: refusal.detail,
            ..NoteAnswer::default()
        },
    }
}

#[unsafe(no_mangle)]
pub extern "C" fn santubeli_note(version: u32, tokens: &[u32], at: usize) -> NoteAnswer
    ensures { result ≡ note_answer_of (noted version tokens.now at) }
{
    note_answer_of(notes::next_note(version, tokens, at))
}

#[repr(C)]
#[derive(Clone, Copy, Default)]
pub struct EditAnswer {
    pub number: u32,
    pub position: usize,
    pub detail: usize,
    pub joined: u32,
    pub tokens: usize,
}

fn edit_answer_of(edited: Outcome) -> EditAnswer
    ensures { result ≡ edit_answer_of edited }
{
    match edited {
        Ok(Edited::Joined(tokens)) => EditAnswer {
            joined: 1,
            tokens,
            ..EditAnswer::default()
        },
        Ok(Edited::Accepted(tokens)) => EditAnswer {
            tokens,
            ..EditAnswer::default()
        },
        Err(refusal) => EditAnswer {
            number: paper::number_of(refusal.reason),
            position: refusal.position,
            detail: refusal.detail,
            ..EditAnswer::default()
        },
    }
}

#[unsafe(no_mangle)]
pub extern "C" fn santubeli_edit(
    buffer: &mut [u32],
    n: usize,
    i: usize,
    j: usize,
    run: &[u32],
) -> EditAnswer
    ensures told { result ≡ edit_answer_of (edited_in buffer.old n i j run.now) }
    ensures held { buffer.new ≡ buffer_after buffer.old n i j run.now }
{
    edit_answer_of(editor::edit(buffer, n, i, j, run))
}

#[repr(C)]
#[derive(Clone, Copy, Default)]
pub struct WriteAnswer {
    pub number: u32,
    pub position: usize,
    pub next: usize,
}

fn write_answer_of(written: Result<usize, Reason>) -> WriteAnswer
    ensures { write_told result ≡ told_writing written }
{
    match written {
        Ok(next) => WriteAnswer {
            next,
            ..WriteAnswer::default()
        },
        Err(reason) => WriteAnswer {
            number: paper::number_of(reason),
            ..WriteAnswer::default()
        },
    }
}

#[unsafe(no_mangle)]
pub extern "C" fn santubeli_write(
    version: u32,
    instruction: Record,
    body: &[u32],
    buffer: &mut [u32],
    at: usize,
) -> WriteAnswer
    ensures { Writes version instruction body.now buffer.old at (write_told result) buffer.new }
{
    let written = writer::write(version, instruction, body, buffer, at);
    write_answer_of(written)
}
