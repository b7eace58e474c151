// The line on standard error that says why there is no verdict.
use std::io;
use std::io::Write;

// As much of the system's words as is told.
const MOST_BYTES: usize = 256;

// How std begins the number of the system's error, which stands behind the words for it.
const NUMBER: &str = " (os error ";

// The words for an error, without its number.
fn words_of<'a>(error: io::Error, room: &'a mut [u8; MOST_BYTES]) -> &'a str {
    let mut rest = &mut room[..];
    let _ = write!(rest, "{error}");
    let left = rest.len();
    let text = str::from_utf8(&room[..MOST_BYTES.saturating_sub(left)]).unwrap_or("");
    match text.split_once(NUMBER) {
        Some((words, _)) => words,
        None => text,
    }
}

// What failed, and why. Where standard error cannot be written either, there is nobody to tell.
pub(crate) fn tell(rt: &impl Eprint, what: &str, error: io::Error) {
    let mut room = [0u8; MOST_BYTES];
    let words = words_of(error, &mut room);
    let _ = eprintln!(rt; "shader_check: {what}: {words}");
}
