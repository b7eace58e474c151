// Standard input, read whole: a read that fails is not the end of the input.
ghost use Rattle.std.specs.Io.{ReadsAtMost};

use std::io::{ErrorKind, Read};
use std::{io, thread};

// A proved loop has to end: so often an interrupted read is tried before it counts as one that failed.
const MOST_TRIES: u64 = 1_000_000_000;

// Whether a read was only interrupted, or found nothing yet.
fn is_interrupted(error: &io::Error) -> bool {
    let kind = error.kind();
    kind == ErrorKind::Interrupted || kind == ErrorKind::WouldBlock
}

// One read, tried again where it was only interrupted.
fn read_some<R: Read>(reader: &mut R, room: &mut [u8]) -> io::Result<usize>
    ensures { ReadsAtMost result room.new }
{
    for _ in 1..MOST_TRIES {
        match reader.read(room) {
            Err(error) if is_interrupted(&error) => thread::yield_now(),
            answer => return answer,
        }
    }
    reader.read(room)
}

// Reads until the input ends, the buffer is full or a read fails: how many bytes of it stand at the front of the buffer.
pub(crate) fn read_input<R: Read>(reader: &mut R, buffer: &mut [u8]) -> io::Result<usize>
    ensures { ReadsAtMost result buffer.new }
{
    let mut done = 0;
    while done < buffer.len() {
        match read_some(reader, &mut buffer[done..])? {
            0 => break,
            more => done += more,
        }
    }
    Ok(done)
}
