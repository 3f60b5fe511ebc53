//! The broker's bytes, handed on in chunks, so that another may write the seconds that pass between them.

ghost use Rattle.std.specs.Prelude.{◌<◌};

use crate::timed::{END, HEAD, MOST};
use std::io;
use std::io::{ErrorKind, Read, Write};

/// Hands all on, to the end, and answers the exit status: 0; 1 where it can't be read or handed on.
pub fn run<R: Read, W: Write>(reader: &mut R, writer: &mut W) -> u8
    ensures { result < 2 }
{
    let handed = hand_on(reader, writer);
    let told = writer.write_all(&END.to_be_bytes());
    match (handed, told) {
        (Ok(()), Ok(())) => 0,
        _failed => 1,
    }
}

fn hand_on<R: Read, W: Write>(reader: &mut R, writer: &mut W) -> io::Result<()> {
    let mut room = [0; HEAD + MOST];
    for _ in 0..u64::MAX {
        match reader.read(&mut room[HEAD..]) {
            Ok(0) => return Ok(()),
            Ok(count) => hand_chunk(&mut room, count, writer)?,
            Err(error) if error.kind() == ErrorKind::Interrupted => {}
            Err(error) => return Err(error),
        }
    }
    Err(ErrorKind::TimedOut.into())
}

/// Writes a chunk of so many bytes, which stand behind the room of its head, at once.
fn hand_chunk<W: Write>(
    room: &mut [u8; HEAD + MOST],
    count: usize,
    writer: &mut W,
) -> io::Result<()> {
    let count = count.min(MOST);
    let head = (count as u16).to_be_bytes();
    room[0] = head[0];
    room[1] = head[1];
    writer.write_all(&room[..HEAD + count])
}
