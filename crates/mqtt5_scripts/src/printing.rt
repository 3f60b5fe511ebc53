//! What is printed of publishes and of faults. Printing takes no memory.

ghost use Rattle.std.specs.Prelude.{◌≤◌, length};

use mqtt5_inflight::StateError;
use mqtt5_publish::Publish;
use std::io;
use std::io::Write;

/// How many bytes are turned into digits at once.
const CHUNK: usize = 256;

/// Prints a fault by its number: S2 with its id, S7 with the number of what it holds.
pub fn write_fault<W: Write>(output: &mut W, fault: &StateError) -> io::Result<()> {
    match fault {
        StateError::Unsolicited(id) => writeln!(output, "fault S2 {id}"),
        StateError::Deserialization(error) => writeln!(output, "fault S7 E{}", error.number()),
        other => writeln!(output, "fault S{}", other.number()),
    }
}

/// Prints a publish's topic and payload.
pub fn write_message<W: Write>(output: &mut W, publish: &Publish) -> io::Result<()> {
    write_hex(output, publish.topic.as_slice())?;
    output.write_all(b" ")?;
    write_hex(output, publish.payload.as_slice())
}

/// Two digits a byte, or `-` for none.
pub fn write_hex<W: Write>(output: &mut W, bytes: &[u8]) -> io::Result<()> {
    if bytes.is_empty() {
        return output.write_all(b"-");
    }
    let mut rest = bytes;
    while !rest.is_empty() {
        let (chunk, after) = rest.split_at(rest.len().min(CHUNK));
        write_digits(output, chunk)?;
        rest = after;
    }
    Ok(())
}

fn write_digits<W: Write>(output: &mut W, chunk: &[u8]) -> io::Result<()>
    requires { length chunk.now ≤ CHUNK }
{
    let mut buffer = [0u8; 2 * CHUNK];
    let digits = &mut buffer[..2 * chunk.len()];
    hex::encode_to_slice(chunk, digits).unwrap();
    output.write_all(digits)
}
