//! A client between a reader and a writer.

ghost use Rattle.std.specs.Prelude.{◌≡◌, ◌≢◌, ◌<◌, ℕ, List, [], ◌++◌, length, IfOk, IfErr, OnOk, OnErr};
ghost use Rattle.std.specs.IoError.{error_kind};
ghost use Rattle.std.specs.Io.KnownBytes.{Appends, Consumes, IsAtEnd, Keeps};
ghost use Rattle.std.specs.declared.io.Error.{Error as IoError};
ghost use Rattle.mqtt5_client.specs.Client.{IsReady, codec_since};
ghost use Rattle.mqtt5_pipe.specs.declared.error.PipeError.TheVariants as faults;
ghost use Rattle.mqtt5_pipe.specs.Pipe.{Carries, CarriesOne, IsRetried};
ghost use Rattle.mqtt5_pipe.specs.Ends.{ends};

use crate::error::PipeError;
use bytes::BytesMut;
use mqtt5_client::{Client, StateError};
use std::alloc::AllocError;
use std::io;
use std::io::{ErrorKind, Read, Write};

/// For how many bytes a turn makes room, where there is little.
const ROOM: usize = 8192;

/// With how much room a turn reads at least.
const LEAST: usize = 1024;

/// Writes the client's output whole, and flushes the writer: what a request or an earlier failure left there. The writer
/// is called again after a short write and after an interruption; `Write` is its failure, also where it takes nothing
/// (`WriteZero`).
pub fn write_output<W: Write>(client: &mut Client, writer: &mut W) -> Result<(), PipeError>
    // What was written is gone from the front of the output, and nothing else is changed.
    ensures written { (sent : List ℕ) × Appends (W.contents writer.old) (W.contents writer.new) sent
        × (client.old.output.items ≡ sent ++ client.new.output.items) }
    ensures kept { client.new ≡ record client.old { output = client.new.output } }
    ensures whole { OnOk result (client.new.output.items ≡ []) }
    // So another call may follow.
    ensures ready { IsReady client.old → IsReady client.new }
    ensures fault { IfErr result (λ fault. (error : IoError) × (fault ≡ faults.Write error)) }
    ensures retried { IfErr result IsRetried }
{
    match write_out(&mut client.output, writer) {
        Ok(()) => Ok(()),
        Err(error) => Err(PipeError::Write(error)),
    }
}

/// Takes a turn at a moment: reads what is there into the client's input, as much as that has room for, has it taken,
/// and writes the output as `write_output` does. Answers how many bytes were read, 0 at the end of the stream. A
/// ConnAck of success says how long a packet may be that is sent from the next call on. The reader is called again
/// after an interruption. `Read` is its failure, or want of memory for the room (`OutOfMemory`), before which nothing
/// was read. `Session` is a fault as of `drive`, once all that was answered before is written, `Write` as of
/// `write_output`, and `Unanswered` both.
pub fn turn<R: Read, W: Write>(
    client: &mut Client,
    at: u64,
    reader: &mut R,
    writer: &mut W,
) -> Result<usize, PipeError>
    requires ready { IsReady client.old }
    // What was written is the run's output over what was read.
    ensures carried { CarriesOne result at client.old (R.remaining reader.old)
        (R.remaining reader.new) (W.contents writer.old) (W.contents writer.new) client.new }
    ensures end { IfOk result (λ count. count ≡ 0 → IsAtEnd (R.remaining reader.new)) }
    // The limit is that of the ConnAcks among the events of this call.
    ensures codec { client.new.codec ≡ codec_since client.old client.new }
    // Bytes that come ask for no Disconnect.
    ensures over { client.new.disconnected ≡ client.old.disconnected }
    // So another call may follow; after a fault of the session no input is left.
    ensures ready { IsReady client.new }
    ensures retried { IfErr result IsRetried }
{
    let told = client.state.events().len();
    let turned = turn_once(client, at, reader, writer);
    client.take_limit(told);
    turned
}

/// Takes turns, all at one moment, to the end of the stream. The first fault of a turn ends it; `Read` also
/// (`TimedOut`) after 2^64 - 1 turns. The limit of a ConnAck holds from the next call on.
pub fn run_to_end<R: Read, W: Write>(
    client: &mut Client,
    at: u64,
    reader: &mut R,
    writer: &mut W,
) -> Result<(), PipeError>
    requires ready { IsReady client.old }
    // All that was written is the run's output over all that was read, as if that were one piece.
    ensures carried { Carries result at client.old (R.remaining reader.old)
        (R.remaining reader.new) (W.contents writer.old) (W.contents writer.new) client.new }
    ensures end { OnOk result (IsAtEnd (R.remaining reader.new)) }
    // The limit is that of the ConnAcks among the events of this call.
    ensures codec { client.new.codec ≡ codec_since client.old client.new }
    // Bytes that come ask for no Disconnect.
    ensures over { client.new.disconnected ≡ client.old.disconnected }
    // So another call may follow; after a fault of the session no input is left.
    ensures ready { IsReady client.new }
    ensures retried { IfErr result IsRetried }
{
    let told = client.state.events().len();
    let ended = turns_to_end(client, at, reader, writer);
    client.take_limit(told);
    ended
}

/// Takes turns to the end of the stream, and no limit.
fn turns_to_end<R: Read, W: Write>(
    client: &mut Client,
    at: u64,
    reader: &mut R,
    writer: &mut W,
) -> Result<(), PipeError>
    requires ready { IsReady client.old }
    ensures carried { Carries result at client.old (R.remaining reader.old)
        (R.remaining reader.new) (W.contents writer.old) (W.contents writer.new) client.new }
    ensures end { OnOk result (IsAtEnd (R.remaining reader.new)) }
    ensures codec { client.new.codec ≡ client.old.codec }
    ensures over { client.new.disconnected ≡ client.old.disconnected }
    ensures ready { IsReady client.new }
    ensures retried { IfErr result IsRetried }
{
    for _ in 0..u64::MAX {
        if turn_once(client, at, reader, writer)? == 0 {
            return Ok(());
        }
    }
    Err(PipeError::Read(ErrorKind::TimedOut.into()))
}

/// Takes a turn, and no limit.
fn turn_once<R: Read, W: Write>(
    client: &mut Client,
    at: u64,
    reader: &mut R,
    writer: &mut W,
) -> Result<usize, PipeError>
    requires ready { IsReady client.old }
    ensures carried { CarriesOne result at client.old (R.remaining reader.old)
        (R.remaining reader.new) (W.contents writer.old) (W.contents writer.new) client.new }
    ensures end { IfOk result (λ count. count ≡ 0 → IsAtEnd (R.remaining reader.new)) }
    ensures codec { client.new.codec ≡ client.old.codec }
    ensures over { client.new.disconnected ≡ client.old.disconnected }
    ensures ready { IsReady client.new }
    ensures retried { IfErr result IsRetried }
{
    let count = match read_input(&mut client.input, reader) {
        Ok(count) => count,
        Err(error) => return Err(PipeError::Read(error)),
    };
    let taken = client.take_input(at);
    let written = write_out(&mut client.output, writer);
    join_faults(taken, written)?;
    Ok(count)
}

/// Reads into the input, once there is room.
fn read_input<R: Read>(input: &mut BytesMut, reader: &mut R) -> io::Result<usize>
    ensures bytes { IfOk result (λ n. (came : List ℕ)
        × Consumes (R.remaining reader.old) (R.remaining reader.new) came
        × (input.new.items ≡ input.old.items ++ came)
        × (n ≡ length came)) }
    ensures end { IfOk result (λ n. n ≡ 0 → IsAtEnd (R.remaining reader.new)) }
    ensures err { OnErr result (Keeps (R.remaining reader.old) (R.remaining reader.new)) }
    ensures kept { OnErr result (input.new.items ≡ input.old.items) }
    ensures retried { IfErr result (λ e. error_kind e ≢ ErrorKind.Interrupted) }
{
    make_room(input)?;
    read_once(input, reader)
}

fn make_room(input: &mut BytesMut) -> Result<(), AllocError>
    ensures items { input.new.items ≡ input.old.items }
    ensures room { OnOk result (0 < input.new.spare) }
{
    if input.capacity() - input.len() >= LEAST {
        return Ok(());
    }
    input.reserve(ROOM)?;
    Ok(())
}

/// Reads once into the room of the input, and again after an interruption.
fn read_once<R: Read>(input: &mut BytesMut, reader: &mut R) -> io::Result<usize>
    ensures bytes { IfOk result (λ n. (came : List ℕ)
        × Consumes (R.remaining reader.old) (R.remaining reader.new) came
        × (input.new.items ≡ input.old.items ++ came)
        × (n ≡ length came)) }
    ensures end { IfOk result (λ n. 0 < input.old.spare → n ≡ 0
        → IsAtEnd (R.remaining reader.new)) }
    ensures err { OnErr result (Keeps (R.remaining reader.old) (R.remaining reader.new)) }
    ensures kept { OnErr result (input.new.items ≡ input.old.items) }
    ensures retried { IfErr result (λ e. error_kind e ≢ ErrorKind.Interrupted) }
{
    for _ in 0..u64::MAX {
        match input.read_from(reader) {
            Ok(count) => return Ok(count),
            Err(error) if error.kind() == ErrorKind::Interrupted => {}
            Err(error) => return Err(error),
        }
    }
    Err(ErrorKind::TimedOut.into())
}

/// Writes the output from its front until it is empty, and flushes the writer. What was written is gone from it.
fn write_out<W: Write>(output: &mut BytesMut, writer: &mut W) -> io::Result<()>
    ensures written { (sent : List ℕ) × Appends (W.contents writer.old) (W.contents writer.new) sent
        × (output.old.items ≡ sent ++ output.new.items) }
    ensures whole { OnOk result (output.new.items ≡ []) }
    ensures retried { IfErr result (λ e. error_kind e ≢ ErrorKind.Interrupted) }
{
    for _ in 0..u64::MAX {
        if output.is_empty() {
            return flush(writer);
        }
        match writer.write(output.as_slice()) {
            Ok(0) => return Err(ErrorKind::WriteZero.into()),
            Ok(count) => output.advance(count),
            Err(error) if error.kind() == ErrorKind::Interrupted => {}
            Err(error) => return Err(error),
        }
    }
    Err(ErrorKind::TimedOut.into())
}

/// Flushes, and again after an interruption.
fn flush<W: Write>(writer: &mut W) -> io::Result<()>
    ensures kept { Keeps (W.contents writer.old) (W.contents writer.new) }
    ensures retried { IfErr result (λ e. error_kind e ≢ ErrorKind.Interrupted) }
{
    for _ in 0..u64::MAX {
        match writer.flush() {
            Ok(()) => return Ok(()),
            Err(error) if error.kind() == ErrorKind::Interrupted => {}
            Err(error) => return Err(error),
        }
    }
    Err(ErrorKind::TimedOut.into())
}

fn join_faults(taken: Result<(), StateError>, written: io::Result<()>) -> Result<(), PipeError>
    ensures { result ≡ ends taken written }
{
    match (taken, written) {
        (Ok(()), Ok(())) => Ok(()),
        (Ok(()), Err(error)) => Err(PipeError::Write(error)),
        (Err(fault), Ok(())) => Err(PipeError::Session(fault)),
        (Err(fault), Err(error)) => Err(PipeError::Unanswered(fault, error)),
    }
}
