//! Packets read, written and cloned.

use crate::frames::vector;
use crate::telling::{TrialError, after, answer, may};
use bytes::BytesMut;
use mqtt5_base::Error;
use mqtt5_codec::Packet;
use std::alloc::Global;
use std::io::Write;

/// What follows the frame in a stream, and what stands in a buffer.
const OTHER: u8 = 0xAA;

/// The packet of a vector.
fn packet(alloc: Global, name: &str) -> Result<Packet, Error> {
    let mut stream = BytesMut::new(alloc);
    stream.extend_from_slice(vector(name))?;
    Packet::read(alloc, &mut stream, None)
}

/// A buffer that holds a byte, or more, and has no room for another.
pub fn full_buffer(alloc: Global) -> Result<BytesMut, Error> {
    let mut buffer = BytesMut::new(alloc);
    buffer.extend_from_slice(&[OTHER])?;
    let capacity = buffer.capacity();
    buffer.resize(capacity, OTHER)?;
    Ok(buffer)
}

fn read_stream<W: Write>(
    alloc: Global,
    stream: &mut BytesMut,
    frame: &[u8],
    output: &mut W,
) -> Result<(), TrialError> {
    stream.extend_from_slice(frame)?;
    stream.extend_from_slice(&[OTHER])?;
    may(output, &stream.as_slice())?;
    may(output, &[OTHER])?;
    answer(output, Packet::read(alloc, stream, None))?;
    after(output, &stream.as_slice())
}

/// Reads a vector with a byte behind it. A refusal may leave the stream as it is, or take the frame out.
pub fn read<W: Write>(alloc: Global, name: &str, output: &mut W) -> Result<(), TrialError> {
    let mut stream = BytesMut::new(alloc);
    let told = read_stream(alloc, &mut stream, vector(name), output);
    drop(stream);
    told
}

fn write_told<W: Write>(
    packet: &Packet,
    buffer: &mut BytesMut,
    output: &mut W,
) -> Result<(), TrialError> {
    may(output, &buffer.as_slice())?;
    answer(output, packet.write(buffer, None))?;
    after(output, &buffer.as_slice())
}

fn write_packet<W: Write>(
    alloc: Global,
    packet: &Packet,
    output: &mut W,
) -> Result<(), TrialError> {
    let mut buffer = full_buffer(alloc)?;
    let told = write_told(packet, &mut buffer, output);
    drop(buffer);
    told
}

/// Writes the packet of a vector. A refusal leaves the buffer.
pub fn write<W: Write>(alloc: Global, name: &str, output: &mut W) -> Result<(), TrialError> {
    let packet = packet(alloc, name)?;
    let told = write_packet(alloc, &packet, output);
    drop(packet);
    told
}

fn copy_told<W: Write>(packet: &Packet, output: &mut W) -> Result<(), TrialError> {
    may(output, packet)?;
    answer(output, packet.clone().map_err(Error::from))?;
    after(output, packet)
}

/// Clones the packet of a vector.
pub fn copy<W: Write>(alloc: Global, name: &str, output: &mut W) -> Result<(), TrialError> {
    let packet = packet(alloc, name)?;
    let told = copy_told(&packet, output);
    drop(packet);
    told
}
