//! A recorder of frames.
#![tactic(auto)]

#[cfg(test)]
mod tests;

use bytes::BytesMut;
use mqtt5_base::Error;
use mqtt5_codec::{Codec, Packet};
use std::alloc::Global;

/// Takes the whole frames at the front of the stream out, and appends their packets to the record.
pub fn record(
    alloc: Global,
    codec: &Codec,
    stream: &mut BytesMut,
    record: &mut Vec<Packet>,
) -> Result<(), Error> {
    while let Some(packet) = codec.decode(alloc, stream)? {
        record.push(packet)?;
    }
    Ok(())
}
