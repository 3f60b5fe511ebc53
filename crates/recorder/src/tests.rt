//! Whole frames, half a frame and a bad one.

use crate::record;
use bytes::BytesMut;
use mqtt5_base::Error;
use mqtt5_codec::{Codec, Packet};
use std::alloc::Global;
use std::test::Fail;

/// How the recording ended, how many packets were recorded, and how many bytes are left.
fn recorded(alloc: Global, bytes: &[u8]) -> Result<(Result<(), Error>, usize, usize), Error> {
    let codec = Codec {
        max_incoming_size: Some(16),
        max_outgoing_size: None,
    };
    let mut stream = BytesMut::new(alloc);
    stream.extend_from_slice(bytes)?;
    let mut packets: Vec<Packet> = Vec::new(alloc);
    let ended = record(alloc, &codec, &mut stream, &mut packets);
    Ok((ended, packets.len(), stream.len()))
}

/// A PingReq, a PubAck of id 1, a PubRec of id 2 of which a byte is missing, and a frame over the limit (MQTT 5.0 sections
/// 2.1, 3.4, 3.5 and 3.12).
#[test]
fn records_whole_frames(rt: HostRuntime) -> Result<(), Fail> {
    let alloc = rt.alloc();
    let whole = recorded(alloc, b"\xC0\x00\x40\x02\x00\x01")?;
    assert_eq!(rt; whole, (Ok(()), 2, 0));
    let half = recorded(alloc, b"\xC0\x00\x40\x02\x00\x01\x50\x02\x00")?;
    assert_eq!(rt; half, (Ok(()), 2, 3));
    let bad = recorded(alloc, b"\xC0\x00\x00\x00\xC0\x00")?;
    assert_eq!(rt; bad, (Err(Error::InvalidPacketType(0)), 1, 2));
    let over = Error::PayloadSizeLimitExceeded {
        pkt_size: 17,
        max: 16,
    };
    assert_eq!(rt; recorded(alloc, b"\xC0\x00\x30\x11")?, (Err(over), 1, 2));
    Ok(())
}
