//! Which memory a client keeps: of what a publish was made of, and as room of its output.

use super::{add_bytes, publish_hi};
use bytes::{Bytes, BytesMut};
use mqtt5_base::{Error, QoS};
use mqtt5_client::{Client, Request, StateError};
use mqtt5_publish::{Publish, PublishProperties};
use std::alloc::{AllocError, Global};
use std::test::Fail;

/// The first bytes of a block, which hold it.
fn part_of(block: &Bytes, len: usize) -> Result<Bytes, AllocError> {
    let mut part = block.clone()?;
    part.truncate(len);
    Ok(part)
}

/// A publish of QoS 1 with bytes of a block in this place.
fn publish_with(alloc: Global, place: &str, part: Bytes) -> Result<Publish, Error> {
    let mut publish = publish_hi(alloc, QoS::AtLeastOnce)?;
    match place {
        "payload" => publish.payload = part,
        "topic" => publish.topic = part,
        _data => {
            let mut properties = PublishProperties::new(alloc);
            properties.correlation_data = Some(part);
            publish.properties = Some(properties);
        }
    }
    Ok(publish)
}

/// A client that awaits the ack of a publish with so many bytes of a block in this place.
fn awaiting(alloc: Global, block: &Bytes, place: &str, len: usize) -> Result<Client, StateError> {
    let mut client = Client::new(alloc, 10, false)?;
    let publish = publish_with(alloc, place, part_of(block, len)?)?;
    client.request(Request::Publish(publish), 1)?;
    Ok(client)
}

/// Whether a client that awaits the ack of such a publish holds the block.
fn holds(alloc: Global, place: &str, len: usize) -> Result<bool, StateError> {
    let block = Bytes::copy_from_slice(alloc, &[0x78; 2000])?;
    let client = awaiting(alloc, &block, place, len)?;
    let held = client.state.inflight() == 1 && !block.is_unique();
    drop(client);
    Ok(held)
}

/// Bytes that are there are shared with the caller until the ack; those that aren't hold no block.
#[test]
fn blocks(rt: HostRuntime) -> Result<(), Fail> {
    for place in ["payload", "topic", "correlation data"] {
        assert!(rt; holds(rt.alloc(), place, 2)?, "two bytes as {place}");
        assert!(rt; !holds(rt.alloc(), place, 0)?, "no bytes as {place}");
    }
    Ok(())
}

/// An output that has room for so many bytes and is full of pings (3.12).
fn full_output(alloc: Global, room: usize) -> Result<BytesMut, AllocError> {
    let mut output = BytesMut::with_capacity(alloc, room)?;
    for _ in 0..room / 2 {
        output.extend_from_slice(b"\xC0\x00")?;
    }
    Ok(output)
}

/// Adds the output of a client after a `resume` of one publish, into an output that was full and of which so many bytes
/// weren't sent; answers whether its room is that of before.
fn resumes(alloc: Global, room: usize, left: usize, text: &mut String) -> Result<bool, StateError> {
    let mut client = Client::new(alloc, 10, false)?;
    let publish = publish_hi(alloc, QoS::AtLeastOnce)?;
    client.request(Request::Publish(publish), 1)?;
    client.output = full_output(alloc, room)?;
    let before = client.output.capacity();
    client.sent(room.saturating_sub(left));
    client.resume(2)?;
    add_bytes(alloc, client.output(), text)?;
    Ok(client.output.capacity() == before)
}

/// A publish of "hi" to "a/b" that is sent again, under the first id (3.3).
const AGAIN: &str = "3A0A0003612F620001006869";

/// Whether a `resume` leaves the bytes that weren't sent, and the publish behind them.
fn is_behind(alloc: Global, room: usize, left: usize) -> Result<bool, StateError> {
    let mut text = String::new(alloc);
    let _same = resumes(alloc, room, left, &mut text)?;
    let before = if left == 0 { "=" } else { "=C000" };
    Ok(text.strip_prefix(before) == Some(AGAIN))
}

/// The bytes are the same whether the output has room for them, had it before what was sent, or never had it.
#[test]
fn resumed_bytes(rt: HostRuntime) -> Result<(), Fail> {
    for room in [2, 12, 14, 16_384] {
        for left in [0, 2] {
            assert!(rt;
                is_behind(rt.alloc(), room, left)?,
                "room {room}, left {left}"
            );
        }
    }
    Ok(())
}

/// An output of which all was sent keeps its room, where the frames fit into it.
#[test]
fn room_is_kept(rt: HostRuntime) -> Result<(), Fail> {
    for room in [12, 16_384] {
        let mut text = String::new(rt.alloc());
        let same = resumes(rt.alloc(), room, 0, &mut text)?;
        assert!(rt; same, "room {room}");
    }
    Ok(())
}
