//! The frames of a stored session.

ghost use Rattle.std.specs.Prelude.{◌≡◌, [], OnOk, IfErr, is_some};
ghost use Rattle.std.specs.Option.{option_copied};
ghost use Rattle.mqtt5_codec.specs.Norms.{norm};
ghost use Rattle.mqtt5_store.specs.Answers.{Gives};
ghost use Rattle.mqtt5_store.specs.Saving.{CantPut, CantPutOne, CantPutWaiting};
ghost use Rattle.mqtt5_store.specs.Format.{Appends, ArePackets, IsPacket, IsWaiting, packet_at, packets_at, waiting_at};

use crate::error::StoreError;
use bytes::BytesMut;
use mqtt5_base::{Error, copied};
use mqtt5_codec::{Packet, frame_laws};
use mqtt5_publish::Publish;
use std::alloc::Global;

/// Takes the packet at the front out. `Cut` or `Frame`.
pub(super) fn read_packet(alloc: Global, stream: &mut BytesMut) -> Result<Packet, StoreError>
    ensures { Gives (λ p. (p, stream.new.items)) result (packet_at stream.old.items) }
{
    frame_laws();
    match Packet::read(alloc, stream, None) {
        Ok(packet) => Ok(packet),
        Err(error) => Err(StoreError::from(error)),
    }
}

/// Takes so many packets out.
pub(super) fn read_packets(
    alloc: Global,
    count: u64,
    stream: &mut BytesMut,
) -> Result<Vec<Packet>, StoreError>
    ensures { Gives (λ ps. (ps.items, stream.new.items)) result
        (packets_at count [] stream.old.items) }
{
    let mut packets = Vec::new(alloc);
    for _i in 0..count {
        match read_packet(alloc, stream) {
            Ok(packet) => packets.push(packet)?,
            Err(fault) => {
                drop(packets);
                return Err(fault);
            }
        }
    }
    Ok(packets)
}

/// Takes the publish that waits out, where one does.
pub(super) fn read_waiting(
    alloc: Global,
    waits: bool,
    stream: &mut BytesMut,
) -> Result<Option<Publish>, StoreError>
    ensures { Gives (λ w. (w, stream.new.items)) result (waiting_at waits stream.old.items) }
{
    if !waits {
        return Ok(None);
    }
    match read_packet(alloc, stream)? {
        Packet::Publish(publish) => Ok(Some(publish)),
        other => {
            drop(other);
            Err(StoreError::NotStored)
        }
    }
}

/// Appends a packet's frame.
pub(super) fn put_packet(packet: &Packet, out: &mut BytesMut) -> Result<(), Error>
    ensures ok { OnOk result (Appends (λ bytes. IsPacket bytes (norm packet.now)) out.old.items
        out.new.items) }
    ensures err { IfErr result (λ f. CantPut packet.now f) }
{
    frame_laws();
    packet.reads_back();
    packet.write(out, None)?;
    Ok(())
}

/// Appends the frames of packets.
pub(super) fn put_packets(packets: &Vec<Packet>, out: &mut BytesMut) -> Result<(), Error>
    ensures ok { OnOk result (Appends (λ bytes. ArePackets bytes packets.now.items) out.old.items
        out.new.items) }
    ensures err { IfErr result (λ f. CantPutOne packets.now.items f) }
{
    for packet in packets {
        match put_packet(packet, out) {
            Ok(()) => {}
            Err(refused) => return Err(refused),
        }
    }
    Ok(())
}

/// Whether a publish waits.
pub(super) fn is_waiting(waiting: Option<&Publish>) -> bool
    ensures { result ≡ is_some (option_copied waiting.entry) }
{
    waiting.is_some()
}

/// Appends the frame of the publish that waits, where one does.
pub(super) fn put_waiting(waiting: Option<&Publish>, out: &mut BytesMut) -> Result<(), Error>
    ensures ok { OnOk result (Appends (λ bytes. IsWaiting bytes (option_copied waiting.entry))
        out.old.items out.new.items) }
    ensures err { IfErr result (λ f. CantPutWaiting (option_copied waiting.entry) f) }
{
    let Some(publish) = waiting else {
        return Ok(());
    };
    let packet = as_packet(copied(publish)?);
    let written = put_packet(&packet, out);
    drop(packet);
    written
}

fn as_packet(publish: Publish) -> Packet
    ensures { result ≡ Packet.Publish publish }
{
    Packet::Publish(publish)
}
