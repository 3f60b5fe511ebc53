//! What is sent again on a new connection, and what is given back without one.

ghost use Rattle.std.specs.Prelude.{◌≡◌, ◌++◌, Some, IfOk, IfErr, OnOk, OnErr};
ghost use Rattle.mqtt5_inflight.specs.declared.error.StateError.TheVariants.{OutOfMemory};
ghost use Rattle.mqtt5_drive.specs.Run.{reply_bytes};
ghost use Rattle.mqtt5_drive.specs.Ways.{Replies};
ghost use Rattle.mqtt5_client.specs.Again.{frames_of, Framed};
ghost use Rattle.mqtt5_client.specs.Client.{given_back};

use bytes::BytesMut;
use mqtt5_base::copied;
use mqtt5_codec::{Codec, Packet};
use mqtt5_publish::Publish;
use mqtt5_session::{MqttState, Request, StateError};
use std::alloc::{AllocError, Global};

/// Appends the frame of a packet.
fn encode(codec: &Codec, output: &mut BytesMut, packet: &Packet) -> Result<(), StateError>
    ensures { Replies result (reply_bytes codec.now (Some packet.now)) output.old.items
        output.new.items }
{
    match codec.write(packet, output) {
        Ok(()) => Ok(()),
        Err(error) => Err(StateError::from(error)),
    }
}

/// The frames of packets, one after the other.
pub(crate) fn frames(
    alloc: Global,
    codec: &Codec,
    packets: &Vec<Packet>,
) -> Result<BytesMut, StateError>
    ensures { Framed (frames_of codec.now packets.now.items) result }
{
    let mut frames = BytesMut::new(alloc);
    for packet in packets {
        encode(codec, &mut frames, packet)?;
    }
    Ok(frames)
}

/// Puts frames behind what waits to be sent. Where nothing does and there is no room for them, they are taken as they are.
pub(crate) fn append(output: &mut BytesMut, frames: BytesMut) -> Result<(), AllocError>
    ensures ok { OnOk result (output.new.items ≡ output.old.items ++ frames.items) }
    ensures err { OnErr result (output.new.items ≡ output.old.items) }
{
    if output.is_empty() {
        // (what was sent left its room in front)
        output.clear();
        if output.capacity() < frames.len() {
            *output = frames;
            return Ok(());
        }
    }
    output.extend_from_slice(frames.as_slice())
}

/// What a session gives back.
pub(crate) fn given_back(state: &MqttState) -> Result<Vec<Request>, StateError>
    ensures ok { IfOk result (λ v. v.items ≡ given_back state.now.core) }
    ensures err { IfErr result (λ e. e ≡ OutOfMemory) }
{
    let mut requests = state.unacked()?;
    if let Some(publish) = state.collision() {
        requests.push(Request::Publish(copied(publish)?))?;
    }
    Ok(requests)
}
