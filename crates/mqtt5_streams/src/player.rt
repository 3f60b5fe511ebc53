//! A whole run over streams of bytes.

ghost use Rattle.std.specs.Prelude.{◌≡◌, ◌≢◌, ◌<◌, ◌≤◌, ◌+◌, ◌*◌, ◌⊎◌, IfOk, IfErr, Ok, Err};
ghost use Rattle.mqtt5_base.specs.declared.quality.QoS.TheVariants.{AtMostOnce, AtLeastOnce, ExactlyOnce};
ghost use Rattle.mqtt5_publish.specs.declared.publish.Publish.{Publish};
ghost use Rattle.mqtt5_codec.specs.declared.packet.Packet.TheVariants as packets;
ghost use Rattle.mqtt5_world.specs.World.{start, run_world};
ghost use Rattle.mqtt5_world.specs.Delivery.{times, stored_in, waiting_in};
ghost use Rattle.mqtt5_progress.specs.Progress.{IsIdle};
ghost use Rattle.mqtt5_streams.specs.Wire.{IsTyped};
ghost use Rattle.mqtt5_streams.specs.ByteWorld.{ByteWorld, start_bytes, run_bytes, byte_losses};
ghost use Rattle.mqtt5_progress.specs.Packets.{Every};
ghost use Rattle.mqtt5_streams.specs.Reduction.{IsTypedEvent, norms, Reduces, plain_events, AdmitsAcks, AllWritable, all_taken_on};
ghost use Rattle.mqtt5_streams.specs.Counts.{Counts};
ghost use Rattle.mqtt5_streams.specs.Arrival.{AllArrived};
ghost use Rattle.mqtt5_streams.specs.Does.{Does, IsByteReport, codec_of};

use crate::event::ByteEvent;
use crate::world::ByteWorld;
use mqtt5_base::block_known;
use mqtt5_codec::Codec;
use mqtt5_publish::Publish;
use mqtt5_session::StateError;
use mqtt5_world::Report;
use std::alloc::Global;

/// Plays events from a client that has sent nothing and a broker that has nothing of it, over two streams of bytes.
/// `limit`, at least 1, is the greatest id; `incoming` and `outgoing` are the limits of the client's codec. The first
/// fault of the codec, or of the session on a packet from the broker, ends the run: S7, S9, or the session's; S12.
pub fn play_bytes(
    alloc: Global,
    limit: u16,
    incoming: Option<u32>,
    outgoing: Option<u32>,
    events: &[ByteEvent],
) -> Result<Report, StateError>
    requires { 0 < limit }
    // All is the world's after the events.
    ensures ok { IfOk result (λ r. (w : ByteWorld)
        × (run_bytes (codec_of incoming outgoing) events.now (start_bytes limit) ≡ Ok w)
        × IsByteReport r w) }
    // The fault is the one that ends them, or memory was refused.
    ensures err { IfErr result (λ e. (e ≡ StateError.OutOfMemory)
        ⊎ (run_bytes (codec_of incoming outgoing) events.now (start_bytes limit) ≡ Err e)) }
    // A run without a fault is a run over packets, in which each delivery of bytes is as many as it completes frames.
    ensures reduction { (w : ByteWorld)
        → run_bytes (codec_of incoming outgoing) events.now (start_bytes limit) ≡ Ok w
        → Reduces (codec_of incoming outgoing) w
        (run_world (plain_events (codec_of incoming outgoing) events.now (start_bytes limit))
        (start limit)) }
    // So each content is, after norm, handed on as often as its QoS promises.
    ensures counts { (w : ByteWorld) (c : Publish)
        → run_bytes (codec_of incoming outgoing) events.now (start_bytes limit) ≡ Ok w
        → Counts c (byte_losses events.now) w }
    // A content of QoS 0 or 2 is handed on at most as often as it was accepted.
    ensures at_most_once { IfOk result (λ r. (c : Publish) → c.qos ≢ AtLeastOnce
        → times c r.handed.items ≤ times c (norms r.accepted.items)) }
    // One of QoS 1 or 2 at least as often as it was accepted and is no longer stored or waiting.
    ensures at_least_once { IfOk result (λ r. (c : Publish) → c.qos ≢ AtMostOnce
        → times c (norms r.accepted.items) ≤ times c r.handed.items + times c
        (norms (stored_in r.state.core)) + times c (norms (waiting_in r.state.core))) }
    // One of QoS 1 at most once more for each loss.
    ensures for_each_loss { IfOk result (λ r. (c : Publish) → c.qos ≡ AtLeastOnce
        → times c r.handed.items ≤ (byte_losses events.now + 1) * times c
        (norms r.accepted.items)) }
    // Where none of QoS 2 is stored or waiting it was handed on exactly as often as it was accepted.
    ensures exactly_once { IfOk result (λ r. (c : Publish) → c.qos ≡ ExactlyOnce
        → times c (norms (stored_in r.state.core)) ≡ 0
        → times c (norms (waiting_in r.state.core)) ≡ 0
        → times c r.handed.items ≡ times c (norms r.accepted.items)) }
    // Where all bytes have arrived no id is in use, and no publish waits.
    ensures arrived { IfOk result (λ r. (w : ByteWorld)
        → AllArrived (codec_of incoming outgoing) limit events.now w → IsIdle r.state.core) }
    // So one of QoS 2 was handed on exactly as often as it was accepted, and one of QoS 1 at least as often.
    ensures arrived_exactly_once { IfOk result (λ r. (w : ByteWorld)
        → AllArrived (codec_of incoming outgoing) limit events.now w → (c : Publish)
        → c.qos ≡ ExactlyOnce → times c r.handed.items ≡ times c (norms r.accepted.items)) }
    ensures arrived_at_least_once { IfOk result (λ r. (w : ByteWorld)
        → AllArrived (codec_of incoming outgoing) limit events.now w → (c : Publish)
        → c.qos ≡ AtLeastOnce → times c (norms r.accepted.items) ≤ times c r.handed.items) }
    // There is no fault where each accepted publish, with its id, can be written, and acks can be read.
    ensures answers { IfErr result (λ e. AdmitsAcks (codec_of incoming outgoing)
        → AllWritable (codec_of incoming outgoing)
        (all_taken_on (codec_of incoming outgoing) events.now (start_bytes limit))
        → e ≡ StateError.OutOfMemory) }
{
    all_known(events);
    played(alloc, limit, incoming, outgoing, events)
}

fn played(
    alloc: Global,
    limit: u16,
    incoming: Option<u32>,
    outgoing: Option<u32>,
    events: &[ByteEvent],
) -> Result<Report, StateError>
    requires { 0 < limit }
    ensures ok { IfOk result (λ r. (w : ByteWorld)
        × (run_bytes (codec_of incoming outgoing) events.now (start_bytes limit) ≡ Ok w)
        × IsByteReport r w) }
    ensures err { IfErr result (λ e. (e ≡ StateError.OutOfMemory)
        ⊎ (run_bytes (codec_of incoming outgoing) events.now (start_bytes limit) ≡ Err e)) }
{
    let codec = Codec {
        max_incoming_size: incoming,
        max_outgoing_size: outgoing,
    };
    let mut world = ByteWorld::new(alloc, limit)?;
    if let Err(fault) = world.play_all(alloc, &codec, events) {
        drop(world);
        return Err(fault);
    }
    Ok(world.report())
}

/// Says of each event what its type does.
fn all_known(events: &[ByteEvent])
    ensures { Every IsTypedEvent events.now }
{
    for event in events {
        event_known(event);
    }
}

/// Says of an event what its type does.
fn event_known(event: &ByteEvent)
    ensures { IsTypedEvent event.now }
{
    match event {
        ByteEvent::Publish(publish) => publish_known(publish),
        _other => {}
    }
}

/// Says of a publish what its type does.
fn publish_known(publish: &Publish)
    ensures { IsTyped (packets.Publish publish.now) }
{
    let _id = publish.pkid;
    block_known(&publish.properties);
}
