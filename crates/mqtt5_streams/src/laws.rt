//! What holds of every run over streams of bytes.

ghost use Rattle.std.specs.Prelude.{◌≡◌, ◌<◌, ◌≤◌, ℕ, List, Ok};
ghost use Rattle.mqtt5_base.specs.declared.quality.QoS.TheVariants.{AtLeastOnce, ExactlyOnce};
ghost use Rattle.mqtt5_publish.specs.declared.publish.Publish.{Publish};
ghost use Rattle.mqtt5_codec.specs.declared.codec.Codec.{Codec};
ghost use Rattle.mqtt5_world.specs.World.{start, run_world};
ghost use Rattle.mqtt5_world.specs.Delivery.{times};
ghost use Rattle.mqtt5_streams.specs.declared.event.ByteEvent.{ByteEvent};
ghost use Rattle.mqtt5_streams.specs.Wire.{IsWire};
ghost use Rattle.mqtt5_streams.specs.ByteWorld.{ByteWorld, start_bytes, run_bytes, byte_losses};
ghost use Rattle.mqtt5_progress.specs.Packets.{Every};
ghost use Rattle.mqtt5_streams.specs.Reduction.{IsTypedEvent, norms, Reduces, plain_events, AdmitsAcks, AllWritable, all_taken_on};
ghost use Rattle.mqtt5_streams.specs.Counts.{Counts};
ghost use Rattle.mqtt5_streams.specs.Arrival.{AllArrived, SettledBytes};

/// A law, which does nothing when it is called: what delivery over bytes needs of the codec.
pub fn wire_law()
    ensures { IsWire }
{}

/// A law, which does nothing when it is called: a run over bytes that has no fault is a run over packets, in which each
/// delivery of bytes is as many deliveries of packets as it completes frames. `limit` is the greatest id.
pub fn reduction_law()
    ensures { (codec : Codec) (limit : ℕ) → limit < 65536
        → (events : List ByteEvent) (w : ByteWorld) → Every IsTypedEvent events
        → run_bytes codec events (start_bytes limit) ≡ Ok w
        → Reduces codec w
        (run_world (plain_events codec events (start_bytes limit)) (start limit)) }
{}

/// A law, which does nothing when it is called: so each content is handed on as often as its QoS promises.
pub fn counts_law()
    ensures { (codec : Codec) (limit : ℕ) → limit < 65536
        → (events : List ByteEvent) (w : ByteWorld) (c : Publish) → Every IsTypedEvent events
        → run_bytes codec events (start_bytes limit) ≡ Ok w
        → Counts c (byte_losses events) w }
{}

/// A law, which does nothing when it is called: a run has no fault where each publish that it accepts, with its id, can be
/// written under the outgoing limit, and the incoming limit admits an ack.
pub fn answers_law()
    ensures { (codec : Codec) (limit : ℕ) → limit < 65536 → (events : List ByteEvent)
        → AdmitsAcks codec → Every IsTypedEvent events
        → AllWritable codec (all_taken_on codec events (start_bytes limit))
        → (w : ByteWorld) × (run_bytes codec events (start_bytes limit) ≡ Ok w) }
{}

/// A law, which does nothing when it is called: what is done once all bytes have arrived, after a run that has no fault.
pub fn arrival_law()
    // No reader keeps a byte, no id is in use, no publish waits, and the broker waits for no release.
    ensures settled { (codec : Codec) (limit : ℕ) → limit < 65536
        → (events : List ByteEvent) (w : ByteWorld) → Every IsTypedEvent events
        → AllArrived codec limit events w → SettledBytes w }
    // A content of QoS 2 was, after norm, handed on exactly as often as it was accepted.
    ensures exactly_once { (codec : Codec) (limit : ℕ) → limit < 65536
        → (events : List ByteEvent) (w : ByteWorld) → Every IsTypedEvent events
        → AllArrived codec limit events w → (c : Publish) → c.qos ≡ ExactlyOnce
        → times c w.broker.handed ≡ times c (norms w.accepted) }
    // One of QoS 1 at least as often.
    ensures at_least_once { (codec : Codec) (limit : ℕ) → limit < 65536
        → (events : List ByteEvent) (w : ByteWorld) → Every IsTypedEvent events
        → AllArrived codec limit events w → (c : Publish) → c.qos ≡ AtLeastOnce
        → times c (norms w.accepted) ≤ times c w.broker.handed }
{}
