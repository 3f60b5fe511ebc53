//! Packets as frames, by their own types: each is written where it stands, and only a Disconnect is made into a `Packet`.

ghost use Rattle.std.specs.Prelude.{◌≡◌, min};
ghost use Rattle.mqtt5_base.specs.Puts.{Writes};
ghost use Rattle.mqtt5_codec.specs.declared.packet.Packet.TheVariants as packets;
ghost use Rattle.mqtt5_codec.specs.Packets.{writing_under};
ghost use Rattle.mqtt5_session.specs.Packets.{pubcomp_of};
ghost use Rattle.mqtt5_session.specs.Replies.{made_of};
ghost use Rattle.mqtt5_drive.specs.Run.{reply_bytes};

use bytes::BytesMut;
use mqtt5_base::Error;
use mqtt5_codec::Codec;
use mqtt5_publish::{PubAck, PubComp, PubCompReason, PubRec, PubRel, Publish};
use mqtt5_session::Reply;
use mqtt5_subscribe::{Subscribe, Unsubscribe};

/// The refusal of a packet over the outgoing limit.
#[inline(never)]
fn over_limit(size: usize, max: u32) -> Error
    ensures { result ≡ Error.OutgoingPacketTooLarge (min size 4294967295) max }
{
    Error::OutgoingPacketTooLarge {
        pkt_size: u32::try_from(size).unwrap_or(u32::MAX),
        max,
    }
}

/// Writes a packet by its own type, unless it is over the codec's outgoing limit.
macro_rules! write_under_limit {
    ($codec:expr, $output:expr, $packet:expr) => {{
        if let Some(max) = $codec.max_outgoing_size {
            let size = $packet.size();
            if size > max as usize {
                return Err(over_limit(size, max));
            }
        }
        $packet.write($output)?;
        Ok(())
    }};
}

/// Appends the frame of a publish, as `Codec::write` does that of its packet: under the outgoing limit, with the same
/// errors, after which the buffer is unchanged.
pub fn put_publish(codec: &Codec, output: &mut BytesMut, publish: &Publish) -> Result<(), Error>
    ensures { Writes (λ _. tt)
        (writing_under codec.now.max_outgoing_size (packets.Publish publish.now)) result
        output.old.items output.new.items }
{
    write_under_limit!(codec, output, publish)
}

/// The same of a PubAck.
pub fn put_puback(codec: &Codec, output: &mut BytesMut, ack: &PubAck) -> Result<(), Error>
    ensures { Writes (λ _. tt) (writing_under codec.now.max_outgoing_size (packets.PubAck ack.now))
        result output.old.items output.new.items }
{
    write_under_limit!(codec, output, ack)
}

/// The same of a PubRec.
pub fn put_pubrec(codec: &Codec, output: &mut BytesMut, received: &PubRec) -> Result<(), Error>
    ensures { Writes (λ _. tt)
        (writing_under codec.now.max_outgoing_size (packets.PubRec received.now)) result
        output.old.items output.new.items }
{
    write_under_limit!(codec, output, received)
}

/// The same of a PubRel.
fn put_pubrel(codec: &Codec, output: &mut BytesMut, release: &PubRel) -> Result<(), Error>
    ensures { Writes (λ _. tt)
        (writing_under codec.now.max_outgoing_size (packets.PubRel release.now)) result
        output.old.items output.new.items }
{
    write_under_limit!(codec, output, release)
}

/// The same of a PubComp.
fn put_pubcomp(codec: &Codec, output: &mut BytesMut, completed: &PubComp) -> Result<(), Error>
    ensures { Writes (λ _. tt)
        (writing_under codec.now.max_outgoing_size (packets.PubComp completed.now)) result
        output.old.items output.new.items }
{
    write_under_limit!(codec, output, completed)
}

/// The same of a Subscribe.
pub fn put_subscribe(
    codec: &Codec,
    output: &mut BytesMut,
    subscribe: &Subscribe,
) -> Result<(), Error>
    ensures { Writes (λ _. tt)
        (writing_under codec.now.max_outgoing_size (packets.Subscribe subscribe.now)) result
        output.old.items output.new.items }
{
    write_under_limit!(codec, output, subscribe)
}

/// The same of an Unsubscribe.
pub fn put_unsubscribe(
    codec: &Codec,
    output: &mut BytesMut,
    unsubscribe: &Unsubscribe,
) -> Result<(), Error>
    ensures { Writes (λ _. tt)
        (writing_under codec.now.max_outgoing_size (packets.Unsubscribe unsubscribe.now)) result
        output.old.items output.new.items }
{
    write_under_limit!(codec, output, unsubscribe)
}

/// Appends the frame of an ack or a Disconnect that is given in short, as `Codec::write` does that of its packet: under the
/// outgoing limit, with the same errors, after which the buffer is unchanged. Appends nothing of a publish, which the session
/// has, and nothing for `Reply::Nothing`.
pub fn put_made(codec: &Codec, output: &mut BytesMut, reply: Reply) -> Result<(), Error>
    ensures { Writes (λ _. tt) (reply_bytes codec.now (made_of reply)) result output.old.items
        output.new.items }
{
    match reply {
        Reply::PubAck(id) => put_puback(codec, output, &PubAck::new(id, None)),
        Reply::PubRec(id) => put_pubrec(codec, output, &PubRec::new(id, None)),
        Reply::PubRel(id) => put_pubrel(codec, output, &PubRel::new(id, None)),
        Reply::PubComp(id, reason) => put_pubcomp(codec, output, &completed(id, reason)),
        other => put_rare(codec, output, other),
    }
}

/// The PubComp of an id, without properties.
fn completed(pkid: u16, reason: PubCompReason) -> PubComp
    ensures { packets.PubComp result ≡ pubcomp_of pkid reason }
{
    PubComp {
        pkid,
        reason,
        properties: None,
    }
}

/// The same of any such reply, by its packet.
#[inline(never)]
fn put_rare(codec: &Codec, output: &mut BytesMut, reply: Reply) -> Result<(), Error>
    ensures { Writes (λ _. tt) (reply_bytes codec.now (made_of reply)) result output.old.items
        output.new.items }
{
    let packet = reply.packet();
    let written = match &packet {
        Some(made) => codec.write(made, output),
        None => Ok(()),
    };
    drop(packet);
    written
}
