//! What a request is sent as. It is written before the session takes the request, so what can't be written changes
//! nothing.

ghost use Rattle.std.specs.Prelude.{◌≡◌, ◌≢◌, Some, is_some};
ghost use Rattle.mqtt5_base.specs.declared.quality.QoS.TheVariants.{AtMostOnce};
ghost use Rattle.mqtt5_base.specs.Puts.{Writes};
ghost use Rattle.mqtt5_codec.specs.Packets.{writing_under};
ghost use Rattle.mqtt5_session.specs.Replies.{packet_of};
ghost use Rattle.mqtt5_session.specs.Requests.{id_for, next_id, on_request};
ghost use Rattle.mqtt5_drive.specs.Run.{reply_bytes};
ghost use Rattle.mqtt5_client.specs.Asked.{id_asked, subscribe_asked, bytes_asked, Takes};
ghost use Rattle.mqtt5_client.specs.Handed.{HandsOn};

use bytes::BytesMut;
use mqtt5_base::{Error, QoS};
use mqtt5_codec::{Codec, Packet};
use mqtt5_control::DisconnectReasonCode;
use mqtt5_drive::{put_made, put_puback, put_publish, put_pubrec, put_subscribe, put_unsubscribe};
use mqtt5_publish::{PingReq, Publish};
use mqtt5_session::{MqttState, Reply, Request, StateError};
use mqtt5_subscribe::{Subscribe, Unsubscribe};

/// The next id.
pub(crate) fn next_id(state: &MqttState) -> u16
    ensures { result ≡ next_id state.now.core }
{
    let limit = state.max_outgoing_inflight_upper_limit();
    let last = state.last_pkid();
    prove!(last < limit);
    last + 1
}

/// The id of a request with this id.
fn id_for(state: &MqttState, id: u16) -> u16
    ensures { result ≡ id_for state.now.core id }
{
    if id == 0 { next_id(state) } else { id }
}

/// The id that a publish gets.
fn id_asked(state: &MqttState, qos: QoS, id: u16) -> u16
    ensures { result ≡ id_asked qos state.now.core id }
{
    match qos {
        QoS::AtMostOnce => id,
        QoS::AtLeastOnce | QoS::ExactlyOnce => id_for(state, id),
    }
}

fn put_ping(codec: &Codec, output: &mut BytesMut) -> Result<(), Error>
    ensures { Writes (λ _. tt)
        (writing_under codec.now.max_outgoing_size (Packet.PingReq (record {}))) result
        output.old.items output.new.items }
{
    codec.write(&Packet::PingReq(PingReq), output)
}

/// Writes a packet under an id, and gives its own back to it.
macro_rules! under_id {
    ($put:ident, $codec:expr, $output:expr, $packet:expr, $id:expr) => {{
        let given = $packet.pkid;
        $packet.pkid = $id;
        let written = $put($codec, $output, $packet);
        $packet.pkid = given;
        written
    }};
}

/// Writes a publish under an id.
fn publish_under(
    codec: &Codec,
    output: &mut BytesMut,
    publish: &mut Publish,
    id: u16,
) -> Result<(), Error>
    ensures put { Writes (λ _. tt)
        (writing_under codec.now.max_outgoing_size
        (Packet.Publish
        (record publish.old { pkid = id }))) result output.old.items output.new.items }
    ensures same { publish.new ≡ publish.old }
{
    under_id!(put_publish, codec, output, publish, id)
}

/// Writes a Subscribe under an id; nothing of one without filters.
fn subscribe_under(
    codec: &Codec,
    output: &mut BytesMut,
    subscribe: &mut Subscribe,
    id: u16,
) -> Result<(), Error>
    ensures put { Writes (λ _. tt) (reply_bytes codec.now (subscribe_asked id subscribe.old)) result
        output.old.items output.new.items }
    ensures same { subscribe.new ≡ subscribe.old }
{
    if subscribe.filters.is_empty() {
        return Ok(());
    }
    under_id!(put_subscribe, codec, output, subscribe, id)
}

/// Writes an Unsubscribe under an id.
fn unsubscribe_under(
    codec: &Codec,
    output: &mut BytesMut,
    unsubscribe: &mut Unsubscribe,
    id: u16,
) -> Result<(), Error>
    ensures put { Writes (λ _. tt)
        (writing_under codec.now.max_outgoing_size
        (Packet.Unsubscribe
        (record unsubscribe.old { pkid = id }))) result output.old.items output.new.items }
    ensures same { unsubscribe.new ≡ unsubscribe.old }
{
    under_id!(put_unsubscribe, codec, output, unsubscribe, id)
}

/// Writes what a request is sent as; nothing of one that is never sent.
fn put(
    state: &MqttState,
    codec: &Codec,
    output: &mut BytesMut,
    request: &mut Request,
) -> Result<(), Error>
    ensures put { Writes (λ _. tt) (bytes_asked codec.now state.now.core request.old) result
        output.old.items output.new.items }
    ensures same { request.new ≡ request.old }
{
    match request {
        Request::Publish(publish) => {
            let id = id_asked(state, publish.qos, publish.pkid);
            publish_under(codec, output, publish, id)
        }
        Request::Subscribe(subscribe) => {
            subscribe_under(codec, output, subscribe, next_id(state))
        }
        Request::Unsubscribe(unsubscribe) => {
            unsubscribe_under(codec, output, unsubscribe, next_id(state))
        }
        Request::PubRel(release) => {
            let id = id_for(state, release.pkid);
            put_made(codec, output, Reply::PubRel(id))
        }
        Request::Disconnect => {
            let normal = DisconnectReasonCode::NormalDisconnection;
            put_made(codec, output, Reply::Disconnect(normal))
        }
        Request::PubAck(ack) => put_puback(codec, output, ack),
        Request::PubRec(ack) => put_pubrec(codec, output, ack),
        Request::PingReq => put_ping(codec, output),
        _other => Ok(()),
    }
}

/// Whether a reply of the session is sent.
fn is_sent(state: &MqttState, reply: Reply) -> bool
    ensures { result ≡ is_some (packet_of reply state.now) }
{
    match reply {
        Reply::Nothing => false,
        Reply::Publish(id) => state.outgoing_pub(id).is_some(),
        _other => true,
    }
}

/// The session stores a publish of QoS 1 or 2 as it is.
fn hand_on_stored(
    state: &mut MqttState,
    output: &mut BytesMut,
    publish: Publish,
    at: u64,
    length: usize,
) -> Result<(), StateError>
    requires { publish.qos ≢ AtMostOnce }
    ensures { HandsOn result (on_request state.old (Request.Publish publish) at) length state.old
        output.old.items state.new output.new.items }
{
    match state.send_own(publish, at) {
        Ok(reply) => {
            if is_sent(state, reply) {
                return Ok(());
            }
            output.truncate(length);
            Ok(())
        }
        Err(refused) => {
            output.truncate(length);
            Err(refused)
        }
    }
}

/// Hands a request on of which the session stores a copy, if it stores it.
fn hand_on_any(
    state: &mut MqttState,
    output: &mut BytesMut,
    request: Request,
    at: u64,
    length: usize,
) -> Result<(), StateError>
    ensures { HandsOn result (on_request state.old request at) length state.old output.old.items
        state.new output.new.items }
{
    match state.handle_outgoing_packet(request, at) {
        Ok(Some(sent)) => {
            drop(sent);
            Ok(())
        }
        Ok(None) => {
            output.truncate(length);
            Ok(())
        }
        Err(refused) => {
            output.truncate(length);
            Err(refused)
        }
    }
}

pub(crate) fn as_publish(publish: Publish) -> Request
    ensures { result ≡ Request.Publish publish }
{
    Request::Publish(publish)
}

/// Hands a publish on of which no copy is made: the session stores one of QoS 1 or 2 as it is.
#[inline(always)]
pub(crate) fn hand_on_own(
    state: &mut MqttState,
    output: &mut BytesMut,
    publish: Publish,
    at: u64,
    length: usize,
) -> Result<(), StateError>
    ensures { HandsOn result (on_request state.old (Request.Publish publish) at) length state.old
        output.old.items state.new output.new.items }
{
    if publish.qos == QoS::AtMostOnce {
        return hand_on_any(state, output, as_publish(publish), at, length);
    }
    hand_on_stored(state, output, publish, at, length)
}

/// Whether the session is to store a request as it is: a publish of QoS 1 or 2 of which it keeps no more memory until its
/// ack than of a copy. Texts and lists of properties may have spare room, and empty bytes may hold a block that a copy of
/// them lets go.
fn is_stored_as_it_is(request: &Request) -> bool {
    match request {
        Request::Publish(publish) => {
            publish.qos != QoS::AtMostOnce
                && publish.properties.is_none()
                && !publish.topic.is_empty()
                && !publish.payload.is_empty()
        }
        _other => false,
    }
}

/// Hands a request on that is stored as it is: a publish, so the other arm is never taken.
fn hand_on_as_it_is(
    state: &mut MqttState,
    output: &mut BytesMut,
    request: Request,
    at: u64,
    length: usize,
) -> Result<(), StateError>
    ensures { HandsOn result (on_request state.old request at) length state.old output.old.items
        state.new output.new.items }
{
    match request {
        Request::Publish(publish) => hand_on_own(state, output, publish, at, length),
        other => hand_on_any(state, output, other, at, length),
    }
}

/// Hands a request on to the session. What the output has behind this length goes where nothing is sent.
fn hand_on(
    state: &mut MqttState,
    output: &mut BytesMut,
    request: Request,
    at: u64,
    length: usize,
) -> Result<(), StateError>
    ensures { HandsOn result (on_request state.old request at) length state.old output.old.items
        state.new output.new.items }
{
    if is_stored_as_it_is(&request) {
        hand_on_as_it_is(state, output, request, at, length)
    } else {
        hand_on_any(state, output, request, at, length)
    }
}

/// Takes a request, once its packet is written.
pub(crate) fn send_request(
    state: &mut MqttState,
    codec: &Codec,
    output: &mut BytesMut,
    request: Request,
    at: u64,
) -> Result<(), StateError>
    ensures { Takes result codec.now request at state.old output.old.items state.new
        output.new.items }
{
    let length = output.len();
    let mut request = request;
    match put(state, codec, output, &mut request) {
        Ok(()) => hand_on(state, output, request, at, length),
        Err(refused) => {
            drop(request);
            Err(StateError::from(refused))
        }
    }
}
