//! What is asked of the sessions at both ends of a connection.

ghost use Rattle.std.specs.Prelude.{◌≡◌, ◌++◌, is_ok, IfOk, IfErr, OnOk, OnErr};
ghost use Rattle.std.specs.Option.{option_to_list};
ghost use Rattle.mqtt5_inflight.specs.declared.event.Request.TheVariants as requests;
ghost use Rattle.mqtt5_session.specs.Requests.{on_request};
ghost use Rattle.mqtt5_session.specs.Packets.{on_packet};
ghost use Rattle.mqtt5_session.specs.Replies.{packet_of};
ghost use Rattle.mqtt5_session.specs.Resuming.{resume_of};
ghost use Rattle.mqtt5_session.specs.Ledger.{kept_by};
ghost use Rattle.mqtt5_network.specs.Connection.{reply_in, connected, sent_in};

use mqtt5_base::copied;
use mqtt5_codec::Packet;
use mqtt5_publish::Publish;
use mqtt5_session::{MqttState, Reply, Request, StateError};
use mqtt5_world::taken_back;
use std::alloc::{AllocError, Global};
use std::collections::VecDeque;

/// Asks a session for something: whether it accepted it, and its reply. S12, which leaves it as it was.
pub fn request(
    state: &mut MqttState,
    request: Request,
) -> Result<(bool, Option<Packet>), StateError>
    ensures accepted { IfOk result (λ a. a.0 ≡ is_ok (on_request state.old request 0).0) }
    ensures state { OnOk result (state.new ≡ (on_request state.old request 0).1) }
    ensures reply { IfOk result (λ a. option_to_list a.1
        ≡ reply_in (on_request state.old request 0).0) }
    ensures err { IfErr result (λ e. e ≡ StateError.OutOfMemory) }
    ensures left { OnErr result (state.new ≡ state.old) }
{
    match state.handle_outgoing_packet(request, 0) {
        Ok(reply) => Ok((true, reply)),
        Err(StateError::OutOfMemory) => Err(StateError::OutOfMemory),
        Err(_) => Ok((false, None)),
    }
}

/// Asks a session for a publish, and puts its reply on a way: whether it accepted it.
pub fn ask(
    state: &mut MqttState,
    publish: Publish,
    way: &mut VecDeque<Packet>,
) -> Result<bool, StateError>
    ensures accepted { IfOk result (λ accepted. accepted
        ≡ is_ok (on_request state.old (requests.Publish publish) 0).0) }
    ensures state { OnOk result
        (state.new ≡ (on_request state.old (requests.Publish publish) 0).1) }
    ensures reply { OnOk result (way.new.items
        ≡ way.old.items ++ reply_in (on_request state.old (requests.Publish publish) 0).0) }
    ensures err { IfErr result (λ e. e ≡ StateError.OutOfMemory) }
{
    let (accepted, reply) = request(state, Request::Publish(publish))?;
    send(way, reply)?;
    Ok(accepted)
}

/// A session takes a packet, and its reply, if there is one, goes on a way.
pub fn take(
    state: &mut MqttState,
    packet: Packet,
    way: &mut VecDeque<Packet>,
) -> Result<(), StateError>
    ensures state { OnOk result (state.new ≡ (on_packet state.old packet 0).1) }
    ensures reply { OnOk result
        (way.new.items ≡ way.old.items ++ reply_in (on_packet state.old packet 0).0) }
    ensures err { IfErr result (λ e. e ≡ StateError.OutOfMemory) }
{
    // (the reply may be the publish that waits: `take_any` hands it over, and `send_stored` would copy it)
    if state.collision().is_some() {
        return take_any(state, packet, way);
    }
    match state.hear_packet(packet, 0) {
        Ok(reply) => {
            send_reply(state, reply, way)?;
            Ok(())
        }
        Err(StateError::OutOfMemory) => Err(StateError::OutOfMemory),
        Err(_) => Ok(()),
    }
}

/// The same, whatever the reply is.
fn take_any(
    state: &mut MqttState,
    packet: Packet,
    way: &mut VecDeque<Packet>,
) -> Result<(), StateError>
    ensures state { OnOk result (state.new ≡ (on_packet state.old packet 0).1) }
    ensures reply { OnOk result
        (way.new.items ≡ way.old.items ++ reply_in (on_packet state.old packet 0).0) }
    ensures err { IfErr result (λ e. e ≡ StateError.OutOfMemory) }
{
    match state.handle_incoming_packet(packet, 0) {
        Ok(reply) => {
            send(way, reply)?;
            Ok(())
        }
        Err(StateError::OutOfMemory) => Err(StateError::OutOfMemory),
        Err(_) => Ok(()),
    }
}

/// A session learns the other side's receive maximum on a new connection.
pub fn connect(
    state: &mut MqttState,
    alloc: Global,
    receive_max: Option<u16>,
) -> Result<(), StateError>
    ensures ok { OnOk result (state.new ≡ connected receive_max state.old) }
    ensures err { IfErr result (λ e. e ≡ StateError.OutOfMemory) }
{
    match state.handle_incoming_packet(taken_back(alloc, receive_max), 0) {
        Ok(_) => Ok(()),
        Err(StateError::OutOfMemory) => Err(StateError::OutOfMemory),
        Err(_) => Ok(()),
    }
}

/// What a session sends again on a new connection.
pub fn take_up(state: &mut MqttState, alloc: Global) -> Result<VecDeque<Packet>, StateError>
    ensures kept { OnOk result (state.new ≡ kept_by state.old (resume_of state.old 0)) }
    ensures sent { IfOk result (λ way. way.items ≡ sent_in (resume_of state.old 0)) }
    ensures err { IfErr result (λ e. e ≡ StateError.OutOfMemory) }
{
    match state.resume(0) {
        Ok(packets) => Ok(VecDeque::from(packets)),
        Err(StateError::OutOfMemory) => Err(StateError::OutOfMemory),
        Err(_) => Ok(VecDeque::new(alloc)),
    }
}

/// Puts a reply at the end of a way, if there is one.
pub fn send(way: &mut VecDeque<Packet>, reply: Option<Packet>) -> Result<(), AllocError>
    ensures { OnOk result (way.new.items ≡ way.old.items ++ option_to_list reply) }
{
    match reply {
        Some(packet) => {
            if let Err(refused) = way.reserve(1) {
                drop(packet);
                return Err(refused);
            }
            way.push_back_reserved(packet);
            Ok(())
        }
        None => Ok(()),
    }
}

/// Puts the packet of a reply at the end of a way, if there is one.
fn send_reply(state: &MqttState, reply: Reply, way: &mut VecDeque<Packet>) -> Result<(), AllocError>
    ensures { OnOk result
        (way.new.items ≡ way.old.items ++ option_to_list (packet_of reply state.now)) }
{
    match reply {
        Reply::Nothing => Ok(()),
        Reply::Publish(id) => send_stored(state, id, way),
        other => send(way, other.packet()),
    }
}

/// Puts the publish that awaits its ack under an id at the end of a way. (`take` never comes here: while a publish waits, it
/// leaves each packet to `take_any`, and otherwise none is answered by a publish. The clause of `send_reply` asks for it.)
fn send_stored(state: &MqttState, id: u16, way: &mut VecDeque<Packet>) -> Result<(), AllocError>
    ensures { OnOk result (way.new.items
        ≡ way.old.items ++ option_to_list (packet_of (Reply.Publish id) state.now)) }
{
    match state.outgoing_pub(id) {
        Some(publish) => {
            way.reserve(1)?;
            way.push_back_reserved(Packet::Publish(copied(publish)?));
            Ok(())
        }
        None => Ok(()),
    }
}
