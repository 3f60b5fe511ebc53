//! The session on a new connection: it is taken up, or it ends.

ghost use Rattle.std.specs.Prelude.{◌≡◌, ◌⊎◌, true, false, ◌++◌, ℕ, List, [], IfOk, IfErr, OnOk, OnErr, Some, Ok, Err};
ghost use Rattle.std.specs.List.{flat_map};
ghost use Rattle.mqtt5_publish.specs.declared.pubrel.PubRelReason.TheVariants.{Success};
ghost use Rattle.mqtt5_codec.specs.declared.codec.Codec.{Codec as AnyCodec};
ghost use Rattle.mqtt5_codec.specs.declared.packet.Packet.{Packet as AnyPacket};
ghost use Rattle.mqtt5_inflight.specs.declared.error.StateError.TheVariants as faults;
ghost use Rattle.mqtt5_session.specs.Session.{Session};
ghost use Rattle.mqtt5_session.specs.Requests.{on_request};
ghost use Rattle.mqtt5_session.specs.Resuming.{resume_of};
ghost use Rattle.mqtt5_drive.specs.Run.{reply_bytes};
ghost use Rattle.mqtt5_client.specs.Again.{frames_of};
ghost use Rattle.mqtt5_client.specs.Client.{IsReady, given_back};
ghost use Rattle.mqtt5_client.specs.TakingUp.{fitting, unfitting, unacked, fitting_of, SendsFitting, NotSent, ended, Ends, TakesUp, returned, NotTakenUp};
ghost use Rattle.mqtt5_client.specs.Resending.{all_fitting, NotResent, Adds, SendsFrame, allowed_by};

use crate::again::{append, given_back};
use crate::asking::{as_publish, hand_on_own};
use crate::client::{Client, renewed};
use bytes::BytesMut;
use mqtt5_base::Error;
use mqtt5_codec::{Codec, Packet};
use mqtt5_control::{ConnAck, ConnAckProperties, ConnectReturnCode};
use mqtt5_drive::put_publish;
use mqtt5_publish::{PubRel, Publish};
use mqtt5_session::{MqttState, Request, StateError};
use std::alloc::Global;

fn as_release(id: u16) -> Request
    ensures { result ≡ Request.PubRel (record { pkid = id; reason = Success; properties = None }) }
{
    Request::PubRel(PubRel::new(id, None))
}

/// Appends the frame of a packet. The first fault is kept.
fn add_frame(codec: &Codec, frames: &mut BytesMut, packet: &Packet, fault: &mut Option<StateError>)
    ensures { Adds fault.old frames.old.items (reply_bytes codec.now (Some packet.now)) fault.new
        frames.new.items }
{
    if fault.is_some() {
        return;
    }
    if let Err(refused) = codec.write(packet, frames) {
        *fault = Some(StateError::from(refused));
    }
}

/// Asks the session, and appends the frame of its packet.
fn send_any(
    state: &mut MqttState,
    codec: &Codec,
    frames: &mut BytesMut,
    request: Request,
    at: u64,
    fault: &mut Option<StateError>,
) -> Result<(), StateError>
    ensures { SendsFrame result codec.now (on_request state.old request at) fault.old
        frames.old.items state.new fault.new frames.new.items }
{
    match state.handle_outgoing_packet(request, at) {
        Ok(Some(packet)) => {
            add_frame(codec, frames, &packet, fault);
            drop(packet);
            Ok(())
        }
        Ok(None) => Ok(()),
        Err(refused) => Err(refused),
    }
}

/// Sends a publish again, whose frame is written before the session takes it. In place of one that
/// can't be written its release is sent, and it is added to what is given back.
fn send_publish(
    state: &mut MqttState,
    codec: &Codec,
    frames: &mut BytesMut,
    publish: Publish,
    given: &mut Vec<Request>,
    at: u64,
    fault: &mut Option<StateError>,
) -> Result<(), StateError>
    ensures sent { SendsFrame result codec.now
        (on_request state.old (fitting codec.now (Request.Publish publish)) at) fault.old
        frames.old.items state.new fault.new frames.new.items }
    ensures given { OnOk result (given.new.items ≡ given.old.items ++ unfitting codec.now
        (Request.Publish publish)) }
{
    let length = frames.len();
    match put_publish(codec, frames, &publish) {
        Ok(()) => hand_on_own(state, frames, publish, at, length),
        Err(Error::OutOfMemory) => {
            drop(publish);
            Err(StateError::OutOfMemory)
        }
        Err(_refused) => {
            let release = as_release(publish.pkid);
            given.push(as_publish(publish))?;
            send_any(state, codec, frames, release, at, fault)
        }
    }
}

/// Sends one request again.
fn send_one(
    state: &mut MqttState,
    codec: &Codec,
    frames: &mut BytesMut,
    request: Request,
    given: &mut Vec<Request>,
    at: u64,
    fault: &mut Option<StateError>,
) -> Result<(), StateError>
    ensures sent { SendsFrame result codec.now (on_request state.old (fitting codec.now request) at)
        fault.old frames.old.items state.new fault.new frames.new.items }
    ensures given { OnOk result (given.new.items ≡ given.old.items ++ unfitting codec.now request) }
{
    match request {
        Request::Publish(publish) => {
            send_publish(state, codec, frames, publish, given, at, fault)
        }
        other => send_any(state, codec, frames, other, at, fault),
    }
}

/// The frames of what a session sends again. Where one can't be written, the session still takes what
/// comes after it, and its refusal goes before that fault.
fn resent(
    alloc: Global,
    state: &mut MqttState,
    codec: &Codec,
    requests: Vec<Request>,
    given: &mut Vec<Request>,
    at: u64,
) -> Result<BytesMut, StateError>
    ensures ok { IfOk result (λ b. (sent : List AnyPacket)
        × (all_fitting codec.now requests.items state.old at ≡ Ok (sent, state.new))
        × (frames_of codec.now sent ≡ Ok b.items)) }
    ensures given { OnOk result (given.new.items ≡ given.old.items ++ flat_map (unfitting codec.now)
        requests.items) }
    ensures err { IfErr result (λ e. NotResent e codec.now requests.items state.old at) }
{
    let mut frames = BytesMut::new(alloc);
    let mut fault = None;
    for request in requests {
        send_one(state, codec, &mut frames, request, given, at, &mut fault)?;
    }
    match fault {
        Some(fault) => Err(fault),
        None => Ok(frames),
    }
}

/// A ConnAck that allows what a session's last one allowed.
fn allows(alloc: Global, state: &MqttState) -> Packet
    ensures { result
        ≡ Packet.ConnAck
        (record {
          session_present = false;
          code = ConnectReturnCode.Success;
          properties = Some (allowed_by state.now.core);
        }) }
{
    let mut properties = ConnAckProperties::new(alloc);
    properties.receive_max = Some(state.max_outgoing_inflight());
    properties.topic_alias_max = Some(state.broker_topic_alias_max());
    Packet::ConnAck(ConnAck {
        session_present: false,
        code: ConnectReturnCode::Success,
        properties: Some(properties),
    })
}

/// A new session that is allowed what an old one was.
fn ended(alloc: Global, state: &MqttState, at: u64) -> Result<MqttState, StateError>
    ensures ok { IfOk result (λ s. s ≡ ended state.now at) }
    ensures err { IfErr result (λ e. e ≡ faults.OutOfMemory) }
{
    let mut new = renewed(alloc, state);
    let Ok(reply) = new.handle_incoming_packet(allows(alloc, state), at) else {
        return Err(StateError::OutOfMemory);
    };
    drop(reply);
    drop(new.pop_event());
    Ok(new)
}

impl Client {
    /// Takes the session up on a new connection, or ends it, as the ConnAck says whether the broker has it (an event's
    /// `session_present`). With it all that awaits an ack goes to the end of the output, publishes with `dup`; a publish
    /// that the broker's new limit doesn't let pass is given back, and its id released. Without it all that awaits an
    /// ack and the publish that waits for its id are given back, as by `clean`, and the session is a new one that is
    /// allowed what the ConnAck said; the bytes stand. What is given back may be asked for again. S8 as of `resume`; S1
    /// where a session ends and an event isn't taken out; S12. After an Err the client is unchanged.
    pub fn take_up(&mut self, session_present: bool, at: u64) -> Result<Vec<Request>, StateError>
        ensures ok { OnOk result (TakesUp session_present self.old at self.new) }
        ensures given { IfOk result (λ v. v.items ≡ returned session_present self.old) }
        ensures err { IfErr result (λ e. NotTakenUp session_present e self.old at) }
        ensures unchanged { OnErr result (self.new.state ≡ self.old.state) }
        ensures unsent { OnErr result (self.new.output.items ≡ self.old.output.items) }
        ensures input { self.new.input.items ≡ self.old.input.items }
        ensures codec { self.new.codec ≡ self.old.codec }
        ensures over { self.new.disconnected ≡ self.old.disconnected }
        // So bytes may be received.
        ensures ready { IsReady self.old → IsReady self.new }
    {
        if session_present {
            self.send_fitting(at)
        } else {
            self.end(at)
        }
    }

    /// Sends again what fits. It works on a copy of the session, and on one of what awaits an ack.
    fn send_fitting(&mut self, at: u64) -> Result<Vec<Request>, StateError>
        ensures ok { OnOk result (SendsFitting self.old at self.new) }
        ensures given { IfOk result (λ v. v.items ≡ returned true self.old) }
        ensures err { IfErr result (λ e. NotSent e self.old.codec self.old.state at) }
        ensures unchanged { OnErr result (self.new.state ≡ self.old.state) }
        ensures unsent { OnErr result (self.new.output.items ≡ self.old.output.items) }
        ensures kept { (self.new.input ≡ self.old.input) × (self.new.codec ≡ self.old.codec) }
        ensures over { self.new.disconnected ≡ self.old.disconnected }
    {
        let alloc = *self.input.allocator();
        let requests = self.state.unacked()?;
        let mut copy = self.state.cleaned(alloc)?;
        let mut given = Vec::new(alloc);
        let frames = resent(alloc, &mut copy, &self.codec, requests, &mut given, at)?;
        append(&mut self.output, frames)?;
        self.state = copy;
        Ok(given)
    }

    /// Ends the session.
    fn end(&mut self, at: u64) -> Result<Vec<Request>, StateError>
        ensures ok { OnOk result (Ends self.old at self.new) }
        ensures given { IfOk result (λ v. v.items ≡ returned false self.old) }
        ensures err { IfErr result (λ e. (e ≡ faults.OutOfMemory) ⊎ (e ≡ faults.InvalidState)) }
        ensures unchanged { OnErr result (self.new.state ≡ self.old.state) }
        ensures unsent { OnErr result (self.new.output.items ≡ self.old.output.items) }
        ensures kept { (self.new.input ≡ self.old.input) × (self.new.codec ≡ self.old.codec) }
        ensures over { self.new.disconnected ≡ self.old.disconnected }
    {
        if !self.state.events().is_empty() {
            return Err(StateError::InvalidState);
        }
        let alloc = *self.input.allocator();
        let requests = given_back(&self.state)?;
        self.state = ended(alloc, &self.state, at)?;
        Ok(requests)
    }
}

/// A law, which does nothing when it is called: where each publish that awaits its ack can be written, `take_up` sends
/// what `resume` sends.
pub fn fitting_law()
    ensures { (codec : AnyCodec) (s : Session) (at : ℕ)
        → flat_map (unfitting codec) (unacked s) ≡ [] → fitting_of codec s at ≡ resume_of s at }
{}
