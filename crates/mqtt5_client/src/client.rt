//! A client between the bytes that come in and those that go out.

ghost use Rattle.std.specs.Bool.{Decides};
ghost use Rattle.std.specs.Prelude.{◌≡◌, ◌≢◌, ◌<◌, ◌⊎◌, ℕ, true, false, List, [], ◌∷◌, ◌++◌, take, drop, slice_get, Some, Ok, IsOk, IfOk, IfErr, OnOk, OnErr};
ghost use Rattle.mqtt5_base.specs.declared.error.Error.{Error};
ghost use Rattle.mqtt5_codec.specs.Packets.{packet_writing};
ghost use Rattle.mqtt5_codec.specs.Codecs.{no_limits};
ghost use Rattle.mqtt5_inflight.specs.Errors.{state_error};
ghost use Rattle.mqtt5_inflight.specs.declared.error.StateError.{StateError as Fault};
ghost use Rattle.mqtt5_inflight.specs.declared.error.StateError.TheVariants as faults;
ghost use Rattle.mqtt5_codec.specs.declared.packet.Packet.TheVariants as packets;
ghost use Rattle.mqtt5_session.specs.Session.{fresh, Sends};
ghost use Rattle.mqtt5_session.specs.Requests.{next_id, out_disconnect, out_auth};
ghost use Rattle.mqtt5_drive.specs.declared.run.Input.TheVariants as inputs;
ghost use Rattle.mqtt5_drive.specs.declared.run.Step.{Step};
ghost use Rattle.mqtt5_drive.specs.Run.{piece};
ghost use Rattle.mqtt5_client.specs.declared.client.Client.{Client};
ghost use Rattle.mqtt5_client.specs.Client.{IsReady, asking, disconnects, Fed, Runs, Fails, codec_since, given_back};
ghost use Rattle.mqtt5_client.specs.Asked.{bytes_asked, NotAsked};
ghost use Rattle.mqtt5_drive.specs.Limit.{codec_after};
ghost use Rattle.mqtt5_client.specs.Connecting.{connect_packet, opened, IsRefused};
ghost use Rattle.mqtt5_client.specs.Again.{SendsAgain, Refuses};
ghost use Rattle.mqtt5_client.specs.Said.{on_said, IsSaid, IsUnsaid, NotSaid};

use crate::again::{append, frames, given_back};
use crate::asking::{next_id, send_request};
use crate::connecting::{connect_frame, incoming_limit};
use bytes::BytesMut;
use mqtt5_codec::{Codec, Packet};
use mqtt5_control::{Auth, Disconnect};
use mqtt5_drive::{empty_needs_more, take_input, take_limit, take_piece};
use mqtt5_options::MqttOptions;
use mqtt5_session::{Event, MqttState, Request, StateError};
use std::alloc::Global;

/// A client: bytes that came in and requests are given to it, and bytes to send and events taken out.
///
/// A connection begins with `connect`. Once the ConnAck's event says that the broker has the session, `resume`
/// sends again what the last connection left. For a connection with clean start call `clean` before `connect`.
#[derive(Debug, Drop)]
pub struct Client {
    /// The session.
    pub state: MqttState,
    /// The limits on packets. `connect` and a ConnAck set them.
    pub codec: Codec,
    /// The bytes of a frame that isn't whole yet.
    pub input: BytesMut,
    /// What isn't sent yet.
    pub output: BytesMut,
    /// Whether a Disconnect was asked for on this connection, behind which nothing is (3.14.4).
    pub disconnected: bool,
}

impl Client {
    /// A client in which nothing happened, without limits on packets. `limit`, at least 1, is the greatest packet
    /// identifier, and so the most publishes without an ack at a time. Takes no memory, and is always Ok.
    pub fn new(alloc: Global, limit: u16, manual_acks: bool) -> Result<Client, StateError>
        requires { 0 < limit }
        ensures always { IsOk result }
        ensures state { IfOk result (λ c. c.state ≡ fresh limit manual_acks) }
        ensures codec { IfOk result (λ c. c.codec ≡ no_limits) }
        ensures empty { IfOk result (λ c. (c.input.items ≡ []) × (c.output.items ≡ [])) }
        ensures over { IfOk result (λ c. c.disconnected ≡ false) }
        ensures ready { IfOk result IsReady }
    {
        let state = MqttState::new(alloc, limit, manual_acks)?;
        empty_needs_more();
        Ok(Client {
            state,
            codec: Codec::new(),
            input: BytesMut::new(alloc),
            output: BytesMut::new(alloc),
            disconnected: false,
        })
    }

    /// Begins a connection: the input is emptied, the output is the Connect of these settings, with will and login,
    /// and nothing of an earlier connection, nor a Disconnect of it is remembered; no limit on what is sent holds until
    /// the ConnAck says one, and what comes in is limited by the settings' `max_packet_size`, where it is set. S7 where
    /// the Connect can't be written (E11); S12. After an Err the client is unchanged.
    pub fn connect(&mut self, options: &MqttOptions) -> Result<(), StateError>
        ensures frame { OnOk result (packet_writing (connect_packet options.now)
            ≡ Ok self.new.output.items) }
        ensures input { OnOk result (self.new.input.items ≡ []) }
        ensures codec { OnOk result (self.new.codec ≡ opened options.now self.old.codec) }
        ensures state { self.new.state ≡ self.old.state }
        ensures over { OnOk result (self.new.disconnected ≡ false) }
        // So bytes may be received.
        ensures ready { OnOk result (IsReady self.new) }
        ensures err { IfErr result (λ e. IsRefused (connect_packet options.now) e) }
        ensures kept { OnErr result (self.new ≡ self.old) }
    {
        let alloc = *self.input.allocator();
        let frame = connect_frame(alloc, options)?;
        self.codec = Codec {
            max_incoming_size: incoming_limit(options, self.codec.max_incoming_size),
            max_outgoing_size: None,
        };
        self.output = frame;
        self.disconnected = false;
        self.input.clear();
        empty_needs_more();
        Ok(())
    }

    /// Takes a piece of the bytes that came in, cut anywhere, at a moment: each whole frame goes to the session, and
    /// its replies to the end of the output. A ConnAck of success says how long a packet may be that is sent from
    /// the next call on. Faults as of `drive`; the connection must then be closed, and the input is empty.
    pub fn receive(&mut self, bytes: &[u8], at: u64) -> Result<(), StateError>
        requires { IsReady self.old }
        // Session, input and output are the run's.
        ensures ok { OnOk result (Runs self.old (piece at bytes.now ∷ []) [] self.new) }
        // What was answered before the fault stands.
        ensures err { IfErr result (λ e. Fails e self.old (piece at bytes.now ∷ []) [] self.new) }
        // The limit is that of the ConnAcks among the events of this call.
        ensures codec { self.new.codec ≡ codec_since self.old self.new }
        ensures lost { OnErr result (self.new.input.items ≡ []) }
        ensures over { self.new.disconnected ≡ self.old.disconnected }
        // So another call may follow.
        ensures ready { IsReady self.new }
    {
        let told = self.state.events().len();
        let ended = self.receive_bytes(bytes, at);
        self.take_limit(told);
        ended
    }

    /// The same for bytes that came in and that the caller put at the end of the input, as `read_from` of the input does:
    /// they are taken, and copied no more. It takes no limit from a ConnAck, which `take_limit` does. After a fault the
    /// input is empty.
    pub fn take_input(&mut self, at: u64) -> Result<(), StateError>
        // All is the run's over the client before the bytes came.
        ensures ok { OnOk result ((before : Client) (came : List ℕ) → Fed before came self.old
            → Runs before (piece at came ∷ []) [] self.new) }
        ensures err { IfErr result (λ e. (before : Client) (came : List ℕ)
            → Fed before came self.old
            → Fails e before (piece at came ∷ []) [] self.new) }
        ensures codec { self.new.codec ≡ self.old.codec }
        ensures lost { OnErr result (self.new.input.items ≡ []) }
        ensures over { self.new.disconnected ≡ self.old.disconnected }
        // So another call may follow.
        ensures ready { IsReady self.new }
    {
        let alloc = *self.input.allocator();
        match take_input(
            alloc,
            &mut self.state,
            &self.codec,
            &mut self.input,
            &mut self.output,
            at,
        ) {
            Ok(()) => Ok(()),
            Err(fault) => {
                self.input.clear();
                empty_needs_more();
                Err(fault)
            }
        }
    }

    /// Takes the limit on what is sent that the ConnAcks of success say among the events from this place on, as
    /// `receive` does with the events of its call. Takes no memory.
    pub fn take_limit(&mut self, from: usize)
        ensures { self.new
            ≡ record self.old
            { codec = codec_after (drop from self.old.state.events) self.old.codec } }
    {
        take_limit(&mut self.codec, self.state.events(), from);
    }

    /// Whether bytes and requests may be given to it: its input needs more bytes, as an empty one does. It may be false
    /// only after a caller changed the input or its limit. Takes no memory.
    pub fn needs_more(&self) -> bool
        ensures { Decides result (IsReady self.now) }
    {
        self.codec.needs_more(&self.input)
    }

    /// Takes a request at a moment: what is to be sent goes to the end of the output. S7 where its packet can't be
    /// written and S9 where that is over the broker's limit, also of a publish that would have to wait; S1 to S3, S5,
    /// S6 and S8 as of the session; S12; S13 once a Disconnect was asked for, until `connect`. After each of them the
    /// client is unchanged, but that a refused ping is counted while a publish waits, and the connection goes on.
    pub fn request(&mut self, request: Request, at: u64) -> Result<(), StateError>
        requires { IsReady self.old }
        // Session and output are the run's.
        ensures ok { OnOk result (Runs self.old (asking at request ∷ []) [] self.new) }
        // What is taken can be written, also where it has to wait for its id.
        ensures writable { IsOk result
            → IsOk (bytes_asked self.old.codec self.old.state.core request) }
        // Nothing goes behind a Disconnect.
        ensures connected { IsOk result → self.old.disconnected ≡ false }
        ensures err { IfErr result (λ e.
            NotAsked self.old.disconnected e self.old.codec request at self.old.state
            self.new.state) }
        ensures unchanged { OnErr result
            (request ≢ Request.PingReq → self.new.state ≡ self.old.state) }
        ensures unsent { OnErr result (self.new.output.items ≡ self.old.output.items) }
        ensures over { OnErr result (self.new.disconnected ≡ self.old.disconnected) }
        ensures kept { (self.new.input.items ≡ self.old.input.items)
            × (self.new.codec ≡ self.old.codec) }
        // So another call may follow.
        ensures ready { IsReady self.new }
    {
        if self.disconnected {
            drop(request);
            return Err(StateError::Disconnected);
        }
        let disconnects = is_disconnect(&request);
        match send_request(&mut self.state, &self.codec, &mut self.output, request, at) {
            Ok(()) => {
                self.disconnected = disconnects;
                Ok(())
            }
            Err(refused) => Err(refused),
        }
    }

    /// Ends the connection for a reason, at a moment: the Disconnect, with its properties, goes to the end of the output,
    /// and nothing may follow it until `connect` (MQTT 5.0 section 3.14). S1 of a reason that only a broker gives; S7
    /// where it can't be written, and S9 where it is over the broker's limit; S12; S13 once a Disconnect was asked for.
    /// After an Err the client is unchanged. A session expiry interval other than 0 is a fault where the Connect said
    /// none, or 0 (section 3.14.2.2.2): that is left to the caller.
    pub fn disconnect(&mut self, disconnect: Disconnect, at: u64) -> Result<(), StateError>
        ensures ok { OnOk result
            (IsSaid self.old (packets.Disconnect disconnect)
            (out_disconnect self.old.state disconnect at) self.new) }
        ensures over { OnOk result (self.new.disconnected ≡ true) }
        ensures err { IfErr result (λ e. NotSaid e self.old (packets.Disconnect disconnect)
            (out_disconnect self.old.state disconnect at)) }
        ensures unsaid { OnErr result (IsUnsaid self.old self.new) }
        ensures kept { (self.new.input.items ≡ self.old.input.items)
            × (self.new.codec ≡ self.old.codec) }
        ensures ready { IsReady self.old → IsReady self.new }
    {
        match self.say(as_disconnect(disconnect), at) {
            Ok(()) => {
                self.disconnected = true;
                Ok(())
            }
            Err(refused) => Err(refused),
        }
    }

    /// Sends an Auth at a moment, after one of the broker's came, also before the ConnAck, or to begin anew (MQTT 5.0
    /// sections 3.15 and 4.12): it goes to the end of the output. S1 of the code Success, which only a broker gives,
    /// and of an Auth without a method; else as `disconnect`. The method is that of the Connect (section 4.12), which is
    /// left to the caller. After an Err the client is unchanged.
    pub fn authenticate(&mut self, auth: Auth, at: u64) -> Result<(), StateError>
        ensures ok { OnOk result
            (IsSaid self.old (packets.Auth auth) (out_auth self.old.state auth at) self.new) }
        ensures over { self.new.disconnected ≡ self.old.disconnected }
        ensures err { IfErr result (λ e.
            NotSaid e self.old (packets.Auth auth) (out_auth self.old.state auth at)) }
        ensures unsaid { OnErr result (IsUnsaid self.old self.new) }
        ensures kept { (self.new.input.items ≡ self.old.input.items)
            × (self.new.codec ≡ self.old.codec) }
        ensures ready { IsReady self.old → IsReady self.new }
    {
        self.say(as_auth(auth), at)
    }

    /// Says a Disconnect or an Auth.
    fn say(&mut self, packet: Packet, at: u64) -> Result<(), StateError>
        ensures ok { OnOk result
            (IsSaid self.old packet (on_said self.old.state packet at) self.new) }
        ensures over { self.new.disconnected ≡ self.old.disconnected }
        ensures err { IfErr result (λ e.
            NotSaid e self.old packet (on_said self.old.state packet at)) }
        ensures unsaid { OnErr result (IsUnsaid self.old self.new) }
        ensures kept { (self.new.input.items ≡ self.old.input.items)
            × (self.new.codec ≡ self.old.codec) }
    {
        if self.disconnected {
            drop(packet);
            return Err(StateError::Disconnected);
        }
        let length = self.output.len();
        match self.codec.write(&packet, &mut self.output) {
            Ok(()) => {}
            Err(refused) => {
                drop(packet);
                return Err(StateError::from(refused));
            }
        }
        match answer_said(&mut self.state, packet, at) {
            Ok(sent) => {
                drop(sent);
                Ok(())
            }
            Err(refused) => {
                self.output.truncate(length);
                Err(refused)
            }
        }
    }

    /// The packet identifier that the next publish of QoS 1 or 2, Subscribe or Unsubscribe gets. Takes no memory.
    pub fn next_id(&self) -> u16
        ensures { result ≡ next_id self.now.state.core }
    {
        next_id(&self.state)
    }

    /// What is to be sent, the oldest byte first. Takes no memory.
    pub fn output(&self) -> &[u8]
        ensures { result.now ≡ self.now.output.items }
    {
        self.output.as_slice()
    }

    /// Takes the first `count` bytes out of the output, which were sent; all of it where it has fewer. Takes no
    /// memory.
    pub fn sent(&mut self, count: usize)
        ensures left { self.new.output.items ≡ drop count self.old.output.items }
        ensures kept { (self.new.state ≡ self.old.state) × (self.new.codec ≡ self.old.codec)
            × (self.new.input.items ≡ self.old.input.items) }
        ensures over { self.new.disconnected ≡ self.old.disconnected }
        // What was sent and what is left are the run's output.
        ensures run { IsReady self.old
            → Runs self.old [] (take count self.old.output.items) self.new }
        ensures ready { IsReady self.old → IsReady self.new }
    {
        self.output.advance(count.min(self.output.len()));
    }

    /// Takes the oldest event out; None where there is none. Takes no memory.
    pub fn next_event(&mut self) -> Option<Event>
        ensures event { result ≡ slice_get self.old.state.events 0 }
        ensures rest { self.new
            ≡ record self.old
            { state = record self.old.state { events = drop 1 self.old.state.events } } }
        ensures ready { IsReady self.old → IsReady self.new }
    {
        self.state.pop_event()
    }

    /// Takes the session up on a new connection, once its ConnAck says that the broker has it: all that awaits an ack
    /// goes to the end of the output, publishes with `dup`. S8 of a topic alias above the broker's maximum, and the
    /// session is unchanged; S7 and S9 of a packet that can't be written, and S12: the session may have told of what
    /// it sends again. After an Err the output is unchanged, so the call may be made again.
    pub fn resume(&mut self, at: u64) -> Result<(), StateError>
        // Whole frames of all that the session sends again.
        ensures ok { OnOk result (SendsAgain self.old at self.new) }
        ensures err { IfErr result (λ e. Refuses e self.old at self.new) }
        ensures unsent { OnErr result (self.new.output.items ≡ self.old.output.items) }
        ensures kept { (self.new.input.items ≡ self.old.input.items)
            × (self.new.codec ≡ self.old.codec) }
        ensures over { self.new.disconnected ≡ self.old.disconnected }
        ensures ready { IsReady self.old → IsReady self.new }
    {
        let alloc = *self.input.allocator();
        let packets = self.state.resume(at)?;
        let frames = frames(alloc, &self.codec, &packets)?;
        append(&mut self.output, frames)?;
        Ok(())
    }

    /// Ends the session, for a connection with clean start: answers what awaits an ack, publishes with `dup` and
    /// then releases, each by rising id, and the publish that waits for its id; the client is as a new one of its
    /// limit on ids, with its limits on packets, and where it was asked for a Disconnect it waits for `connect` as before.
    /// S1 where an event isn't taken out; S12. After an Err the client is unchanged.
    pub fn clean(&mut self) -> Result<Vec<Request>, StateError>
        ensures ok { IfOk result (λ v. v.items ≡ given_back self.old.state.core) }
        ensures state { OnOk result (self.new.state
            ≡ fresh self.old.state.core.limit self.old.state.core.manual_acks) }
        ensures empty { OnOk result ((self.new.input.items ≡ []) × (self.new.output.items ≡ [])) }
        ensures codec { self.new.codec ≡ self.old.codec }
        ensures over { self.new.disconnected ≡ self.old.disconnected }
        // So bytes may be received.
        ensures ready { OnOk result (IsReady self.new) }
        ensures err { IfErr result (λ e. (e ≡ faults.OutOfMemory) ⊎ (e ≡ faults.InvalidState)) }
        ensures told { IsOk result → self.old.state.events ≡ [] }
        ensures kept { OnErr result (self.new ≡ self.old) }
    {
        if !self.state.events().is_empty() {
            return Err(StateError::InvalidState);
        }
        let alloc = *self.input.allocator();
        let requests = given_back(&self.state)?;
        self.state = renewed(alloc, &self.state);
        self.input.clear();
        self.output.clear();
        empty_needs_more();
        Ok(requests)
    }

    /// Runs one piece. After a fault the input is empty.
    fn receive_bytes(&mut self, bytes: &[u8], at: u64) -> Result<(), StateError>
        requires { IsReady self.old }
        ensures ok { OnOk result (Runs self.old (piece at bytes.now ∷ []) [] self.new) }
        ensures err { IfErr result (λ e. Fails e self.old (piece at bytes.now ∷ []) [] self.new) }
        ensures codec { self.new.codec ≡ self.old.codec }
        ensures lost { OnErr result (self.new.input.items ≡ []) }
        ensures over { self.new.disconnected ≡ self.old.disconnected }
        ensures ready { IsReady self.new }
    {
        match self.run(bytes, at) {
            Ok(()) => Ok(()),
            Err(fault) => {
                self.input.clear();
                empty_needs_more();
                Err(fault)
            }
        }
    }

    fn run(&mut self, bytes: &[u8], at: u64) -> Result<(), StateError>
        requires { IsReady self.old }
        ensures ok { OnOk result (Runs self.old (piece at bytes.now ∷ []) [] self.new) }
        ensures err { IfErr result (λ e. Fails e self.old (piece at bytes.now ∷ []) [] self.new) }
        ensures codec { self.new.codec ≡ self.old.codec }
        ensures over { self.new.disconnected ≡ self.old.disconnected }
    {
        let alloc = *self.input.allocator();
        take_piece(
            alloc,
            &mut self.state,
            &self.codec,
            &mut self.input,
            &mut self.output,
            bytes,
            at,
        )
    }
}

/// Whether a request is a Disconnect.
fn is_disconnect(request: &Request) -> bool
    ensures { result ≡ disconnects (inputs.Request request.now) }
{
    matches!(request, Request::Disconnect)
}

fn as_disconnect(disconnect: Disconnect) -> Packet
    ensures { result ≡ packets.Disconnect disconnect }
{
    Packet::Disconnect(disconnect)
}

fn as_auth(auth: Auth) -> Packet
    ensures { result ≡ packets.Auth auth }
{
    Packet::Auth(auth)
}

/// What the session makes of a Disconnect or an Auth.
fn answer_said(state: &mut MqttState, packet: Packet, at: u64) -> Result<Option<Packet>, StateError>
    ensures { Sends result state.old state.new (on_said state.old packet at) }
{
    match packet {
        Packet::Disconnect(disconnect) => state.handle_outgoing_disconnect(disconnect, at),
        Packet::Auth(auth) => state.handle_outgoing_auth(auth, at),
        other => {
            drop(other);
            Err(StateError::InvalidState)
        }
    }
}

/// A new session with an old one's limit on ids.
pub(crate) fn renewed(alloc: Global, state: &MqttState) -> MqttState
    ensures { result ≡ fresh state.now.core.limit state.now.core.manual_acks }
{
    let _last = state.last_pkid();
    let limit = state.max_outgoing_inflight_upper_limit();
    match MqttState::new(alloc, limit, state.manual_acks()) {
        Ok(fresh) => fresh,
        Err(_) => unreachable!(),
    }
}

/// A law, which does nothing when it is called: two calls of a client, one after the other, of which the first
/// left a run, are one call over the steps of both. Its premises are what the calls ensure.
pub fn one_run()
    // Where the second leaves a run, so do both: nothing is lost, and nothing sent twice.
    ensures runs { (p q r : Client) (first second : List Step) (sent more : List ℕ)
        → Runs p first sent q → q.codec ≡ p.codec → Runs q second more r
        → Runs p (first ++ second) (sent ++ more) r }
    // Where the second stops by a fault, so do both.
    ensures stops { (p q r : Client) (first second : List Step) (sent more : List ℕ) (fault : Fault)
        → Runs p first sent q → q.codec ≡ p.codec → Fails fault q second more r
        → Fails fault p (first ++ second) (sent ++ more) r }
{}
