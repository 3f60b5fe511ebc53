//! The loop: bytes in pieces and requests go in, frames and events come out.

ghost use Rattle.std.specs.Prelude.{◌≡◌, ◌≢◌, ◌+◌, ℕ, Some, List, [], ◌∷◌, ◌++◌, map, Option, IfErr, OnOk, IsOk};
ghost use Rattle.std.specs.List.{concat};
ghost use Rattle.mqtt5_base.specs.Front.{NeedsMore};
ghost use Rattle.mqtt5_base.specs.FrontAt.{front};
ghost use Rattle.mqtt5_base.specs.declared.quality.QoS.TheVariants.{AtMostOnce};
ghost use Rattle.mqtt5_codec.specs.declared.codec.Codec.{Codec};
ghost use Rattle.mqtt5_session.specs.Session.{Session};
ghost use Rattle.mqtt5_session.specs.Requests.{on_request};
ghost use Rattle.mqtt5_session.specs.Packets.{on_packet};
ghost use Rattle.mqtt5_session.specs.Replies.{made_of, packet_of};
ghost use Rattle.mqtt5_session.specs.Ledger.{after_all};
ghost use Rattle.mqtt5_session.specs.Once.{kept_id, notified_by, released_by};
ghost use Rattle.mqtt5_drive.specs.Ways.{LeadsTo, Goes, Replies, Drains, DrainStops};
ghost use Rattle.mqtt5_drive.specs.Trace.{Holds, finish, Stops};
ghost use Rattle.mqtt5_drive.specs.Calls.{calls_of};
ghost use Rattle.mqtt5_drive.specs.Run.{Turn, of_input, turns, reply_bytes, run, piece};

use crate::put::{put_made, put_publish};
use bytes::{Bytes, BytesMut};
use mqtt5_base::{QoS, copied, front_laws};
use mqtt5_codec::{Codec, Packet, frame_laws};
use mqtt5_publish::Publish;
use mqtt5_session::{MqttState, Reply, Request, StateError, once_law};
use std::alloc::Global;

/// What a step takes: a piece of the incoming bytes, or a request.
#[derive(Debug, Drop)]
pub enum Input {
    /// A piece, cut anywhere.
    Bytes(Bytes),
    /// What the client asks.
    Request(Request),
}

/// An input at its moment.
#[derive(Debug, Drop)]
pub struct Step {
    /// The moment, in a unit that is the caller's.
    pub at: u64,
    /// What comes in then.
    pub input: Input,
}

fn encode(codec: &Codec, output: &mut BytesMut, packet: &Packet) -> Result<(), StateError>
    ensures { Replies result (reply_bytes codec.now (Some packet.now)) output.old.items
        output.new.items }
{
    match codec.write(packet, output) {
        Ok(()) => Ok(()),
        Err(error) => Err(StateError::from(error)),
    }
}

/// Writes a publish where it stands.
fn write_publish(codec: &Codec, output: &mut BytesMut, publish: &Publish) -> Result<(), StateError>
    ensures { Replies result (reply_bytes codec.now (Some (Packet.Publish publish.now)))
        output.old.items output.new.items }
{
    match put_publish(codec, output, publish) {
        Ok(()) => Ok(()),
        Err(refused) => Err(StateError::from(refused)),
    }
}

fn answer(codec: &Codec, output: &mut BytesMut, reply: &Option<Packet>) -> Result<(), StateError>
    ensures { Replies result (reply_bytes codec.now reply.now) output.old.items output.new.items }
{
    match reply {
        Some(packet) => encode(codec, output, packet),
        None => Ok(()),
    }
}

/// Writes the publish that awaits its ack under an id.
fn write_stored(
    state: &MqttState,
    codec: &Codec,
    output: &mut BytesMut,
    id: u16,
) -> Result<(), StateError>
    ensures { Replies result (reply_bytes codec.now (packet_of (Reply.Publish id) state.now))
        output.old.items output.new.items }
{
    match state.outgoing_pub(id) {
        Some(publish) => write_publish(codec, output, publish),
        None => Ok(()),
    }
}

/// Writes an ack or a Disconnect.
fn write_made(codec: &Codec, output: &mut BytesMut, reply: Reply) -> Result<(), StateError>
    ensures { Replies result (reply_bytes codec.now (made_of reply)) output.old.items
        output.new.items }
{
    match put_made(codec, output, reply) {
        Ok(()) => Ok(()),
        Err(fault) => Err(StateError::from(fault)),
    }
}

/// Writes a reply of the session.
fn write_reply(
    state: &MqttState,
    codec: &Codec,
    output: &mut BytesMut,
    reply: Reply,
) -> Result<(), StateError>
    ensures { Replies result (reply_bytes codec.now (packet_of reply state.now)) output.old.items
        output.new.items }
{
    match reply {
        Reply::Nothing => Ok(()),
        Reply::Publish(id) => write_stored(state, codec, output, id),
        other => write_made(codec, output, other),
    }
}

fn deliver(
    state: &mut MqttState,
    codec: &Codec,
    output: &mut BytesMut,
    packet: Packet,
    at: u64,
) -> Result<(), StateError>
    ensures { Goes result codec.now (on_packet state.old packet at) state.old output.old.items
        state.new output.new.items }
{
    match state.hear_packet(packet, at) {
        Ok(reply) => write_reply(state, codec, output, reply),
        Err(error) => Err(error),
    }
}

#[inline(never)]
fn send_request(
    state: &mut MqttState,
    codec: &Codec,
    output: &mut BytesMut,
    request: &Request,
    at: u64,
) -> Result<(), StateError>
    ensures { Goes result codec.now (on_request state.old request.now at) state.old output.old.items
        state.new output.new.items }
{
    match request {
        Request::Publish(publish) if publish.qos != QoS::AtMostOnce => {
            send_publish(state, codec, output, publish, at)
        }
        _other => send_any(state, codec, output, request, at),
    }
}

/// A publish of QoS 1 or 2 is stored, and written where it is stored.
fn send_publish(
    state: &mut MqttState,
    codec: &Codec,
    output: &mut BytesMut,
    publish: &Publish,
    at: u64,
) -> Result<(), StateError>
    requires { publish.now.qos ≢ AtMostOnce }
    ensures { Goes result codec.now (on_request state.old (Request.Publish publish.now) at)
        state.old output.old.items state.new output.new.items }
{
    match state.send_copy(publish, at) {
        Ok(reply) => write_reply(state, codec, output, reply),
        Err(error) => Err(error),
    }
}

/// A copy of a request is handed on.
#[inline(never)]
fn send_any(
    state: &mut MqttState,
    codec: &Codec,
    output: &mut BytesMut,
    request: &Request,
    at: u64,
) -> Result<(), StateError>
    ensures { Goes result codec.now (on_request state.old request.now at) state.old output.old.items
        state.new output.new.items }
{
    let Ok(request) = copied(request) else {
        return Err(StateError::OutOfMemory);
    };
    match state.handle_outgoing_packet(request, at) {
        Ok(reply) => {
            let answered = answer(codec, output, &reply);
            drop(reply);
            answered
        }
        Err(error) => Err(error),
    }
}

/// Takes each whole frame.
#[inline(never)]
fn take_frames(
    alloc: Global,
    state: &mut MqttState,
    codec: &Codec,
    input: &mut BytesMut,
    output: &mut BytesMut,
    at: u64,
) -> Result<(), StateError>
    ensures more { OnOk result (NeedsMore (front codec.now.max_incoming_size input.new.items)) }
    ensures ok { OnOk result (Drains codec.now at state.old output.old.items input.old.items
        state.new output.new.items input.new.items) }
    ensures err { IfErr result (λ e. DrainStops e codec.now at state.old output.old.items
        input.old.items state.new output.new.items) }
{
    front_laws();
    frame_laws();
    while let Some(packet) = codec.decode(alloc, input)? {
        deliver(state, codec, output, packet, at)?;
    }
    Ok(())
}

/// Takes what stands in the input.
#[inline(always)]
fn take_held(
    alloc: Global,
    state: &mut MqttState,
    codec: &Codec,
    input: &mut BytesMut,
    output: &mut BytesMut,
    at: u64,
) -> Result<(), StateError>
    ensures more { OnOk result (NeedsMore (front codec.now.max_incoming_size input.new.items)) }
    ensures ok { OnOk result (Drains codec.now at state.old output.old.items input.old.items
        state.new output.new.items input.new.items) }
    ensures err { IfErr result (λ e. DrainStops e codec.now at state.old output.old.items
        input.old.items state.new output.new.items) }
{
    front_laws();
    // (most small pieces end no frame, and this makes no room for a packet)
    if codec.needs_more(input) {
        return Ok(());
    }
    take_frames(alloc, state, codec, input, output, at)
}

/// One step.
fn take_step(
    alloc: Global,
    state: &mut MqttState,
    codec: &Codec,
    input: &mut BytesMut,
    output: &mut BytesMut,
    step: &Step,
) -> Result<(), StateError>
    requires { NeedsMore (front codec.now.max_incoming_size input.old.items) }
    ensures more { OnOk result (NeedsMore (front codec.now.max_incoming_size input.new.items)) }
    ensures ok { OnOk result ((rest : List Turn)
        → LeadsTo state.old output.old.items
        (run codec.now (of_input step.now.at step.now.input ++ rest) state.old input.old.items)
        state.new output.new.items (run codec.now rest state.new input.new.items)) }
    ensures err { IfErr result (λ e. (rest : List Turn)
        → Stops e state.old output.old.items
        (run codec.now (of_input step.now.at step.now.input ++ rest) state.old input.old.items)
        state.new output.new.items) }
{
    match &step.input {
        Input::Bytes(piece) => {
            front_laws();
            let Ok(()) = input.extend_from_slice(piece.as_slice()) else {
                return Err(StateError::OutOfMemory);
            };
            take_held(alloc, state, codec, input, output, step.at)
        }
        Input::Request(request) => send_request(state, codec, output, request, step.at),
    }
}

/// Runs the steps in order: a piece goes to the end of the input, each whole frame is decoded and goes
/// to the session, and each reply goes to the end of the output. The input must be in want of more bytes,
/// as an empty one is, and as a run without fault leaves it. The first fault ends the run: S7 of a frame
/// or a stream that is refused, or of a reply that can't be written, S9 of a reply over the outgoing
/// limit, a refusal of the session (S1 to S6, S8, S10, S11); S12. What was written and what the session
/// took stands then; after S12 the last reply may be missing. Of the input nothing is said then.
pub fn drive(
    alloc: Global,
    state: &mut MqttState,
    codec: &mut Codec,
    input: &mut BytesMut,
    output: &mut BytesMut,
    steps: &[Step],
) -> Result<(), StateError>
    requires { NeedsMore (front codec.old.max_incoming_size input.old.items) }
    // All is the run's: session, output and the bytes held.
    ensures ok { OnOk result (finish state.old output.old.items
        (run codec.old (turns steps.now) state.old input.old.items)
        ≡ record {
          session = state.new;
          output = output.new.items;
          ending = Holds input.new.items;
        }) }
    // The fault is the run's, with its session and output, or memory ran out on the way.
    ensures err { IfErr result (λ e. Stops e state.old output.old.items
        (run codec.old (turns steps.now) state.old input.old.items) state.new output.new.items) }
    // So another call may follow.
    ensures more { OnOk result (NeedsMore (front codec.old.max_incoming_size input.new.items)) }
    ensures codec { codec.new ≡ codec.old }
    ensures nothing { steps.now ≡ [] → IsOk result }
{
    for step in steps {
        take_step(alloc, state, codec, input, output, step)?;
    }
    Ok(())
}

/// Takes bytes that came in and were put at the end of the input: goes on as `drive` does on them as one piece, of
/// which the input has what was held before. With the same faults.
pub fn take_input(
    alloc: Global,
    state: &mut MqttState,
    codec: &Codec,
    input: &mut BytesMut,
    output: &mut BytesMut,
    at: u64,
) -> Result<(), StateError>
    // All is the run's, whichever bytes were held, as long as they needed more, and whichever came.
    ensures ok { OnOk result ((held came : List ℕ) → input.old.items ≡ held ++ came
        → NeedsMore (front codec.now.max_incoming_size held)
        → finish state.old output.old.items
        (run codec.now (turns (piece at came ∷ [])) state.old held)
        ≡ record {
          session = state.new;
          output = output.new.items;
          ending = Holds input.new.items;
        }) }
    // The fault is the run's, with its session and output, or memory ran out on the way.
    ensures err { IfErr result (λ e. (held came : List ℕ) → input.old.items ≡ held ++ came
        → NeedsMore (front codec.now.max_incoming_size held)
        → Stops e state.old output.old.items
        (run codec.now (turns (piece at came ∷ [])) state.old held) state.new output.new.items) }
    // So another call may follow.
    ensures more { OnOk result (NeedsMore (front codec.now.max_incoming_size input.new.items)) }
{
    front_laws();
    take_held(alloc, state, codec, input, output, at)
}

/// Takes one piece of the bytes that came in, which it copies once: as `drive` does on that alone, with the same faults.
pub fn take_piece(
    alloc: Global,
    state: &mut MqttState,
    codec: &Codec,
    input: &mut BytesMut,
    output: &mut BytesMut,
    bytes: &[u8],
    at: u64,
) -> Result<(), StateError>
    requires { NeedsMore (front codec.now.max_incoming_size input.old.items) }
    // All is the run's: session, output and the bytes held.
    ensures ok { OnOk result (finish state.old output.old.items
        (run codec.now (turns (piece at bytes.now ∷ [])) state.old input.old.items)
        ≡ record {
          session = state.new;
          output = output.new.items;
          ending = Holds input.new.items;
        }) }
    // The fault is the run's, with its session and output, or memory ran out on the way.
    ensures err { IfErr result (λ e. Stops e state.old output.old.items
        (run codec.now (turns (piece at bytes.now ∷ [])) state.old input.old.items) state.new
        output.new.items) }
    // So another call may follow.
    ensures more { OnOk result (NeedsMore (front codec.now.max_incoming_size input.new.items)) }
{
    let Ok(()) = input.extend_from_slice(bytes) else {
        return Err(StateError::OutOfMemory);
    };
    take_input(alloc, state, codec, input, output, at)
}

/// `drive` may start on an empty input.
pub fn empty_needs_more()
    ensures { (limit : Option ℕ) (input : List ℕ) → input ≡ [] → NeedsMore (front limit input) }
{
    front_laws();
}

/// A law, which does nothing when it is called: any two ways of cutting the same bytes into pieces, with the
/// same moment, are the same run, whatever comes before and after.
pub fn cutting()
    ensures { (codec : Codec) (s : Session) (held : List ℕ) (before after : List Step) (at : ℕ)
        (pieces others : List (List ℕ))
        → concat pieces ≡ concat others
        → run codec (turns (before ++ map (piece at) pieces ++ after)) s held
        ≡ run codec (turns (before ++ map (piece at) others ++ after)) s held }
{}

/// A law of two calls of `drive` over the same state and buffers, the first of which answered Ok: together
/// they are one call over the steps of both. Its premises are what the two calls ensure.
pub fn twice()
    // Where the second answers Ok, so does the one call, with the session, output and bytes held that it left.
    ensures ok { (codec : Codec) (s t v : Session) (o u w held left last : List ℕ)
        (first second : List Step)
        → finish s o (run codec (turns first) s held)
        ≡ record { session = t; output = u; ending = Holds left }
        → finish t u (run codec (turns second) t left)
        ≡ record { session = v; output = w; ending = Holds last }
        → finish s o (run codec (turns (first ++ second)) s held)
        ≡ record { session = v; output = w; ending = Holds last } }
    // Where the second stops, the one call may stop so too.
    ensures stops { (codec : Codec) (s t v : Session) (o u w held left : List ℕ)
        (first second : List Step) (why : StateError)
        → finish s o (run codec (turns first) s held)
        ≡ record { session = t; output = u; ending = Holds left }
        → Stops why t u (run codec (turns second) t left) v w
        → Stops why s o (run codec (turns (first ++ second)) s held) v w }
{}

/// A law, which does nothing when it is called: a run is a list of calls of its session, so a publish of QoS 2
/// from the broker is handed on once over every run.
pub fn calls_law()
    // A run leaves the session that its calls leave.
    ensures session { (codec : Codec) (ts : List Turn) (s : Session) (held output : List ℕ)
        → (finish s output (run codec ts s held)).session ≡ after_all s (calls_of codec ts s held) }
    // Each id that is kept or was released was kept before or handed on.
    ensures once { (codec : Codec) (ts : List Turn) (s : Session) (held output : List ℕ) (id : ℕ)
        → kept_id id (finish s output (run codec ts s held)).session.core + released_by id s
        (calls_of codec ts s held)
        ≡ kept_id id s.core + notified_by id s (calls_of codec ts s held) }
{
    once_law();
}
