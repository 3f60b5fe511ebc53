//! Two runs of the same calls, of which one takes up its session between them.

ghost use Rattle.std.specs.Prelude.{◌≡◌, ◌≢◌, ◌<◌, ◌⊎◌, ℕ, Bool, List, [], ◌∷◌, ◌++◌, IfOk, IfErr, OnOk, IsOk};
ghost use Rattle.mqtt5_session.specs.Session.{Session, fresh};
ghost use Rattle.mqtt5_session.specs.Resuming.{with_dup, resume_of};
ghost use Rattle.mqtt5_world.specs.declared.calls.Call.{Call};
ghost use Rattle.mqtt5_world.specs.Twins.{Answered, said_by, all_said, reply_of, after_call, after_calls, replies_of, taken_up, aliases_over, SameReplies};

use crate::calls::{Call, Reply, Twin};
use mqtt5_base::copied;
use mqtt5_codec::Packet;
use mqtt5_session::{MqttState, Request, StateError};
use std::alloc::Global;

/// A law, which does nothing when it is called: a session may be resumed after any calls, on a new connection. A resume
/// sends again what is stored, so on a connection that stands it would send it twice (MQTT 5.0 section 4.4).
pub fn twin_law()
    // Where no stored alias is above the broker's maximum, the resume is accepted.
    ensures within { (limit at : ℕ) (manual : Bool) (calls : List Call)
        → aliases_over (after_calls calls (fresh limit manual)) ≡ []
        → IsOk (resume_of (after_calls calls (fresh limit manual)) at) }
    // Else the first such alias is why it is refused.
    ensures over { (limit at alias : ℕ) (manual : Bool) (calls : List Call) (others : List ℕ)
        → aliases_over (after_calls calls (fresh limit manual)) ≡ alias ∷ others
        → resume_of (after_calls calls (fresh limit manual)) at
        ≡ Err
        (StateError.InvalidAlias alias (after_calls calls (fresh limit manual)).core.alias_max) }
    // It keeps the core, but for dup of the publishes that await their acks.
    ensures core { (limit at : ℕ) (manual : Bool) (calls : List Call)
        → with_dup (taken_up (after_calls calls (fresh limit manual)) at).core
        ≡ with_dup (after_calls calls (fresh limit manual)).core }
    // Sessions of one core, but for that, reply the same to any calls.
    ensures alike { (calls : List Call) (s t : Session) → with_dup s.core ≡ with_dup t.core
        → SameReplies calls (replies_of calls s) (replies_of calls t) }
{}

/// Runs calls on a new session and then others, without a resume between them and with one at moment 0. `limit`, at
/// least 1, is the greatest id. What refuses a call is its reply, and no error here. S8: the resume is refused, since a
/// stored topic alias is above the broker's maximum. S12, also where a call answers it.
pub fn twin(
    alloc: Global,
    limit: u16,
    manual: bool,
    before: &[Call],
    after: &[Call],
) -> Result<Twin, StateError>
    requires { 0 < limit }
    // The replies are those of the session after the first calls, and of the same session resumed.
    ensures plain { IfOk result (λ t. all_said t.plain.items
        ≡ replies_of after.now (after_calls before.now (fresh limit manual))) }
    ensures resumed { IfOk result (λ t. all_said t.resumed.items
        ≡ replies_of after.now (taken_up (after_calls before.now (fresh limit manual)) 0)) }
    // What is sent again is the resume's.
    ensures resent { IfOk result (λ t. resume_of (after_calls before.now (fresh limit manual)) 0
        ≡ Ok (t.resent.items, taken_up (after_calls before.now (fresh limit manual)) 0)) }
    // The replies are the same, but for those to pings.
    ensures alike { IfOk result (λ t. SameReplies after.now (all_said t.plain.items)
        (all_said t.resumed.items)) }
    // Memory or the resume is refused.
    ensures err { IfErr result (λ e. (e ≡ StateError.OutOfMemory)
        ⊎ (resume_of (after_calls before.now (fresh limit manual)) 0 ≡ Err e)) }
{
    let mut state = started(alloc, limit, manual, before)?;
    let twin = both(alloc, &mut state, after);
    drop(state);
    twin
}

/// A new session after calls. S12.
fn started(alloc: Global, limit: u16, manual: bool, calls: &[Call]) -> Result<MqttState, StateError>
    requires { 0 < limit }
    ensures ok { IfOk result (λ s. s ≡ after_calls calls.now (fresh limit manual)) }
    ensures err { IfErr result (λ e. e ≡ StateError.OutOfMemory) }
{
    let mut state = MqttState::new(alloc, limit, manual)?;
    match run(alloc, &mut state, calls) {
        Ok(replies) => {
            drop(replies);
            Ok(state)
        }
        Err(fault) => {
            drop(state);
            Err(fault)
        }
    }
}

/// Runs calls without a resume and with one.
fn both(alloc: Global, state: &mut MqttState, calls: &[Call]) -> Result<Twin, StateError>
    ensures plain { IfOk result (λ t. all_said t.plain.items ≡ replies_of calls.now state.old) }
    ensures resumed { IfOk result (λ t. all_said t.resumed.items
        ≡ replies_of calls.now (taken_up state.old 0)) }
    ensures resent { IfOk result (λ t. resume_of state.old 0
        ≡ Ok (t.resent.items, taken_up state.old 0)) }
    ensures err { IfErr result (λ e. (e ≡ StateError.OutOfMemory)
        ⊎ (resume_of state.old 0 ≡ Err e)) }
{
    let plain = run_copy(alloc, state, calls)?;
    let resent = state.resume(0)?;
    let resumed = run(alloc, state, calls)?;
    Ok(Twin {
        resent,
        plain,
        resumed,
    })
}

/// Runs calls on a copy of a session, and answers the replies. S12.
fn run_copy(alloc: Global, state: &MqttState, calls: &[Call]) -> Result<Vec<Reply>, StateError>
    ensures ok { IfOk result (λ rs. all_said rs.items ≡ replies_of calls.now state.now) }
    ensures err { IfErr result (λ e. e ≡ StateError.OutOfMemory) }
{
    let mut copy = state.clone()?;
    let replies = run(alloc, &mut copy, calls);
    drop(copy);
    replies
}

/// Runs calls, and answers the replies. S12.
fn run(alloc: Global, state: &mut MqttState, calls: &[Call]) -> Result<Vec<Reply>, StateError>
    ensures ok { IfOk result (λ rs. all_said rs.items ≡ replies_of calls.now state.old) }
    ensures state { OnOk result (state.new ≡ after_calls calls.now state.old) }
    ensures err { IfErr result (λ e. e ≡ StateError.OutOfMemory) }
{
    let mut replies = Vec::new(alloc);
    run_all(state, calls, &mut replies)?;
    Ok(replies)
}

/// Runs calls, and puts the replies after others. S12.
fn run_all(
    state: &mut MqttState,
    calls: &[Call],
    replies: &mut Vec<Reply>,
) -> Result<(), StateError>
    ensures ok { OnOk result (all_said replies.new.items
        ≡ all_said replies.old.items ++ replies_of calls.now state.old) }
    ensures state { OnOk result (state.new ≡ after_calls calls.now state.old) }
    ensures err { IfErr result (λ e. e ≡ StateError.OutOfMemory) }
{
    for call in calls {
        run_one(state, call, replies)?;
    }
    Ok(())
}

/// Runs a call, and puts the reply after others. S12.
fn run_one(state: &mut MqttState, call: &Call, replies: &mut Vec<Reply>) -> Result<(), StateError>
    ensures ok { OnOk result (all_said replies.new.items
        ≡ all_said replies.old.items ++ reply_of state.old call.now ∷ []) }
    ensures state { OnOk result (state.new ≡ after_call state.old call.now) }
    ensures err { IfErr result (λ e. e ≡ StateError.OutOfMemory) }
{
    let reply = reply_of(state, call)?;
    replies.push(reply)?;
    Ok(())
}

/// The reply to a call. S12.
fn reply_of(state: &mut MqttState, call: &Call) -> Result<Reply, StateError>
    ensures ok { IfOk result (λ r. said_by r ≡ reply_of state.old call.now) }
    ensures state { OnOk result (state.new ≡ after_call state.old call.now) }
    ensures err { IfErr result (λ e. e ≡ StateError.OutOfMemory) }
{
    match call {
        Call::Outgoing(request, at) => send_request(state, request, *at),
        Call::Incoming(packet, at) => receive_packet(state, packet, *at),
        Call::Clean => Ok(Reply::Cleaned(state.clean()?)),
        Call::ProtocolError => unless_memory(state.handle_protocol_error()),
    }
}

fn send_request(state: &mut MqttState, request: &Request, at: u64) -> Result<Reply, StateError>
    ensures ok { IfOk result (λ r. said_by r ≡ reply_of state.old (Call.Outgoing request.now at)) }
    ensures state { OnOk result (state.new ≡ after_call state.old (Call.Outgoing request.now at)) }
    ensures err { IfErr result (λ e. e ≡ StateError.OutOfMemory) }
{
    let request = copied(request)?;
    unless_memory(state.handle_outgoing_packet(request, at))
}

fn receive_packet(state: &mut MqttState, packet: &Packet, at: u64) -> Result<Reply, StateError>
    ensures ok { IfOk result (λ r. said_by r ≡ reply_of state.old (Call.Incoming packet.now at)) }
    ensures state { OnOk result (state.new ≡ after_call state.old (Call.Incoming packet.now at)) }
    ensures err { IfErr result (λ e. e ≡ StateError.OutOfMemory) }
{
    let packet = copied(packet)?;
    unless_memory(state.handle_incoming_packet(packet, at))
}

/// A reply, unless memory was refused. S12.
fn unless_memory(answer: Result<Option<Packet>, StateError>) -> Result<Reply, StateError>
    ensures ok { IfOk result (λ r. said_by r ≡ Answered answer) }
    ensures other { OnOk result (answer ≢ Err StateError.OutOfMemory) }
    ensures err { IfErr result (λ e. e ≡ StateError.OutOfMemory) }
{
    match answer {
        Err(StateError::OutOfMemory) => Err(StateError::OutOfMemory),
        answer => Ok(Reply::Packet(answer)),
    }
}
