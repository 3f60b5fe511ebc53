//! What holds of the definitions of a broker.

ghost use Rattle.std.specs.Prelude.{◌≡◌, ◌≢◌, ◌≤◌, ◌⊎◌, ◌++◌, [], ◌∷◌, ℕ, List, Option, Some, None, Bool, true, false, ◌==◌, length, max, replicate};
ghost use Rattle.std.specs.List.{All, Contains};
ghost use Rattle.mqtt5_base.specs.Texts.{Utf8};
ghost use Rattle.mqtt5_base.specs.Topics.{topic_matches};
ghost use Rattle.mqtt5_base.specs.declared.error.Error.{Error};
ghost use Rattle.mqtt5_publish.specs.declared.publish.Publish.{Publish};
ghost use Rattle.mqtt5_connect.specs.declared.connect.Connect.{Connect};
ghost use Rattle.mqtt5_connect.specs.declared.will.LastWill.{LastWill};
ghost use Rattle.mqtt5_subscribe.specs.declared.subscribe.Subscribe.{Subscribe};
ghost use Rattle.mqtt5_control.specs.declared.connack.ConnectReturnCode.{ConnectReturnCode};
ghost use Rattle.mqtt5_control.specs.declared.connack.ConnectReturnCode.TheVariants as return_codes;
ghost use Rattle.mqtt5_control.specs.declared.disconnect.DisconnectReasonCode.{DisconnectReasonCode};
ghost use Rattle.mqtt5_codec.specs.declared.packet.Packet.{Packet};
ghost use Rattle.mqtt5_codec.specs.declared.packet.Packet.TheVariants as packets;
ghost use Rattle.mqtt5_network.specs.declared.subscription.Subscription.{Subscription};
ghost use Rattle.mqtt5_network.specs.declared.subscription.Share.{Share};
ghost use Rattle.mqtt5_network.specs.Subscriptions.{is_of, holds_for, forwarded_to};
ghost use Rattle.mqtt5_progress.specs.Subscribers.{hits};
ghost use Rattle.mqtt5_network.specs.Retained.{copies_for};
ghost use Rattle.mqtt5_sessions.specs.Sessions.{is_here};
ghost use Rattle.mqtt5_sessions.specs.Runs.{SessionEvent, after_events};
ghost use Rattle.mqtt5_sessions.specs.Waiting.{waits_at};
ghost use Rattle.mqtt5_broker.specs.Cut.{cut_up, goes_on_as, Breaks};
ghost use Rattle.mqtt5_broker.specs.Connection.{closed, with_sent, connection_at};
ghost use Rattle.mqtt5_broker.specs.Moments.{has_come};
ghost use Rattle.mqtt5_broker.specs.Rights.{Rights, rights_at, is_within, may_publish, may_do, part_of};
ghost use Rattle.mqtt5_broker.specs.Broker.{Broker, at_moment, on_connection, number_of, user_at, owner_at, is_same, refuses};
ghost use Rattle.mqtt5_broker.specs.Serving.{fault_of, serves, rejects_by, turns_away, admits, connects, passes_at, has_passed};
ghost use Rattle.mqtt5_broker.specs.Receiving.{receives, ends_with, opens, closes};
ghost use Rattle.mqtt5_broker.specs.Clock.{ticks, next_moment, shuts_down};
ghost use Rattle.mqtt5_broker.specs.Bounds.{trims_at};
ghost use Rattle.mqtt5_broker.specs.Standing.{IsStanding, client_at};
ghost use Rattle.mqtt5_broker.specs.Acts.{Act, acts, events_in, output_at, Sends};
ghost use Rattle.mqtt5_broker.specs.declared.asking.Asks.TheVariants as asks;
ghost use Rattle.mqtt5_broker.specs.Asking.{holds, asks_at};
ghost use Rattle.mqtt5_broker.specs.Calls.{Call, after_calls};
ghost use Rattle.mqtt5_broker.specs.Within.{subscriptions_at, IsWithin};
ghost use Rattle.mqtt5_broker.specs.Sharing.{turn_in, shares, has_turn_of, IsShared};

use mqtt5_base::{front_laws, matching_laws};

/// A law, which does nothing when it is called: bytes that come in any pieces are the same as the whole (4.2).
pub fn pieces_law()
    // A stream of two pieces brings the packets of the first, and then those of the second behind what is held, up to the first
    // fault.
    ensures cut { (limit : Option ℕ) (xs ys held : List ℕ)
        → cut_up limit (xs ++ ys) held
        ≡ goes_on_as (cut_up limit xs held) (λ left. cut_up limit ys left) }
    // And a broker that receives one piece and then another at a moment is the broker that receives both at once.
    ensures same { (at c : ℕ) (xs ys : List ℕ) (b : Broker)
        → receives at c (xs ++ ys) b ≡ receives at c ys (receives at c xs b) }
{
    front_laws();
}

/// A law, which does nothing when it is called: a fault of a connection's bytes ends that connection, and changes no other (4.13).
pub fn fault_law()
    ensures ends { (c : ℕ) (e : Error) (b : Broker)
        → (connection_at c (ends_with c (Breaks e) b).connections).is_open ≡ false }
    ensures others { (c d : ℕ) (e : Error) (b : Broker) → d ≢ c
        → connection_at d (ends_with c (Breaks e) b).connections ≡ connection_at d b.connections }
{}

/// A law, which does nothing when it is called: what a broker does is a list of acts. Of its sessions each is what an event of a
/// network makes of them (`sessions_law` of `mqtt5_sessions`), or one more client; and what is sent on a connection are whole frames.
pub fn acts_law()
    // What comes of bytes, of passing the first of a queue on, of what is due at a moment, of queues that are too long, and of the
    // end of the broker.
    ensures receive { (at c : ℕ) (bytes : List ℕ) (b : Broker)
        → (done : List Act) × (receives at c bytes b ≡ acts done b) }
    ensures pass { (at c : ℕ) (b : Broker)
        → (done : List Act) × (passes_at at c b ≡ acts done b) }
    ensures tick { (at : ℕ) (b : Broker) → (done : List Act) × (ticks at b ≡ acts done b) }
    ensures trim { (b : Broker) (at : ℕ) → (done : List Act) × (trims_at at b ≡ acts done b) }
    ensures shut_down { (at : ℕ) (b : Broker)
        → (done : List Act) × (shuts_down at b ≡ acts done b) }
    // And of the end of a connection.
    ensures close { (at c : ℕ) (b : Broker)
        → (es : List SessionEvent) × ((closes at c b).sessions ≡ after_events es b.sessions) }
    // What acts make of the sessions, and what they send on a connection.
    ensures sessions { (done : List Act) (b : Broker)
        → (acts done b).sessions ≡ after_events (events_in done) b.sessions }
    ensures frames { (c : ℕ) (done : List Act) (b : Broker)
        → Sends (output_at c b) (output_at c (acts done b)) }
{}

/// A law, which does nothing when it is called: before the next moment at which something is due a tick changes the moment alone
/// (3.1.2.10, 3.1.2.11.2, 3.1.3.2.2).
pub fn clock_law()
    ensures { (at : ℕ) (b : Broker) → has_come (next_moment b) (max at b.moment) ≡ false
        → ticks at b ≡ at_moment at b }
{}

/// A law, which does nothing when it is called: a client has one connection at most, and then it is known, and its session has no
/// moment at which it ends (3.1.4, 4.1). So it is in a new broker, and each call leaves it so.
pub fn connections_law()
    ensures new { (count : ℕ) (b : Broker) → b.connections ≡ replicate count closed
        → IsStanding b }
    ensures open { (at c : ℕ) (b : Broker) → IsStanding b → IsStanding (opens at c b) }
    ensures receive { (at c : ℕ) (bytes : List ℕ) (b : Broker)
        → IsStanding b → IsStanding (receives at c bytes b) }
    ensures pass { (at c : ℕ) (b : Broker) → IsStanding b → IsStanding (passes_at at c b) }
    ensures sent { (c count : ℕ) (b : Broker)
        → IsStanding b → IsStanding (on_connection c (with_sent count) b) }
    ensures close { (at c : ℕ) (b : Broker) → IsStanding b → IsStanding (closes at c b) }
    ensures tick { (at : ℕ) (b : Broker) → IsStanding b → IsStanding (ticks at b) }
    ensures trim { (b : Broker) (at : ℕ) → IsStanding b → IsStanding (trims_at at b) }
    ensures shut_down { (at : ℕ) (b : Broker) → IsStanding b → IsStanding (shuts_down at b) }
{}

/// A law, which does nothing when it is called: a caller may ask who wants to connect before the answer, and nobody connects unasked
/// (3.1.4, 4.12).
pub fn asking_law()
    // Bytes that are held first are taken as those that weren't.
    ensures taken { (at c : ℕ) (bytes : List ℕ) (b : Broker)
        → receives at c [] (holds c bytes b) ≡ receives at c bytes b }
    // And where nobody wants to connect by what is held, nobody is connected once that is taken.
    ensures nobody { (at c : ℕ) (b : Broker) → client_at c b.connections ≡ None
        → asks_at c b ≡ asks.Nobody → client_at c (receives at c [] b).connections ≡ None }
{
    front_laws();
}

/// A law, which does nothing when it is called: after any calls, of which none was refused for want of memory, what a broker keeps of
/// its clients is what some events make of what it kept before (`run_law` of `mqtt5_sessions` says when a network does the same);
/// and a client still has one connection at most (4.1).
pub fn any_calls_law()
    ensures sessions { (calls : List Call) (b : Broker)
        → (es : List SessionEvent)
        × ((after_calls calls b).sessions ≡ after_events es b.sessions) }
    ensures standing { (calls : List Call) (b : Broker)
        → IsStanding b → IsStanding (after_calls calls b) }
{}

/// A law, which does nothing when it is called: of those who have a shared subscription one has its turn, and a message that its
/// filter matches is forwarded under it to that one, and to nobody else (4.8.2); and a packet leaves no more filters of them than may
/// be, or than there were.
pub fn sharing_law()
    // Who takes part is who has the subscription, and who has the turn is the first of these: so it is in a new broker, and after
    // any calls, of which none was refused for want of memory.
    ensures new { (b : Broker) → b.sessions.clients ≡ [] → b.groups ≡ [] → IsShared b }
    ensures calls { (calls : List Call) (b : Broker) → IsShared b → IsShared (after_calls calls b) }
    // And then two clients that have the turn in the subscription of a filter are one.
    ensures one { (f : Utf8) (i j : ℕ) (s t : Subscription) (b : Broker)
        → IsShared b
        → Contains (subscriptions_at i b.sessions) s → Contains (subscriptions_at j b.sessions) t
        → is_of f s ≡ true → is_of f t ≡ true
        → turn_in s.share ≡ true → turn_in t.share ≡ true → i ≡ j }
    // And where a client has a shared subscription, somebody has its turn.
    ensures somebody { (f : Utf8) (i : ℕ) (b : Broker)
        → IsShared b → shares f (subscriptions_at i b.sessions) ≡ true
        → (j : ℕ) × (has_turn_of f (subscriptions_at j b.sessions) ≡ true) }
    // Without No Local one that has its turn holds for each message that its filter matches, behind the share name.
    ensures forwards { (own : Bool) (s : Subscription) (h : Share) (p : Publish)
        → s.share ≡ Some h → turn_in s.share ≡ true → s.no_local ≡ false
        → holds_for own s p ≡ hits (h.topic_filter ∷ []) p }
    // Of a shared subscription that hasn't its turn nothing is forwarded.
    ensures waits { (own : Bool) (s : Subscription) (h : Share) (p : Publish)
        → s.share ≡ Some h → turn_in s.share ≡ false → holds_for own s p ≡ false }
    // Once a packet is served, no more filters of them are had than may be, or than were had before (4.13).
    ensures no_more { (c i : ℕ) (x : Packet) (b : Broker)
        → length (serves c i x b).groups ≤ max (length b.groups) b.bounds.shared }
{}

/// A law, which does nothing when it is called: what is forwarded to a client that connected as a user, or copied for it of what is
/// retained, is of topics to which that user may subscribe; what it may not publish comes to no session; and nobody is connected
/// under the identifier of another user's session (5.4.2).
pub fn rights_law()
    // A topic that matches a filter within others matches one of these.
    ensures filters { (t f : List ℕ) (fs : List Utf8)
        → topic_matches t f ≡ true → is_within f fs ≡ true → is_within t fs ≡ true }
    // Each subscription of such a client lies within what its user may subscribe to: so it is in a new broker, and after any calls,
    // of which none was refused for want of memory.
    ensures new { (b : Broker) → b.sessions.clients ≡ [] → b.members ≡ [] → IsWithin b }
    ensures calls { (calls : List Call) (b : Broker)
        → IsStanding b → IsWithin b → IsWithin (after_calls calls b) }
    // And then so does the topic of what is forwarded to it.
    ensures forwarded { (i u : ℕ) (own : Bool) (p q : Publish) (b : Broker)
        → IsWithin b → owner_at i b.members ≡ Some u
        → forwarded_to own (subscriptions_at i b.sessions) p ≡ Some q
        → is_within q.topic (rights_at u b.rights).subscribes ≡ true }
    // So does that of each retained message that is copied for a Subscribe, where its user may subscribe to all that it asks for, as
    // it may to the part that comes to the session.
    ensures part { (u : ℕ) (rs : List Rights) (s : Subscribe)
        → may_do (Some u) rs (packets.Subscribe (part_of (Some u) rs s)) ≡ true }
    ensures copies { (u : ℕ) (rs : List Rights) (kept : List Publish) (ss : List Subscription)
        (x : Packet) → may_do (Some u) rs x ≡ true
        → All (λ (p : Publish). is_within p.topic (rights_at u rs).subscribes ≡ true)
        (copies_for kept ss x) }
    // A publish that its user may not publish changes no session, or its connection ends by a fault of it; and who has a will that
    // it may not publish isn't connected.
    ensures publish { (c i : ℕ) (p : Publish) (b : Broker)
        → may_publish (owner_at i b.members) b.rights p.topic ≡ false
        → ((serves c i (packets.Publish p) b).sessions ≡ b.sessions)
        ⊎ ((reason : DisconnectReasonCode)
        × (fault_of i (packets.Publish p) b ≡ Some reason)
        × (serves c i (packets.Publish p) b ≡ refuses c i reason b)) }
    ensures will { (c : ℕ) (k : Connect) (w : LastWill) (b : Broker)
        → may_publish (user_at c b) b.rights w.topic ≡ false
        → (code : ConnectReturnCode) × (connects c k (Some w) b
        ≡ turns_away c (rejects_by k code) b) }
    // A client isn't connected under the identifier of another user's session.
    ensures other { (c i : ℕ) (k : Connect) (will : Option LastWill) (b : Broker)
        → (length k.client_id.bytes == 0) ≡ false → number_of k.client_id b.members ≡ Some i
        → is_same (user_at c b) (owner_at i b.members) ≡ false
        → admits c k will b ≡ turns_away c (rejects_by k return_codes.ClientIdentifierNotValid) b }
{
    matching_laws();
}

/// A law, which does nothing when it is called: of a client that is connected, and has nothing in its queue, nothing is passed on, and
/// nothing taken out. (To one for which nothing waits nothing is sent in any case: `waiting_law` of `mqtt5_sessions`.)
pub fn waiting_law()
    ensures { (c i : ℕ) (b : Broker) → (connection_at c b.connections).client ≡ Some i
        → is_here i b.sessions ≡ true → waits_at i b.sessions.clients ≡ false
        → has_passed c b ≡ false }
{}
