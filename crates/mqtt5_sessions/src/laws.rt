//! What a broker keeps follows each event of a network; and it can do without the events at its senders.

ghost use Rattle.std.specs.Prelude.{◌≡◌, ◌<◌, ◌≤◌, [], ◌∷◌, ◌++◌, ℕ, Bool, false, List, Option, Some, length, map, slice_get};
ghost use Rattle.mqtt5_base.specs.Texts.{Utf8};
ghost use Rattle.mqtt5_publish.specs.declared.publish.Publish.{Publish};
ghost use Rattle.mqtt5_subscribe.specs.declared.subscribe.Subscribe.{Subscribe};
ghost use Rattle.mqtt5_codec.specs.declared.packet.Packet.{Packet};
ghost use Rattle.mqtt5_codec.specs.declared.packet.Packet.TheVariants as packets;
ghost use Rattle.mqtt5_session.specs.Resuming.{resume_of};
ghost use Rattle.mqtt5_network.specs.declared.event.ClientEvent.{ClientEvent};
ghost use Rattle.mqtt5_network.specs.declared.event.ClientEvent.TheVariants as events;
ghost use Rattle.mqtt5_network.specs.declared.event.NetworkEvent.{NetworkEvent};
ghost use Rattle.mqtt5_network.specs.declared.event.Will.{Will};
ghost use Rattle.mqtt5_network.specs.declared.subscription.Subscription.{Subscription};
ghost use Rattle.mqtt5_network.specs.Connection.{connected, sent_in};
ghost use Rattle.mqtt5_network.specs.Retained.{copies_for};
ghost use Rattle.mqtt5_network.specs.Place.{Place};
ghost use Rattle.mqtt5_network.specs.Network.{Network, Profile, happens_in, run_network, IsReached};
ghost use Rattle.mqtt5_router.specs.Kept.{Kept, without_events, kept_of, after_packet, after_pass};
ghost use Rattle.mqtt5_sessions.specs.Sessions.{sessions_of, arrives, passes, takes_out, loses, is_due};
ghost use Rattle.mqtt5_sessions.specs.Sessions.{dates, turns, leaves, taken_up, comes, ends};
ghost use Rattle.mqtt5_sessions.specs.Sessions.{Sessions, replies, passed, sent_again};
ghost use Rattle.mqtt5_sessions.specs.Runs.{after_events, no_sessions, RunEvent, IsOfClient, at_broker};
ghost use Rattle.mqtt5_sessions.specs.Bringing.{brought};
ghost use Rattle.mqtt5_sessions.specs.Waiting.{waits_at};
ghost use Rattle.mqtt5_sessions.specs.Runs.{limits_in, with_new, before, HaveNone, all_in_network, IsRun};

/// A law, which does nothing when it is called: what a broker keeps of a network, after each event of the client at a place, is
/// what its own definitions make of it (MQTT 5.0 sections 3.1.2.4, 3.1.2.5, 3.1.3.2.2, 3.3.4, 3.8, 4.1, 4.3, 4.4 and 4.8.2).
pub fn sessions_law()
    // A packet on its way up arrives.
    ensures up { (n : Network) (i : ℕ) (p : Place) (x : Packet) (way : List Packet)
        → slice_get n.places i ≡ Some p → p.client.up ≡ x ∷ way
        → sessions_of (happens_in n (record { client = i; what = events.Up }))
        ≡ arrives i x (sessions_of n) }
    // The first of its queue is passed on.
    ensures pass { (n : Network) (i : ℕ)
        → sessions_of (happens_in n (record { client = i; what = events.PassOn }))
        ≡ passes i (sessions_of n) }
    // The first of its queue has expired.
    ensures expire { (n : Network) (i : ℕ)
        → sessions_of (happens_in n (record { client = i; what = events.Expire }))
        ≡ takes_out i (sessions_of n) }
    // Its connection is lost.
    ensures lost { (n : Network) (i : ℕ)
        → sessions_of (happens_in n (record { client = i; what = events.Lost }))
        ≡ loses i (sessions_of n) }
    // The delay of its will has passed.
    ensures due { (n : Network) (i : ℕ)
        → sessions_of (happens_in n (record { client = i; what = events.Due }))
        ≡ is_due i (sessions_of n) }
    // Its will has another Message Expiry Interval.
    ensures dated { (n : Network) (i : ℕ) (interval : Option ℕ)
        → sessions_of (happens_in n (record { client = i; what = events.Dated interval }))
        ≡ dates i interval (sessions_of n) }
    // It is given the turn in a shared subscription, or that is taken from it (4.8.2).
    ensures turn { (n : Network) (i : ℕ) (f : Utf8) (turn : Bool)
        → sessions_of (happens_in n (record { client = i; what = events.Turn f turn }))
        ≡ turns i f turn (sessions_of n) }
    // It leaves.
    ensures left { (n : Network) (i : ℕ)
        → sessions_of (happens_in n (record { client = i; what = events.Left }))
        ≡ leaves i (sessions_of n) }
    // It comes on a new connection.
    ensures back { (n : Network) (i : ℕ) (a b : Option ℕ) (will : Option Will)
        → sessions_of (happens_in n (record { client = i; what = events.Back a b will }))
        ≡ comes i b will (sessions_of n) }
    // Its session ends.
    ensures ended { (n : Network) (i : ℕ)
        → sessions_of (happens_in n (record { client = i; what = events.Ends }))
        ≡ ends i (sessions_of n) }
{}

/// A law, which does nothing when it is called: what a broker answers doesn't depend on the events at its senders, and what it
/// keeps then is the same but for these. So one that takes them out after each step answers as one that never does (MQTT 5.0
/// sections 3.8, 3.10, 4.3 and 4.4).
pub fn quiet_law()
    // A packet of a client comes: the reply.
    ensures reply { (k : Kept) (x : Packet)
        → (after_packet (without_events k) x).down ≡ (after_packet k x).down }
    // What is handed on.
    ensures handed { (k : Kept) (x : Packet)
        → (after_packet (without_events k) x).receiver.handed
        ≡ (after_packet k x).receiver.handed }
    // And what is kept.
    ensures packet { (k : Kept) (x : Packet)
        → without_events (kept_of (after_packet (without_events k) x))
        ≡ without_events (kept_of (after_packet k x)) }
    // The first of its queue is passed on: what is sent.
    ensures sent { (k : Kept) → (after_pass (without_events k)).down ≡ (after_pass k).down }
    // And what is kept.
    ensures pass { (k : Kept)
        → without_events (kept_of (after_pass (without_events k)))
        ≡ without_events (kept_of (after_pass k)) }
    // It comes on a new connection: what is sent again.
    ensures again { (m : Option ℕ) (k : Kept)
        → sent_in (resume_of (connected m (without_events k).sender) 0)
        ≡ sent_in (resume_of (connected m k.sender) 0) }
    // And what is kept.
    ensures back { (m : Option ℕ) (k : Kept) → taken_up m (without_events k) ≡ taken_up m k }
{}

/// A law, which does nothing when it is called: a whole run of what a broker keeps is one of a network (MQTT 5.0 sections 4.1, 4.3 and
/// 4.4). So the laws of a network hold of what is sent to clients of this code.
pub fn run_law()
    // What a client does alone, asking for something or taking a packet, changes nothing that the broker keeps.
    ensures alone { (n : Network) (i : ℕ) (e : ClientEvent) → IsOfClient e
        → sessions_of (happens_in n (record { client = i; what = e })) ≡ sessions_of n }
    // Events at the broker and at its clients, of which each packet that arrives is the first on its way up in the network: what the
    // broker keeps after them is what it keeps in the network, beside clients that come to be known later.
    ensures same { (ps : List Profile) (es : List RunEvent) (limits : List ℕ)
        → HaveNone ps → map (λ (p : Profile). p.sender_limit) ps ≡ limits_in es ++ limits
        → IsRun no_sessions (before ps) es
        → sessions_of (run_network (all_in_network no_sessions es) (before ps))
        ≡ with_new limits (after_events (at_broker es) no_sessions) }
    // And that network is one that is reached.
    ensures reached { (ps : List Profile) (es : List NetworkEvent)
        → IsReached (run_network es (before ps)) }
{}

/// A law, which does nothing when it is called: what is sent to a client is what goes down to it in a network (4.3 and 4.4).
pub fn sends_law()
    // The reply to a packet of it.
    ensures reply { (n : Network) (i : ℕ) (p q : Place)
        → slice_get n.places i ≡ Some p
        → (x : Packet) (way : List Packet) → p.client.up ≡ x ∷ way
        → slice_get (happens_in n (record { client = i; what = events.Up })).places i ≡ Some q
        → q.client.down ≡ p.client.down ++ replies i x (sessions_of n) }
    // The first of its queue.
    ensures pass { (n : Network) (i : ℕ) (p q : Place)
        → slice_get n.places i ≡ Some p
        → slice_get (happens_in n (record { client = i; what = events.PassOn })).places i ≡ Some q
        → q.client.down ≡ p.client.down ++ passed i (sessions_of n) }
    // And what is sent again on a new connection, on which nothing else is on its way.
    ensures again { (n : Network) (i : ℕ) (p q : Place)
        → slice_get n.places i ≡ Some p
        → (a m : Option ℕ) (will : Option Will)
        → slice_get (happens_in n
        (record { client = i; what = events.Back a m will })).places i ≡ Some q
        → q.client.down ≡ sent_again i m (sessions_of n) }
    // Clients that aren't known yet change nothing of what is sent to one that is.
    ensures known { (s : Sessions) (limits : List ℕ) (i : ℕ) → i < length s.clients
        → ((x : Packet) → replies i x (with_new limits s) ≡ replies i x s)
        × (passed i (with_new limits s) ≡ passed i s)
        × ((m : Option ℕ) → sent_again i m (with_new limits s) ≡ sent_again i m s) }
{}

/// A law, which does nothing when it is called: to a client that isn't connected, or has nothing in its queue, nothing is passed on. So
/// who asks only for those that `Sessions::next_waiting` finds misses nothing.
pub fn waiting_law()
    ensures { (i : ℕ) (s : Sessions) → waits_at i s.clients ≡ false → passed i s ≡ [] }
{}

/// A law, which does nothing when it is called: a Subscribe brings no more copies of retained messages than are counted. So one for
/// which `Sessions::overfills` answers that there is room leaves no more in the client's queue than may be there, unless more was there
/// before (MQTT 5.0 sections 3.3.1.3 and 3.8.3.1).
pub fn bringing_law()
    ensures { (kept : List Publish) (ss : List Subscription) (s : Subscribe)
        → length (copies_for kept ss (packets.Subscribe s)) ≤ brought kept ss s.filters }
{}
