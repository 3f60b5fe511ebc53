//! What of all that is given to a broker is shown to each of its clients, while they subscribe and unsubscribe, go away and come
//! back, and while their sessions end and begin.

ghost use Rattle.std.specs.Prelude.{◌≡◌, ◌≢◌, ◌<◌, ◌≤◌, ◌+◌, ◌*◌, ◌⊎◌, ◌++◌, ◌∷◌, ◌==◌, []};
ghost use Rattle.std.specs.Prelude.{ℕ, Bool, true, Some, None, IfSome, List, count_by, slice_get};
ghost use Rattle.std.specs.Prelude.{false, length, Option, if◌then◌else◌};
ghost use Rattle.std.specs.List.{All, Contains, filter_map, find};
ghost use Rattle.mqtt5_base.specs.declared.quality.QoS.{QoS};
ghost use Rattle.mqtt5_base.specs.declared.quality.QoS.TheVariants.{AtMostOnce, AtLeastOnce, ExactlyOnce};
ghost use Rattle.mqtt5_publish.specs.declared.publish.Publish.{Publish};
ghost use Rattle.mqtt5_codec.specs.declared.packet.Packet.{Packet};
ghost use Rattle.mqtt5_session.specs.Session.{Session};
ghost use Rattle.mqtt5_world.specs.Delivery.{IsClass};
ghost use Rattle.mqtt5_network.specs.Receiver.{shown, IsPlain, IsReceiver};
ghost use Rattle.mqtt5_network.specs.Connection.{kept_at};
ghost use Rattle.mqtt5_network.specs.declared.subscription.Subscription.{Subscription};
ghost use Rattle.mqtt5_network.specs.declared.event.ClientEvent.TheVariants as events;
ghost use Rattle.mqtt5_network.specs.declared.event.NetworkEvent.{NetworkEvent};
ghost use Rattle.mqtt5_network.specs.declared.event.Will.{Will};
ghost use Rattle.mqtt5_network.specs.Subscriptions.{granted_for, forwarded_to, without_turns};
ghost use Rattle.mqtt5_network.specs.Client.{Client, routed};
ghost use Rattle.mqtt5_network.specs.Retained.{is_to, retained_of, last_after};
ghost use Rattle.mqtt5_network.specs.Place.{Place, copies_in, AtRest};
ghost use Rattle.mqtt5_network.specs.Network.{Network, handed_by, happens_in, run_network};
ghost use Rattle.mqtt5_network.specs.Network.{IsReached, AllAtRest, IsDone, HasTokens, given_in};
ghost use Rattle.mqtt5_network.specs.Network.{most_in, kept_by, lost_in, unacked_in};
ghost use Rattle.mqtt5_network.specs.Granted.{published, Grants, GrantsNone, GrantsOthers, Reaches};
ghost use Rattle.mqtt5_network.specs.Granted.{Covers, AtPlace, Throughout, GoesOn, Lives};
ghost use Rattle.mqtt5_network.specs.Granted.{Unchanged, IsHeard, IsNew, IsCopy};
ghost use Rattle.mqtt5_network.specs.Granted.{NoneKeepRetain, KeepsFirst, reaching};
ghost use Rattle.mqtt5_network.specs.Steps.{IsStep, Steps, work_left, moves, moved, HereAtRest};
ghost use Rattle.mqtt5_network.specs.Answered.{answers_told, asked_in, subscriptions_by, IsClear};

/// A law, which does nothing when it is called: how often the publishes of a class are shown to a
/// client, of those that were put into its queue, however often its connection was lost and it was
/// away (MQTT 5.0 sections 4.1, 4.3 and 4.4).
pub fn shown_law()
    // At rest a class of QoS 2 was shown, or expired in the queue, exactly as often as it was put
    // into it. That this one client is at rest is enough.
    ensures exactly_once { (n : Network) (p : Place) (test : Publish → Bool)
        → IsReached n → Contains n.places p → IsClass ExactlyOnce test → AtRest p
        → count_by test (shown p.client.session) + count_by test p.client.expired
        ≡ count_by test (routed p.client) }
    // One of QoS 1 at least as often.
    ensures at_least_once { (n : Network) (p : Place) (test : Publish → Bool)
        → IsReached n → Contains n.places p → IsClass AtLeastOnce test → AtRest p
        → count_by test (routed p.client)
        ≤ count_by test (shown p.client.session) + count_by test p.client.expired }
    // At any time, also while it is away, one of QoS 0 or 2 at most as often.
    ensures at_most_once { (n : Network) (p : Place) (qos : QoS) (test : Publish → Bool)
        → IsReached n → Contains n.places p → qos ≢ AtLeastOnce → IsClass qos test
        → count_by test (shown p.client.session) ≤ count_by test (routed p.client) }
    // One of any QoS at most once, and once more for each new connection of the client.
    ensures for_each_loss { (n : Network) (p : Place) (qos : QoS) (test : Publish → Bool)
        → IsReached n → Contains n.places p → IsClass qos test
        → count_by test (shown p.client.session)
        ≤ (p.client.lost + 1) * count_by test (routed p.client) }
    // And one of QoS 2 was shown, is kept at the broker's sender, is in the queue, or expired there,
    // for each time it was put into it.
    ensures ledger { (n : Network) (p : Place) (test : Publish → Bool)
        → IsReached n → Contains n.places p → IsClass ExactlyOnce test
        → count_by test (shown p.client.session)
        + kept_at p.client.session.core.incoming p.client.sender.core test
        + count_by test p.client.expired
        + count_by test p.client.queue ≡ count_by test (routed p.client) }
{}

/// A law, which does nothing when it is called: what is put into a client's queue, of what the
/// broker hands on (MQTT 5.0 section 3.3.4); and how often it hands the publishes of a class on, of
/// those that the sessions of all clients accepted, and of their wills (3.1.2.5).
pub fn routing_law()
    // In an event that doesn't end its session that is added to what was ever put into the queue of
    // the client at a place, here or away: where the event is one of it, the copies that a Subscribe
    // brings (3.3.1.3), and what is forwarded, under its subscriptions as they are then, of what the
    // broker hands on then.
    ensures added { (n : Network) (e : NetworkEvent) (i : ℕ) (p q : Place)
        → slice_get n.places i ≡ Some p → slice_get (happens_in n e).places i ≡ Some q
        → (i ≡ e.client → GoesOn e.what)
        → routed q.client ≡ routed p.client
        ++ (if i == e.client then copies_in n.handed p e.what else [])
        ++ filter_map (forwarded_to (i == e.client) q.client.subscriptions) (handed_by n e) }
    // Where all are here and at rest a class of QoS 2 was handed on exactly as often as it was
    // accepted or published as a will, but for what sessions that ended took along.
    ensures exactly_once { (n : Network) (test : Publish → Bool)
        → IsReached n → IsClass ExactlyOnce test → AllAtRest n
        → count_by test n.handed + lost_in n test ≡ given_in n test }
    // One of QoS 1 at least as often, but for what these had no ack for.
    ensures at_least_once { (n : Network) (test : Publish → Bool)
        → IsReached n → IsClass AtLeastOnce test → AllAtRest n
        → given_in n test ≤ count_by test n.handed + unacked_in n test }
    // At any time one of QoS 0 or 2 at most as often.
    ensures at_most_once { (n : Network) (qos : QoS) (test : Publish → Bool)
        → IsReached n → qos ≢ AtLeastOnce → IsClass qos test
        → count_by test n.handed ≤ given_in n test }
    // One of any QoS at most once, and once more for each new connection of the client that
    // published it.
    ensures for_each_loss { (n : Network) (qos : QoS) (test : Publish → Bool)
        → IsReached n → IsClass qos test → count_by test n.handed ≤ most_in n test }
    // And one of QoS 2 was handed on, is on its way to the broker, also from who is away, or was
    // taken along.
    ensures ledger { (n : Network) (test : Publish → Bool)
        → IsReached n → IsClass ExactlyOnce test
        → count_by test n.handed + kept_by n.places test + lost_in n test ≡ given_in n test }
{}

/// A law, which does nothing when it is called: how often the publishes of a class are shown to a
/// client, of those that the sessions of all clients accepted, and of their wills, by what its
/// subscriptions grant while the network runs (MQTT 5.0 sections 3.3.4 and 3.8.4). What expired in
/// its queue counts as if it was shown (3.3.2.3.3).
pub fn granted_law()
    // Where from some moment on the client at a place was granted QoS 2 for each of a class of new
    // messages of QoS 2, and its session went on, and none of it was given before: once all are here
    // and at rest it was shown each that was given, exactly once, also those that came while it was
    // away, but for what other sessions took along when they ended.
    ensures exactly_once { (n : Network) (es : List NetworkEvent) (i : ℕ) (test : Publish → Bool)
        → IsReached n → IsClass ExactlyOnce test → IsNew test
        → given_in n (published test) ≡ 0 → Lives i es
        → Throughout es (AtPlace i (Grants test)) n → AllAtRest (run_network es n)
        → AtPlace i (λ (c : Client).
        count_by test (shown c.session) + count_by test c.expired
        + lost_in (run_network es n) (published test)
        ≡ given_in (run_network es n) (published test)) (run_network es n) }
    // So at least once each of a class of QoS 1, where it was granted QoS 1 or 2, but for what other
    // sessions had no ack for when they ended.
    ensures at_least_once { (n : Network) (es : List NetworkEvent) (i : ℕ) (test : Publish → Bool)
        → IsReached n → IsClass AtLeastOnce test → given_in n (published test) ≡ 0 → Lives i es
        → Throughout es (AtPlace i (Grants test)) n → AllAtRest (run_network es n)
        → AtPlace i (λ (c : Client). given_in (run_network es n) (published test)
        ≤ count_by test (shown c.session) + count_by test c.expired
        + unacked_in (run_network es n) (published test))
        (run_network es n) }
    // Where that was granted for the others' alone, as with No Local, it was shown each but its own
    // (3.8.3.1), but for what other sessions took along.
    ensures not_its_own { (n : Network) (es : List NetworkEvent) (i : ℕ) (test : Publish → Bool)
        → IsReached n → IsClass ExactlyOnce test → IsNew test
        → given_in n (published test) ≡ 0 → Lives i es
        → Throughout es (AtPlace i (GrantsOthers test)) n → AllAtRest (run_network es n)
        → IfSome (slice_get (run_network es n).places i) (λ (p : Place).
        count_by test (shown p.client.session) + count_by test p.client.expired
        + (count_by (published test) p.client.accepted + count_by (published test) p.willed)
        + lost_in (run_network es n) (published test)
        ≡ given_in (run_network es n) (published test)) }
    // Where QoS 2 was granted for some of the class alone, and from that moment on the same publishes
    // reached it as ones of the class: exactly once each of these, but for what other sessions took
    // along.
    ensures of_what_reaches { (n : Network) (es : List NetworkEvent) (i : ℕ)
        (test : Publish → Bool) (kind : Publish → Bool)
        → IsReached n → IsClass ExactlyOnce test → IsNew test → IsClass ExactlyOnce kind
        → given_in n (published test) ≡ 0 → Lives i es
        → Throughout es (AtPlace i (Reaches test kind)) n → AllAtRest (run_network es n)
        → AtPlace i (λ (c : Client).
        count_by test (shown c.session) + count_by test c.expired
        + lost_in (run_network es n) kind
        ≡ given_in (run_network es n) kind) (run_network es n) }
    // And where all was at rest at that moment, it was shown as many more of QoS 2 as were given
    // since, but for what was taken along since.
    ensures exactly_since { (n : Network) (more : List NetworkEvent) (i : ℕ) (p q : Place)
        (test : Publish → Bool)
        → IsReached n → IsClass ExactlyOnce test → IsNew test → AllAtRest n → Lives i more
        → slice_get n.places i ≡ Some p → slice_get (run_network more n).places i ≡ Some q
        → Throughout more (AtPlace i (Grants test)) n → AllAtRest (run_network more n)
        → count_by test (shown q.client.session) + count_by test q.client.expired
        + given_in n (published test) + lost_in (run_network more n) (published test)
        ≡ count_by test (shown p.client.session) + count_by test p.client.expired
        + given_in (run_network more n) (published test) + lost_in n (published test) }
    // Where it was granted nothing for any of a class of new ones of QoS 2, none was put into its
    // queue (that what was in it is still shown, 3.10.4, is `shown_law`).
    ensures for_none { (n : Network) (es : List NetworkEvent) (i : ℕ) (p q : Place)
        (test : Publish → Bool)
        → IsClass ExactlyOnce test → IsNew test → Lives i es
        → slice_get n.places i ≡ Some p → slice_get (run_network es n).places i ≡ Some q
        → Throughout es (AtPlace i (GrantsNone test)) n
        → count_by test (routed q.client) ≡ count_by test (routed p.client) }
    // However its subscriptions change, at any time no new message that is forwarded at QoS 2 was
    // shown twice by the session that it has.
    ensures never_twice { (n : Network) (p : Place) (test : Publish → Bool)
        → IsReached n → Contains n.places p → IsClass ExactlyOnce test → IsNew test
        → count_by test (shown p.client.session) ≤ given_in n (published test) }
    // And in some network with all at rest a client was shown the one message that its session had
    // accepted, of QoS 2, so the promises aren't empty.
    ensures shows { (n : Network) × (p : Place) × (x : Publish)
        × IsReached n × Contains n.places p × AllAtRest n
        × (x.qos ≡ ExactlyOnce) × (p.client.accepted ≡ x ∷ [])
        × (shown p.client.session ≡ record x { pkid = 1 } ∷ []) }
{}

/// A law, which does nothing when it is called: how long what is granted to a client stays (MQTT 5.0
/// sections 3.8.4 and 3.10.4).
pub fn subscribing_law()
    // What is granted for a class stays so while the client asks for nothing about its subscriptions,
    // no such request is on its way, it keeps its turns, and its session goes on.
    ensures stays { (n : Network) (es : List NetworkEvent) (i : ℕ) (test : Publish → Bool)
        → IsReached n → Unchanged i es
        → AtPlace i (λ (c : Client). IsHeard c × Grants test c) n
        → Throughout es (AtPlace i (Grants test)) n }
    // So where the client at a place has a subscription then that grants QoS 2 for a class of new
    // messages of QoS 2, of which none was given before: once all are here and at rest it was shown
    // each that was given, exactly once, but for what expired in its queue, and for what other
    // sessions took along when they ended.
    ensures exactly_once { (n : Network) (es : List NetworkEvent) (i : ℕ) (s : Subscription)
        (test : Publish → Bool)
        → IsReached n → IsClass ExactlyOnce test → IsNew test → Covers test s
        → given_in n (published test) ≡ 0
        → AtPlace i (λ (c : Client). IsHeard c × Contains c.subscriptions s) n → Unchanged i es
        → AllAtRest (run_network es n)
        → AtPlace i (λ (c : Client).
        count_by test (shown c.session) + count_by test c.expired
        + lost_in (run_network es n) (published test)
        ≡ given_in (run_network es n) (published test)) (run_network es n) }
{}

/// A law, which does nothing when it is called: what a client knows of its subscriptions by the
/// answers that it is told of: a SubAck or an UnsubAck to each request that its session accepts, or
/// fewer (MQTT 5.0 sections 3.8.4, 3.10.4 and 4.4).
pub fn answered_law()
    // On a new connection no request of the client and no answer to one is on its way.
    ensures clear { (n : Network) (i : ℕ) (p : Place) (a b : Option ℕ) (will : Option Will)
        → IsReached n
        → slice_get (happens_in n (record { client = i; what = events.Back a b will })).places i
        ≡ Some p
        → IsClear p.client }
    // From a moment at which none is, and while its session goes on, the client at a place is told
    // of at most as many answers as its session accepts requests.
    ensures at_most { (n : Network) (es : List NetworkEvent) (i : ℕ) (p q : Place)
        → IsReached n → Lives i es → slice_get n.places i ≡ Some p
        → slice_get (run_network es n).places i ≡ Some q → IsClear p.client
        → answers_told q.client.session
        ≤ answers_told p.client.session + length (asked_in i es n) }
    // Where it was told of as many, the broker took each request in, in order: none is on its way,
    // and the subscriptions are what they made of those of that moment, but for whose turn it is in
    // shared ones. Else it was told of fewer: a request and an answer are lost with their connection,
    // and not sent again (4.4).
    ensures taken_in { (n : Network) (since : List NetworkEvent) (i : ℕ) (p q : Place)
        → IsReached n → Lives i since → slice_get n.places i ≡ Some p
        → slice_get (run_network since n).places i ≡ Some q → IsClear p.client
        → answers_told q.client.session ≡ answers_told p.client.session
        + length (asked_in i since n)
        → IsClear q.client
        × (without_turns q.client.subscriptions
        ≡ subscriptions_by (asked_in i since n) (without_turns p.client.subscriptions)) }
    // So where it was told of as many, what it asked for leaves a subscription that grants QoS 2
    // for a class of new messages of QoS 2, of which none was given before, and it asks for nothing
    // more: once all are here and at rest it was shown each that was given, exactly once, but for
    // what expired in its queue, and for what other sessions took along when they ended.
    ensures exactly_once { (n m : Network) (since more : List NetworkEvent) (i : ℕ) (p q : Place)
        (s : Subscription) (test : Publish → Bool)
        → IsReached n → Lives i since → m ≡ run_network since n
        → slice_get n.places i ≡ Some p → slice_get m.places i ≡ Some q → IsClear p.client
        → answers_told q.client.session
        ≡ answers_told p.client.session + length (asked_in i since n)
        → Contains (subscriptions_by (asked_in i since n) []) s → Covers test s
        → IsClass ExactlyOnce test → IsNew test → given_in m (published test) ≡ 0
        → Unchanged i more → AllAtRest (run_network more m)
        → AtPlace i (λ (c : Client).
        count_by test (shown c.session) + count_by test c.expired
        + lost_in (run_network more m) (published test)
        ≡ given_in (run_network more m) (published test)) (run_network more m) }
    // And in some network a client asked once, and was told of the answer, so the promises aren't
    // empty.
    ensures shows { (n : Network) × (es : List NetworkEvent) × (p : Place) × (q : Place)
        × IsReached n × Lives 0 es × (slice_get n.places 0 ≡ Some p)
        × (slice_get (run_network es n).places 0 ≡ Some q) × IsClear p.client
        × (length (asked_in 0 es n) ≡ 1)
        × (answers_told q.client.session ≡ answers_told p.client.session + 1) }
{}

/// A law, which does nothing when it is called: how often the publishes of a class are shown to a
/// client that keeps the subscriptions that it began with, of those that reach it (MQTT 5.0 section
/// 3.3.4).
pub fn standing_law()
    // Once all are here and at rest a class of QoS 2 was shown exactly as often as it was given, but
    // for what expired in its queue, and for what sessions that ended took along.
    ensures exactly_once { (n : Network) (i : ℕ) (p : Place) (test : Publish → Bool)
        → KeepsFirst n i p → IsClass ExactlyOnce test → AllAtRest n
        → count_by test (shown p.client.session) + count_by test p.client.expired
        + lost_in n (reaching p.client.subscriptions test)
        ≡ given_in n (reaching p.client.subscriptions test) }
    // One of QoS 1 at least as often, but for what expired, and for what these took along, or had no
    // ack for.
    ensures at_least_once { (n : Network) (i : ℕ) (p : Place) (test : Publish → Bool)
        → KeepsFirst n i p → IsClass AtLeastOnce test → AllAtRest n
        → given_in n (reaching p.client.subscriptions test)
        ≤ count_by test (shown p.client.session) + count_by test p.client.expired
        + unacked_in n (reaching p.client.subscriptions test)
        + lost_in n (reaching p.client.subscriptions test) }
    // At any time one of QoS 2 at most as often.
    ensures at_most_once { (n : Network) (i : ℕ) (p : Place) (test : Publish → Bool)
        → KeepsFirst n i p → IsClass ExactlyOnce test
        → count_by test (shown p.client.session)
        ≤ given_in n (reaching p.client.subscriptions test) }
    // So one of QoS 0 of which none was published at QoS 1.
    ensures at_most_once_at_0 { (n : Network) (i : ℕ) (p : Place) (test : Publish → Bool)
        → KeepsFirst n i p → IsClass AtMostOnce test
        → ((x : Publish) → reaching p.client.subscriptions test x ≡ true → x.qos ≢ AtLeastOnce)
        → count_by test (shown p.client.session)
        ≤ given_in n (reaching p.client.subscriptions test) }
    // One of any QoS at most once, and once more for each new connection of either client.
    ensures for_each_loss { (n : Network) (i : ℕ) (p : Place) (qos : QoS) (test : Publish → Bool)
        → KeepsFirst n i p → IsClass qos test
        → count_by test (shown p.client.session)
        ≤ (p.client.lost + 1) * most_in n (reaching p.client.subscriptions test) }
    // One of QoS 2 was shown, is kept at the broker's sender, is in the queue, expired there, is on
    // its way to the broker, or was taken along, for each time it was given.
    ensures ledger { (n : Network) (i : ℕ) (p : Place) (test : Publish → Bool)
        → KeepsFirst n i p → IsClass ExactlyOnce test
        → count_by test (shown p.client.session)
        + kept_at p.client.session.core.incoming p.client.sender.core test
        + count_by test p.client.queue + count_by test p.client.expired
        + kept_by n.places (reaching p.client.subscriptions test)
        + lost_in n (reaching p.client.subscriptions test)
        ≡ given_in n (reaching p.client.subscriptions test) }
    // One that no filter of the client matches is never shown to it.
    ensures for_none { (n : Network) (i : ℕ) (p : Place) (qos : QoS) (test : Publish → Bool)
        → KeepsFirst n i p → IsClass qos test
        → ((x : Publish) → test x ≡ true → granted_for false p.client.subscriptions x ≡ None)
        → count_by test (shown p.client.session) ≡ 0 }
{}

/// A law, which does nothing when it is called: what is retained of a topic is the last publish that was handed on to it with
/// retain, and nothing where that was empty (MQTT 5.0 section 3.3.1.3).
pub fn retained_law()
    ensures { (handed : List Publish) (topic : List ℕ)
        → find (is_to topic) (retained_of handed) ≡ last_after topic None handed }
{}

/// A law, which does nothing when it is called: the copies of retained messages that a client is shown (MQTT 5.0 sections 3.3.1.3
/// and 3.8.4).
pub fn copies_law()
    // Where a packet of the client at a place arrives, and then none about subscriptions is on its
    // way, no subscription of it has Retain As Published, it asks for none and its session goes on:
    // once it is here and at rest it was shown, of a class of copies of QoS 2, what had been put into
    // its queue before, and exactly once each that the packet brought, but for what expired in it.
    ensures exactly_once { (n : Network) (es : List NetworkEvent) (i : ℕ) (p q : Place)
        (test : Publish → Bool)
        → IsReached n → IsClass ExactlyOnce test → IsCopy test
        → slice_get n.places i ≡ Some p
        → slice_get (run_network (record { client = i; what = events.Up } ∷ es) n).places i
        ≡ Some q
        → AtPlace i (λ (c : Client). IsHeard c × NoneKeepRetain c.subscriptions)
        (happens_in n (record { client = i; what = events.Up }))
        → Unchanged i es → AtRest q
        → count_by test (shown q.client.session) + count_by test q.client.expired
        ≡ count_by test (routed p.client) + count_by test (copies_in n.handed p events.Up) }
{}

/// A law, which does nothing when it is called, of each client of every network that is reached.
pub fn clients_law()
    // Of one that is here each id in use has one token, both ways (MQTT 5.0 section 4.3).
    ensures tokens { (n : Network) (p : Place) (id : ℕ)
        → IsReached n → Contains n.places p → p.here ≡ true → HasTokens p.client id }
    // At rest neither side stores anything, lets it wait, or waits for a release.
    ensures done { (n : Network) (p : Place)
        → IsReached n → Contains n.places p → AtRest p → IsDone p.client }
{}

/// A law, which does nothing when it is called: steps, with no request, no loss and no new connection, come to rest in any order
/// (MQTT 5.0 sections 4.3 and 4.4).
pub fn steps_law()
    // Each that finds something to do leaves less work.
    ensures lowers { (n : Network) (more : List NetworkEvent)
        → IsReached n → Steps more → work_left (run_network more n) + moved more n ≤ work_left n }
    // Where as many found something as there was work, each client that is here is at rest.
    ensures all_moved { (n : Network) (more : List NetworkEvent)
        → IsReached n → Steps more → work_left n ≤ moved more n
        → HereAtRest (run_network more n) }
    // And where one that is here isn't at rest, some step finds something to do, if the broker may
    // use an id to each client.
    ensures goes_on { (n : Network) → IsReached n
        → All (λ (p : Place). 0 < p.client.sender.core.limit) n.places
        → HereAtRest n ⊎ ((e : NetworkEvent) × IsStep e.what × (moves n e ≡ 1)) }
{}

/// A law, which does nothing when it is called: a session that sends its acks itself takes a publish without a topic alias, and a
/// release, as a broker takes those of a client (MQTT 5.0 section 4.3).
pub fn receiver_law()
    ensures { (s : Session) (x : Packet) (at : ℕ)
        → s.core.manual_acks ≡ false → IsPlain x → IsReceiver s x at }
{}
