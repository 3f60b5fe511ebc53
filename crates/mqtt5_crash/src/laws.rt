//! What holds over the end of a client's process.

ghost use Rattle.std.specs.Prelude.{◌≡◌, ◌≢◌, ◌≤◌, ◌+◌, ◌*◌, ℕ, Bool, List, [], count_by};
ghost use Rattle.mqtt5_base.specs.declared.quality.QoS.{QoS};
ghost use Rattle.mqtt5_base.specs.declared.quality.QoS.TheVariants.{AtMostOnce, AtLeastOnce, ExactlyOnce};
ghost use Rattle.mqtt5_publish.specs.declared.publish.Publish.{Publish};
ghost use Rattle.mqtt5_control.specs.declared.connack.ConnAck.{ConnAck};
ghost use Rattle.mqtt5_session.specs.Session.{fresh};
ghost use Rattle.mqtt5_session.specs.Resuming.{resume_of};
ghost use Rattle.mqtt5_world.specs.declared.calls.Call.{Call};
ghost use Rattle.mqtt5_world.specs.Twins.{after_calls, replies_of, taken_up, SameReplies};
ghost use Rattle.mqtt5_world.specs.World.{start, run_world, losses};
ghost use Rattle.mqtt5_world.specs.Delivery.{IsClass, stored_in, stored_without, waiting_in};
ghost use Rattle.mqtt5_crash.specs.Restart.{IsTidySession, SetsAliasesFirst, after_connack, loaded_session, sent_by};
ghost use Rattle.mqtt5_crash.specs.Crashes.{AllTidy, AlikeWorlds, CrashEvent, as_losses, run_crashes};

use mqtt5_world::delivery_law;

/// A law, which does nothing when it is called: a session that is saved after any calls, and loaded by another process,
/// is as good as the one that was saved. It is taken up on a new connection, on which the broker sets each topic alias
/// before it uses it (MQTT 5.0 section 3.3.2.3.4), and no publish of the session has an empty property set.
pub fn store_law()
    // It replies to any calls what the session would have replied that was resumed in its place, but for pings.
    ensures loaded { (limit at : ℕ) (manual : Bool) (before later : List Call)
        → IsTidySession (after_calls before (fresh limit manual)) → SetsAliasesFirst [] later
        → SameReplies later
        (replies_of later (loaded_session (after_calls before (fresh limit manual))))
        (replies_of later (taken_up (after_calls before (fresh limit manual)) at)) }
    // So it does where both take the same ConnAck first, and are then resumed.
    ensures resumed { (limit at : ℕ) (manual : Bool) (ack : ConnAck) (before later : List Call)
        → IsTidySession (after_calls before (fresh limit manual)) → SetsAliasesFirst [] later
        → SameReplies later
        (replies_of later (taken_up
        (after_connack (loaded_session (after_calls before (fresh limit manual))) ack at) at))
        (replies_of later (taken_up
        (after_connack (after_calls before (fresh limit manual)) ack at) at)) }
    // And the same is sent again then, or the same is why nothing is.
    ensures resent { (limit at : ℕ) (manual : Bool) (ack : ConnAck) (before : List Call)
        → IsTidySession (after_calls before (fresh limit manual))
        → sent_by (resume_of
        (after_connack (loaded_session (after_calls before (fresh limit manual))) ack at) at)
        ≡ sent_by (resume_of
        (after_connack (after_calls before (fresh limit manual)) ack at) at) }
{}

/// A law, which does nothing when it is called: where a client's session is saved after each call, before the call's
/// output is sent, and no publish that is asked for has an empty property set, the end of the process is no more than a
/// lost connection.
pub fn crash_law()
    // All is as if the connection alone had been lost.
    ensures alike { (limit : ℕ) (events : List CrashEvent) → AllTidy events
        → AlikeWorlds (run_crashes events (start limit))
        (run_world (as_losses events) (start limit)) }
    // A class of QoS 0 or 2 was handed on at most as often as it was accepted.
    ensures at_most_once { (limit : ℕ) (events : List CrashEvent) (qos : QoS)
        (test : Publish → Bool) → AllTidy events → IsClass qos test → qos ≢ AtLeastOnce
        → count_by test (run_crashes events (start limit)).broker.handed
        ≤ count_by test (run_crashes events (start limit)).accepted }
    // One of QoS 1 or 2 at least as often, but for what is stored or waits.
    ensures at_least_once { (limit : ℕ) (events : List CrashEvent) (qos : QoS)
        (test : Publish → Bool) → AllTidy events → IsClass qos test → qos ≢ AtMostOnce
        → count_by test (run_crashes events (start limit)).accepted
        ≤ count_by test (run_crashes events (start limit)).broker.handed + count_by test
        (stored_in (run_crashes events (start limit)).session.core) + count_by test
        (waiting_in (run_crashes events (start limit)).session.core) }
    // One of QoS 1 at most once more for each lost connection and each end of the process.
    ensures for_each_loss { (limit : ℕ) (events : List CrashEvent) (test : Publish → Bool)
        → AllTidy events → IsClass AtLeastOnce test
        → count_by test (run_crashes events (start limit)).broker.handed
        ≤ (losses (as_losses events) + 1)
        * count_by test (run_crashes events (start limit)).accepted }
    // One of QoS 2 exactly as often, but for what waits, and what is stored under an id that the broker hasn't.
    ensures ledger { (limit : ℕ) (events : List CrashEvent) (test : Publish → Bool)
        → AllTidy events → IsClass ExactlyOnce test
        → count_by test (run_crashes events (start limit)).broker.handed + count_by test
        (waiting_in (run_crashes events (start limit)).session.core) + count_by test
        (stored_without (run_crashes events (start limit)).broker.ids
        (run_crashes events (start limit)).session.core)
        ≡ count_by test (run_crashes events (start limit)).accepted }
{
    delivery_law();
}
