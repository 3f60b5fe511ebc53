//! What holds of every run of a world.

ghost use Rattle.std.specs.Prelude.{◌≡◌, ◌≢◌, ◌≤◌, ◌+◌, ◌*◌, ℕ, Bool, true, false, List, [], count_by};
ghost use Rattle.std.specs.Bool.{Decides};
ghost use Rattle.mqtt5_base.specs.declared.quality.QoS.{QoS};
ghost use Rattle.mqtt5_base.specs.declared.quality.QoS.TheVariants.{AtMostOnce, AtLeastOnce, ExactlyOnce};
ghost use Rattle.mqtt5_publish.specs.declared.publish.Publish.{Publish};
ghost use Rattle.mqtt5_world.specs.declared.event.WorldEvent.{WorldEvent};
ghost use Rattle.mqtt5_world.specs.World.{start, run_world, losses};
ghost use Rattle.mqtt5_world.specs.Delivery.{HasOneToken, IsClass, has_content, stored_in, stored_without, waiting_in};

/// A law, which does nothing when it is called, of every world that a run reaches.
pub fn tokens_law()
    // Each id in use has one token, and a free id has none.
    ensures one { (limit : ℕ) (events : List WorldEvent) (id : ℕ)
        → HasOneToken (run_world events (start limit)) id }
    // The session refused no packet from the broker, and no resume.
    ensures none_refused { (limit : ℕ) (events : List WorldEvent)
        → (run_world events (start limit)).faults ≡ [] }
{}

/// A law, which does nothing when it is called: how often the publishes of a class are handed on, in every world that a
/// run reaches.
pub fn delivery_law()
    ensures at_most_once { (limit : ℕ) (events : List WorldEvent) (qos : QoS)
        (test : Publish → Bool) → IsClass qos test → qos ≢ AtLeastOnce
        → count_by test (run_world events (start limit)).broker.handed
        ≤ count_by test (run_world events (start limit)).accepted }
    ensures at_least_once { (limit : ℕ) (events : List WorldEvent) (qos : QoS)
        (test : Publish → Bool) → IsClass qos test → qos ≢ AtMostOnce
        → count_by test (run_world events (start limit)).accepted
        ≤ count_by test (run_world events (start limit)).broker.handed + count_by test
        (stored_in (run_world events (start limit)).session.core) + count_by test
        (waiting_in (run_world events (start limit)).session.core) }
    ensures for_each_loss { (limit : ℕ) (events : List WorldEvent) (test : Publish → Bool)
        → IsClass AtLeastOnce test
        → count_by test (run_world events (start limit)).broker.handed
        ≤ (losses events + 1) * count_by test (run_world events (start limit)).accepted }
    ensures ledger { (limit : ℕ) (events : List WorldEvent) (test : Publish → Bool)
        → IsClass ExactlyOnce test
        → count_by test (run_world events (start limit)).broker.handed + count_by test
        (waiting_in (run_world events (start limit)).session.core) + count_by test
        (stored_without (run_world events (start limit)).broker.ids
        (run_world events (start limit)).session.core)
        ≡ count_by test (run_world events (start limit)).accepted }
    // A content is a class, and its test decides.
    ensures contents { (c : Publish) → IsClass c.qos (has_content c) }
    ensures decides { (c p : Publish)
        → Decides (has_content c p) (record p { pkid = 0; dup = false } ≡ c) }
{}
