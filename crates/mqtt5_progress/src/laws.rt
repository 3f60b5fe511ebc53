//! What deliveries without a loss do in the end.

ghost use Rattle.std.specs.Prelude.{◌≡◌, ◌≢◌, ◌≤◌, ◌+◌, ◌*◌, ◌++◌, ℕ, Bool, Option, List, [], count_by, length};
ghost use Rattle.mqtt5_base.specs.declared.quality.QoS.{QoS};
ghost use Rattle.mqtt5_base.specs.declared.quality.QoS.TheVariants.{AtLeastOnce, ExactlyOnce};
ghost use Rattle.mqtt5_publish.specs.declared.publish.Publish.{Publish};
ghost use Rattle.mqtt5_inflight.specs.Unacked.{requests_of};
ghost use Rattle.mqtt5_world.specs.declared.event.WorldEvent.{WorldEvent};
ghost use Rattle.mqtt5_world.specs.declared.event.WorldEvent.TheVariants as world_events;
ghost use Rattle.mqtt5_world.specs.World.{World, start, happens, run_world, losses};
ghost use Rattle.mqtt5_world.specs.Delivery.{IsClass};
ghost use Rattle.mqtt5_progress.specs.Progress.{Deliveries, Settled, deliveries, delivered, settle, work};

/// A law, which does nothing when it is called: after any run, four rounds in which all that is on its way up arrives and
/// then all that is on its way down, with no request and no loss, bring everything to its end.
pub fn progress_law()
    // Nothing is on its way, stored, waiting or held by the broker, and nothing was refused.
    ensures settled { (limit : ℕ) (events : List WorldEvent)
        → Settled (settle 4 (run_world events (start limit))) }
    // A class of QoS 2 was handed on exactly as often as it was accepted.
    ensures exactly_once { (limit : ℕ) (events : List WorldEvent) (test : Publish → Bool)
        → IsClass ExactlyOnce test
        → count_by test (settle 4 (run_world events (start limit))).broker.handed
        ≡ count_by test (run_world events (start limit)).accepted }
    // One of QoS 1 at least as often, and at most once more for each loss.
    ensures at_least_once { (limit : ℕ) (events : List WorldEvent) (test : Publish → Bool)
        → IsClass AtLeastOnce test
        → count_by test (run_world events (start limit)).accepted
        ≤ count_by test (settle 4 (run_world events (start limit))).broker.handed }
    ensures for_each_loss { (limit : ℕ) (events : List WorldEvent) (test : Publish → Bool)
        → IsClass AtLeastOnce test
        → count_by test (settle 4 (run_world events (start limit))).broker.handed
        ≤ (losses events + 1) * count_by test (run_world events (start limit)).accepted }
    // Without a loss one of each QoS exactly as often.
    ensures without_loss { (limit : ℕ) (events : List WorldEvent) (qos : QoS)
        (test : Publish → Bool) → IsClass qos test → losses events ≡ 0
        → count_by test (settle 4 (run_world events (start limit))).broker.handed
        ≡ count_by test (run_world events (start limit)).accepted }
    // The session gives nothing back to send again, and a loss sends nothing.
    ensures nothing_back { (limit : ℕ) (events : List WorldEvent)
        → requests_of (settle 4 (run_world events (start limit))).session.core.limit
        (settle 4 (run_world events (start limit))).session.core.in_use ≡ [] }
    ensures nothing_again { (limit : ℕ) (events : List WorldEvent) (receive_max : Option ℕ)
        → (happens (settle 4 (run_world events (start limit)))
        (world_events.Loss receive_max)).up ≡ [] }
    // Rounds are a run of deliveries alone.
    ensures runs { (n : ℕ) (w : World) → settle n w ≡ run_world (deliveries n w) w }
    ensures deliveries { (n : ℕ) (w : World) → Deliveries (deliveries n w) }
    // Four is the least: after three rounds something may be on its way.
    ensures least { (limit : ℕ) × (events : List WorldEvent)
        × ((settle 3 (run_world events (start limit))).up ≢ []) }
{}

/// A law, which does nothing when it is called: what deliveries do in any order.
pub fn any_order_law()
    // Each that finds a packet leaves less work, in any world.
    ensures lowers { (events : List WorldEvent) (w : World) → Deliveries events
        → work (run_world events w) + delivered events w ≤ work w }
    // The work is bounded by what is on its way.
    ensures bound { (w : World) → work w ≤ 4 * (length w.up + length w.down + 1) }
    // Where nothing is on its way all is done, and so where as many deliveries found a packet as there was work.
    ensures at_rest { (limit : ℕ) (events : List WorldEvent)
        → (run_world events (start limit)).up ≡ [] → (run_world events (start limit)).down ≡ []
        → Settled (run_world events (start limit)) }
    ensures all_delivered { (limit : ℕ) (events more : List WorldEvent) → Deliveries more
        → work (run_world events (start limit)) ≤ delivered more (run_world events (start limit))
        → Settled (run_world (events ++ more) (start limit)) }
{}
