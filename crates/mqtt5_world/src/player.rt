//! A whole run of a world.

ghost use Rattle.std.specs.Prelude.{◌≡◌, ◌≢◌, ◌<◌, ◌≤◌, ◌+◌, ◌*◌, IfOk, IfErr};
ghost use Rattle.mqtt5_base.specs.declared.quality.QoS.TheVariants.{AtMostOnce, AtLeastOnce, ExactlyOnce};
ghost use Rattle.mqtt5_publish.specs.declared.publish.Publish.{Publish};
ghost use Rattle.mqtt5_world.specs.World.{start, run_world, losses};
ghost use Rattle.mqtt5_world.specs.Delivery.{times, stored_in, stored_without, waiting_in};
ghost use Rattle.mqtt5_world.specs.Happens.{IsReport};

use crate::event::{Report, WorldEvent};
use crate::world::World;
use mqtt5_session::StateError;
use std::alloc::Global;

/// Plays events from a client that has sent nothing and a broker that has nothing of it. `limit`, at least 1, is the
/// greatest id. S12.
pub fn play(alloc: Global, limit: u16, events: &[WorldEvent]) -> Result<Report, StateError>
    requires { 0 < limit }
    // All is the world's after the events.
    ensures handed { IfOk result (λ r. r.handed.items
        ≡ (run_world events.now (start limit)).broker.handed) }
    ensures accepted { IfOk result (λ r. r.accepted.items
        ≡ (run_world events.now (start limit)).accepted) }
    ensures refused { IfOk result (λ r. r.refused.items
        ≡ (run_world events.now (start limit)).refused) }
    ensures state { IfOk result (λ r. r.state ≡ (run_world events.now (start limit)).session) }
    ensures memory { IfErr result (λ e. e ≡ StateError.OutOfMemory) }
    // A content of QoS 0 or 2 is handed on at most as often as it was accepted.
    ensures at_most_once { IfOk result (λ r. (c : Publish) → c.qos ≢ AtLeastOnce
        → times c r.handed.items ≤ times c r.accepted.items) }
    // One of QoS 1 or 2 at least as often as it was accepted and is no longer stored or waiting.
    ensures at_least_once { IfOk result (λ r. (c : Publish) → c.qos ≢ AtMostOnce
        → times c r.accepted.items ≤ times c r.handed.items + times c
        (stored_in r.state.core) + times c (waiting_in r.state.core)) }
    // One of QoS 1 at most once more for each loss.
    ensures for_each_loss { IfOk result (λ r. (c : Publish) → c.qos ≡ AtLeastOnce
        → times c r.handed.items ≤ (losses events.now + 1) * times c r.accepted.items) }
    // One of QoS 2 is handed on, or waits, or is stored under an id that the broker hasn't, for each time it was accepted.
    ensures ledger { IfOk result (λ r. (c : Publish) → c.qos ≡ ExactlyOnce
        → times c r.handed.items + times c (waiting_in r.state.core) + times c
        (stored_without (run_world events.now (start limit)).broker.ids r.state.core)
        ≡ times c r.accepted.items) }
    // So where none is stored or waiting it was handed on exactly as often as it was accepted.
    ensures exactly_once { IfOk result (λ r. (c : Publish) → c.qos ≡ ExactlyOnce
        → times c (stored_in r.state.core) ≡ 0 → times c (waiting_in r.state.core) ≡ 0
        → times c r.handed.items ≡ times c r.accepted.items) }
{
    played(alloc, limit, events)
}

fn played(alloc: Global, limit: u16, events: &[WorldEvent]) -> Result<Report, StateError>
    requires { 0 < limit }
    ensures ok { IfOk result (λ r. IsReport r (run_world events.now (start limit))) }
    ensures err { IfErr result (λ e. e ≡ StateError.OutOfMemory) }
{
    let mut world = World::new(alloc, limit)?;
    if let Err(fault) = world.play_all(alloc, events) {
        drop(world);
        return Err(fault);
    }
    Ok(world.report())
}
