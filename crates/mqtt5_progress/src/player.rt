//! A whole run of a world, to its end.

ghost use Rattle.std.specs.Prelude.{◌≡◌, ◌<◌, ◌≤◌, ◌+◌, ◌*◌, IfOk, IfErr, OnOk, drop};
ghost use Rattle.mqtt5_base.specs.declared.quality.QoS.TheVariants.{AtMostOnce, AtLeastOnce, ExactlyOnce};
ghost use Rattle.mqtt5_publish.specs.declared.publish.Publish.{Publish};
ghost use Rattle.mqtt5_world.specs.World.{start, run_world, losses};
ghost use Rattle.mqtt5_world.specs.Delivery.{times};
ghost use Rattle.mqtt5_world.specs.Happens.{Happens, IsReport};
ghost use Rattle.mqtt5_progress.specs.Progress.{IsIdle, Settled, upward, downward, round, settle};

use mqtt5_session::StateError;
use mqtt5_world::{Report, World, WorldEvent};
use std::alloc::Global;

/// Plays events as `play` does, and then four rounds in which all that is on its way up arrives, and then all that is on
/// its way down. `limit`, at least 1, is the greatest id. S12.
pub fn play_out(alloc: Global, limit: u16, events: &[WorldEvent]) -> Result<Report, StateError>
    requires { 0 < limit }
    // All is the world's after the events and the rounds; nothing is accepted or refused in these.
    ensures handed { IfOk result (λ r. r.handed.items
        ≡ (settle 4 (run_world events.now (start limit))).broker.handed) }
    ensures accepted { IfOk result (λ r. r.accepted.items
        ≡ (run_world events.now (start limit)).accepted) }
    ensures refused { IfOk result (λ r. r.refused.items
        ≡ (run_world events.now (start limit)).refused) }
    ensures state { IfOk result (λ r. r.state
        ≡ (settle 4 (run_world events.now (start limit))).session) }
    ensures memory { IfErr result (λ e. e ≡ StateError.OutOfMemory) }
    // Nothing is on its way, the broker awaits no release, and no packet from it and no resume was refused.
    ensures nothing_left { IfOk result (λ _.
        Settled (settle 4 (run_world events.now (start limit)))) }
    // No id is in use, and nothing waits.
    ensures settled { IfOk result (λ r. IsIdle r.state.core) }
    // A content of QoS 2 was handed on exactly as often as it was accepted.
    ensures exactly_once { IfOk result (λ r. (c : Publish) → c.qos ≡ ExactlyOnce
        → times c r.handed.items ≡ times c r.accepted.items) }
    // One of QoS 1 at least as often, and at most once more for each loss.
    ensures at_least_once { IfOk result (λ r. (c : Publish) → c.qos ≡ AtLeastOnce
        → times c r.accepted.items ≤ times c r.handed.items) }
    ensures for_each_loss { IfOk result (λ r. (c : Publish) → c.qos ≡ AtLeastOnce
        → times c r.handed.items ≤ (losses events.now + 1) * times c r.accepted.items) }
    // One of QoS 0 at most as often.
    ensures at_most_once { IfOk result (λ r. (c : Publish) → c.qos ≡ AtMostOnce
        → times c r.handed.items ≤ times c r.accepted.items) }
    // Without a loss each exactly as often.
    ensures without_loss { IfOk result (λ r. (c : Publish) → losses events.now ≡ 0
        → times c r.handed.items ≡ times c r.accepted.items) }
{
    played_out(alloc, limit, events)
}

fn played_out(alloc: Global, limit: u16, events: &[WorldEvent]) -> Result<Report, StateError>
    requires { 0 < limit }
    ensures ok { IfOk result (λ r. IsReport r (settle 4 (run_world events.now (start limit)))) }
    ensures err { IfErr result (λ e. e ≡ StateError.OutOfMemory) }
{
    let mut world = World::new(alloc, limit)?;
    if let Err(fault) = world.play_all(alloc, events) {
        drop(world);
        return Err(fault);
    }
    if let Err(fault) = go_rounds(alloc, &mut world) {
        drop(world);
        return Err(fault);
    }
    Ok(world.report())
}

/// Four rounds, which leave nothing to do.
fn go_rounds(alloc: Global, world: &mut World) -> Result<(), StateError>
    ensures { Happens result world.new (settle 4 world.old) }
{
    for _ in 0..4_usize {
        go_round(alloc, world)?;
    }
    Ok(())
}

/// All that is on its way up arrives, and then all that is on its way down.
fn go_round(alloc: Global, world: &mut World) -> Result<(), StateError>
    ensures { Happens result world.new (round world.old) }
{
    all_up(alloc, world)?;
    all_down(alloc, world)
}

fn all_up(alloc: Global, world: &mut World) -> Result<(), StateError>
    ensures { Happens result world.new (upward world.old) }
{
    for _ in 0..world.packets_up() {
        world.play(alloc, &WorldEvent::Up)?;
    }
    Ok(())
}

fn all_down(alloc: Global, world: &mut World) -> Result<(), StateError>
    ensures { Happens result world.new (downward world.old) }
{
    for _ in 0..world.packets_down() {
        world.play(alloc, &WorldEvent::Down)?;
    }
    Ok(())
}
