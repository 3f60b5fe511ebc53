//! A whole run of a network.

ghost use Rattle.std.specs.Prelude.{◌≡◌, ◌≢◌, ◌≤◌, ◌+◌, ◌*◌, ℕ, true, IfOk, IfErr};
ghost use Rattle.std.specs.List.{All};
ghost use Rattle.mqtt5_base.specs.declared.quality.QoS.TheVariants.{AtMostOnce, AtLeastOnce, ExactlyOnce};
ghost use Rattle.mqtt5_publish.specs.declared.publish.Publish.{Publish};
ghost use Rattle.mqtt5_world.specs.Delivery.{has_content, times};
ghost use Rattle.mqtt5_network.specs.Network.{start_network, run_network, IsReached};
ghost use Rattle.mqtt5_network.specs.Granted.{reaching};
ghost use Rattle.mqtt5_network_play.specs.declared.report.ClientReport.{ClientReport};
ghost use Rattle.mqtt5_network_play.specs.Reports.{ClientRests, Rests, HereRest, KeepsAll};
ghost use Rattle.mqtt5_network_play.specs.Reports.{given_times, most_times, all_told, SettlesTo};

use crate::network::Network;
use crate::profile::Profile;
use crate::report::NetworkReport;
use mqtt5_network::NetworkEvent;
use mqtt5_session::StateError;
use std::alloc::Global;

/// Plays events of a network in which no client has sent anything, a client for each profile. S12.
pub fn play_network(
    alloc: Global,
    profiles: &[Profile],
    events: &[NetworkEvent],
) -> Result<NetworkReport, StateError>
    // All is the network's after the events.
    ensures ok { IfOk result (λ r. r
        ≡ all_told (run_network events.now (start_network profiles.now))) }
    ensures memory { IfErr result (λ e. e ≡ StateError.OutOfMemory) }
    // At any time a content of QoS 0 or 2 was shown to a client at most as often as it was put into
    // its queue.
    ensures at_most_once { IfOk result (λ r. All (λ c. (k : Publish) → k.qos ≢ AtLeastOnce
        → times k c.shown ≤ times k c.routed) r.clients) }
    // One of any QoS at most once, and once more for each new connection.
    ensures for_each_loss { IfOk result (λ r. All (λ c. (k : Publish)
        → times k c.shown ≤ (c.lost + 1) * times k c.routed) r.clients) }
    // Of a client at rest one of QoS 2 was shown, or expired in its queue, exactly as often.
    ensures exactly_once { IfOk result (λ r. All (λ c. (k : Publish) → ClientRests c
        → k.qos ≡ ExactlyOnce
        → times k c.shown + times k c.expired ≡ times k c.routed) r.clients) }
    // And one of QoS 1 at least as often.
    ensures at_least_once { IfOk result (λ r. All (λ c. (k : Publish) → ClientRests c
        → k.qos ≡ AtLeastOnce
        → times k c.routed ≤ times k c.shown + times k c.expired) r.clients) }
    // Of a client that keeps its subscriptions, where no session ended: at any time one of QoS 2 was
    // shown at most as often as publishes that reach the client with it were given.
    ensures standing_at_most_once { IfOk result (λ r. (i : ℕ) (c : ClientReport) (k : Publish)
        → KeepsAll events.now r i c → k.qos ≡ ExactlyOnce
        → times k c.shown ≤ given_times k c r.clients) }
    // So one of QoS 0 of which none was published at QoS 1.
    ensures standing_at_most_once_at_0 { IfOk result (λ r. (i : ℕ) (c : ClientReport) (k : Publish)
        → KeepsAll events.now r i c → k.qos ≡ AtMostOnce
        → ((p : Publish) → reaching c.subscriptions (has_content k) p ≡ true
        → p.qos ≢ AtLeastOnce) → times k c.shown ≤ given_times k c r.clients) }
    // One of any QoS at most once, and once more for each new connection of either client.
    ensures standing_for_each_loss { IfOk result (λ r. (i : ℕ) (c : ClientReport) (k : Publish)
        → KeepsAll events.now r i c → times k c.shown ≤ most_times k c r.clients) }
    // Where all are here and at rest one of QoS 2 was shown, or expired, exactly as often.
    ensures standing_exactly_once { IfOk result (λ r. (i : ℕ) (c : ClientReport) (k : Publish)
        → KeepsAll events.now r i c → Rests r → k.qos ≡ ExactlyOnce
        → times k c.shown + times k c.expired ≡ given_times k c r.clients) }
    // And one of QoS 1 at least as often.
    ensures standing_at_least_once { IfOk result (λ r. (i : ℕ) (c : ClientReport) (k : Publish)
        → KeepsAll events.now r i c → Rests r → k.qos ≡ AtLeastOnce
        → given_times k c r.clients ≤ times k c.shown + times k c.expired) }
{
    told_of(alloc, profiles, events)
}

fn told_of(
    alloc: Global,
    profiles: &[Profile],
    events: &[NetworkEvent],
) -> Result<NetworkReport, StateError>
    ensures ok { IfOk result (λ r. r
        ≡ all_told (run_network events.now (start_network profiles.now))) }
    ensures err { IfErr result (λ e. e ≡ StateError.OutOfMemory) }
{
    let network = played(alloc, profiles, events)?;
    let report = network.report(alloc);
    drop(network);
    Ok(report?)
}

fn played(
    alloc: Global,
    profiles: &[Profile],
    events: &[NetworkEvent],
) -> Result<Network, StateError>
    ensures ok { IfOk result (λ n. n ≡ run_network events.now (start_network profiles.now)) }
    ensures err { IfErr result (λ e. e ≡ StateError.OutOfMemory) }
{
    let mut network = Network::new(alloc, profiles)?;
    match network.play_all(alloc, events) {
        Ok(()) => Ok(network),
        Err(fault) => {
            drop(network);
            Err(fault)
        }
    }
}

/// Plays events as `play_network` does, and then steps, with no request, no loss and no new connection, until of each client that
/// is here nothing is on its way and nothing is in its queue. S12.
pub fn play_network_out(
    alloc: Global,
    profiles: &[Profile],
    events: &[NetworkEvent],
) -> Result<NetworkReport, StateError>
    // All is the network's after the events and steps that bring it to rest.
    ensures ok { IfOk result
        (λ r. SettlesTo (run_network events.now (start_network profiles.now)) r) }
    ensures memory { IfErr result (λ e. e ≡ StateError.OutOfMemory) }
    // Each client that is here is at rest.
    ensures rests { IfOk result (λ r. HereRest r) }
    // To each of these a content of QoS 2 was shown, or expired in its queue, exactly as often as it was
    // put into that.
    ensures exactly_once { IfOk result (λ r. All (λ c. (k : Publish) → c.here ≡ true
        → k.qos ≡ ExactlyOnce
        → times k c.shown + times k c.expired ≡ times k c.routed) r.clients) }
    // One of QoS 1 at least as often.
    ensures at_least_once { IfOk result (λ r. All (λ c. (k : Publish) → c.here ≡ true
        → k.qos ≡ AtLeastOnce
        → times k c.routed ≤ times k c.shown + times k c.expired) r.clients) }
    // One of any QoS at most once, and once more for each new connection; so it is of who is away.
    ensures for_each_loss { IfOk result (λ r. All (λ c. (k : Publish)
        → times k c.shown ≤ (c.lost + 1) * times k c.routed) r.clients) }
    // Of a client that keeps its subscriptions, where no session ended and all are here: one of QoS 2
    // was shown, or expired, exactly as often as publishes that reach the client with it were given.
    ensures standing_exactly_once { IfOk result (λ r. (i : ℕ) (c : ClientReport) (k : Publish)
        → KeepsAll events.now r i c → All (λ d. d.here ≡ true) r.clients → k.qos ≡ ExactlyOnce
        → times k c.shown + times k c.expired ≡ given_times k c r.clients) }
    // One of QoS 1 at least as often.
    ensures standing_at_least_once { IfOk result (λ r. (i : ℕ) (c : ClientReport) (k : Publish)
        → KeepsAll events.now r i c → All (λ d. d.here ≡ true) r.clients → k.qos ≡ AtLeastOnce
        → given_times k c r.clients ≤ times k c.shown + times k c.expired) }
    // One of any QoS at most once, and once more for each new connection of either client.
    ensures standing_for_each_loss { IfOk result (λ r. (i : ℕ) (c : ClientReport) (k : Publish)
        → KeepsAll events.now r i c → times k c.shown ≤ most_times k c r.clients) }
{
    settled(alloc, profiles, events)
}

fn settled(
    alloc: Global,
    profiles: &[Profile],
    events: &[NetworkEvent],
) -> Result<NetworkReport, StateError>
    ensures ok { IfOk result
        (λ r. SettlesTo (run_network events.now (start_network profiles.now)) r) }
    ensures err { IfErr result (λ e. e ≡ StateError.OutOfMemory) }
{
    let mut network = played(alloc, profiles, events)?;
    let report = settled_report(alloc, &mut network);
    drop(network);
    report
}

fn settled_report(alloc: Global, network: &mut Network) -> Result<NetworkReport, StateError>
    requires { IsReached network.old }
    ensures ok { IfOk result (λ r. SettlesTo network.old r) }
    ensures err { IfErr result (λ e. e ≡ StateError.OutOfMemory) }
{
    network.settle(alloc)?;
    Ok(network.report(alloc)?)
}
