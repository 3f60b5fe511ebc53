//! The queue of a client.

ghost use Rattle.std.specs.Prelude.{◌≡◌, ◌++◌, IfOk, OnOk, OnErr};
ghost use Rattle.std.specs.Option.{option_to_list};
ghost use Rattle.mqtt5_network.specs.Subscriptions.{holding, forwarded_under, forwarded_to};

use crate::forwarding::{forward, identified};
use crate::subscriptions::{granted_for, identifiers_for, keep_retain};
use mqtt5_base::QoS;
use mqtt5_network::Subscription;
use mqtt5_publish::Publish;
use std::alloc::{AllocError, Global};
use std::collections::VecDeque;

/// What is forwarded of a publish that is handed on, `own` where the client published it itself, or None where no subscription
/// holds for it (MQTT 5.0 section 3.3.4). Err where memory is refused.
pub fn forwarded(
    alloc: Global,
    own: bool,
    subscriptions: &[Subscription],
    publish: &Publish,
) -> Result<Option<Publish>, AllocError>
    ensures { IfOk result (λ p. p ≡ forwarded_to own subscriptions.now publish.now) }
{
    match granted_for(own, subscriptions, publish) {
        Some(granted) => Ok(Some(forward_under(alloc, own, subscriptions, granted, publish)?)),
        None => Ok(None),
    }
}

/// A publish as it is forwarded under a granted QoS: with the identifiers of the subscriptions that hold for it, and with its retain
/// where each of these asks for that (3.3.1.3 and 3.3.4). Err where memory is refused.
fn forward_under(
    alloc: Global,
    own: bool,
    subscriptions: &[Subscription],
    granted: QoS,
    publish: &Publish,
) -> Result<Publish, AllocError>
    ensures { IfOk result (λ p. p
        ≡ forwarded_under (holding own subscriptions.now publish.now) granted publish.now) }
{
    let identifiers = identifiers_for(alloc, own, subscriptions, publish)?;
    let mut forwarded = forward(alloc, granted, publish)?;
    forwarded.retain = publish.retain && keep_retain(own, subscriptions, publish);
    Ok(identified(forwarded, identifiers, alloc))
}

/// What is forwarded of a publish that is handed on, `own` where the client published it itself, goes to the end of the client's
/// queue (MQTT 5.0 section 3.3.4). Err where memory is refused, with the queue as it was.
pub fn route(
    alloc: Global,
    own: bool,
    subscriptions: &[Subscription],
    publish: &Publish,
    queue: &mut VecDeque<Publish>,
) -> Result<(), AllocError>
    ensures ok { OnOk result (queue.new.items
        ≡ queue.old.items ++ option_to_list (forwarded_to own subscriptions.now publish.now)) }
    ensures err { OnErr result (queue.new.items ≡ queue.old.items) }
{
    if let Some(forwarded) = forwarded(alloc, own, subscriptions, publish)? {
        queue.push_back(forwarded)?;
    }
    Ok(())
}
