//! What a session's user was shown.

ghost use Rattle.std.specs.Prelude.{◌≡◌, ◌++◌, drop, IfOk, OnOk};
ghost use Rattle.std.specs.Option.{option_to_list};
ghost use Rattle.std.specs.List.{filter_map};
ghost use Rattle.mqtt5_network.specs.Receiver.{publish_in};

use mqtt5_base::copied;
use mqtt5_codec::Packet;
use mqtt5_publish::Publish;
use mqtt5_session::Event;
use std::alloc::{AllocError, Global};
use std::collections::VecDeque;

/// The publishes that events tell of, in order.
#[tactic(auto, using(crate::proofs::Asked::shown_next))]
pub fn shown(alloc: Global, events: &VecDeque<Event>) -> Result<Vec<Publish>, AllocError>
    ensures { IfOk result (λ ps. ps.items ≡ filter_map publish_in events.now.items) }
{
    let mut shown = Vec::new(alloc);
    for i in 0..events.len() {
        show(&events[i], &mut shown)?;
    }
    Ok(shown)
}

/// Puts the publish that an event tells of behind others, if it tells of one.
fn show(event: &Event, shown: &mut Vec<Publish>) -> Result<(), AllocError>
    ensures { OnOk result
        (shown.new.items ≡ shown.old.items ++ option_to_list (publish_in event.now)) }
{
    if let Event::Incoming(Packet::Publish(publish)) = event {
        shown.push(copied(publish)?)?;
    }
    Ok(())
}

/// Puts copies of publishes behind others.
pub fn push_all(publishes: &[Publish], all: &mut Vec<Publish>) -> Result<(), AllocError>
    ensures { OnOk result (all.new.items ≡ all.old.items ++ publishes.now) }
{
    for publish in publishes {
        all.push(copied(publish)?)?;
    }
    Ok(())
}

/// Puts copies of the publishes from a place on behind others.
pub fn push_new(
    publishes: &[Publish],
    before: usize,
    all: &mut Vec<Publish>,
) -> Result<(), AllocError>
    ensures { OnOk result (all.new.items ≡ all.old.items ++ drop before publishes.now) }
{
    if before < publishes.len() {
        push_all(&publishes[before..], all)?;
    }
    Ok(())
}

/// Puts a publish behind others, if there is one.
pub fn push_some(publish: Option<Publish>, all: &mut Vec<Publish>) -> Result<(), AllocError>
    ensures { OnOk result (all.new.items ≡ all.old.items ++ option_to_list publish) }
{
    if let Some(publish) = publish {
        all.push(publish)?;
    }
    Ok(())
}
