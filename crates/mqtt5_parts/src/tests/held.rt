//! The ids in use and the topics of aliases.

use bytes::Bytes;
use mqtt5_base::{Error, QoS};
use mqtt5_inflight::{Aliases, Ids, Slot, Slots, alias_of, alias_over};
use mqtt5_publish::{Publish, PublishProperties};
use std::alloc::Global;
use std::test::Fail;

/// A publish of "x" to "a" at QoS 1 with the topic alias 7.
fn publish(alloc: Global) -> Result<Publish, Error> {
    let mut properties = PublishProperties::new(alloc);
    properties.topic_alias = Some(7);
    let payload = Bytes::from_static(b"x");
    Publish::new(alloc, "a", QoS::AtLeastOnce, payload, Some(properties))
}

/// The publish under id 3 of ten, and id 5 released.
fn two_ids(alloc: Global) -> Result<Slots, Error> {
    let mut slots = Slots::new(alloc, 10);
    let mut sent = publish(alloc)?;
    sent.pkid = 3;
    sent.qos = QoS::AtLeastOnce;
    slots.insert(3, Slot::Sent(sent))?;
    slots.insert(5, Slot::Released)?;
    Ok(slots)
}

/// Whether just these two ids are in use.
fn are_two(slots: &Slots) -> bool {
    slots.limit() == 10
        && slots.len() == 2
        && slots.contains(3)
        && slots.contains(5)
        && !slots.contains(4)
        && slots.sent(3).is_some()
        && slots.sent(5).is_none()
        && slots.is_released(5)
        && !slots.is_released(3)
        && slots.alias_over(6) == Some(7)
        && slots.alias_over(7).is_none()
}

/// How many requests and packets are sent again, and how many ids a clone has.
fn counts(slots: &Slots) -> Result<(usize, usize, u16), Error> {
    let requests = slots.requests()?.len();
    let packets = slots.packets()?.len();
    Ok((requests, packets, slots.clone()?.len()))
}

/// How many ids are in use once id 3 is free, and once each is.
fn freed(slots: &mut Slots) -> (u16, u16) {
    slots.remove(3);
    let without_one = slots.len();
    slots.clear();
    (without_one, slots.len())
}

#[test]
fn ids_in_use(rt: HostRuntime) -> Result<(), Fail> {
    let mut slots = two_ids(rt.alloc())?;
    assert!(rt; are_two(&slots));
    assert!(rt; counts(&slots)? == (2, 2, 2));
    assert!(rt; freed(&mut slots) == (1, 0));
    Ok(())
}

/// Whether of ids 7 and 8 just this one is among them, also in a clone.
fn has_just(ids: &Ids, id: u16) -> Result<bool, Error> {
    let copy = ids.clone()?;
    Ok(ids.contains(7) == (id == 7) && ids.contains(8) == (id == 8) && copy.contains(id))
}

/// Whether 7 is added and taken out, and 8 added and each taken out.
fn are_changed(ids: &mut Ids) -> Result<bool, Error> {
    ids.insert(7)?;
    let added = has_just(ids, 7)?;
    ids.remove(7);
    let removed = !ids.contains(7);
    ids.insert(8)?;
    ids.clear();
    Ok(added && removed && !ids.contains(8))
}

#[test]
fn ids_of_the_broker(rt: HostRuntime) -> Result<(), Fail> {
    let mut ids = Ids::new(rt.alloc());
    assert!(rt; are_changed(&mut ids)?);
    Ok(())
}

/// Whether the publish has the alias 7.
fn has_alias(alloc: Global) -> Result<bool, Error> {
    let publish = publish(alloc)?;
    Ok(
        alias_of(&publish) == Some(7)
            && alias_over(&publish, 6) == Some(7)
            && alias_over(&publish, 7).is_none(),
    )
}

/// Whether 7 stands for "a" once it is added, also in a clone, and 8 for nothing.
fn stands_for_a(aliases: &mut Aliases) -> Result<bool, Error> {
    aliases.insert(7, Bytes::from_static(b"a"))?;
    let copy = aliases.clone()?;
    let is_a = aliases
        .get(7)
        .is_some_and(|topic| topic.as_slice() == b"a".as_slice());
    Ok(is_a && aliases.get(8).is_none() && copy.get(7).is_some())
}

#[test]
fn topics_of_aliases(rt: HostRuntime) -> Result<(), Fail> {
    let mut aliases = Aliases::new(rt.alloc());
    assert!(rt; stands_for_a(&mut aliases)? && has_alias(rt.alloc())?);
    Ok(())
}
