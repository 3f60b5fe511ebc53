//! Sessions and events as values.

use super::walk::{is_row, makes};
use crate::mqttbytes::Error;
use crate::{Event, MqttState, Outgoing};
use mqtt5_base::{copied, same};
use std::alloc::Global;
use std::test::Fail;

fn has_nothing_else(state: &MqttState) -> bool {
    state.manual_acks()
        && !state.await_pingresp()
        && state.collision_ping_count() == 0
        && state.broker_topic_alias_max() == 0
        && state.collision().is_none()
        && state.topic_alises(1).is_none()
        && !state.outgoing_rel(1)
        && !state.incoming_pub(1)
}

#[test]
fn nothing_else_at_first(rt: HostRuntime) -> Result<(), Fail> {
    let state = MqttState::new(rt.alloc(), 2, true)?;
    let right = has_nothing_else(&state);
    drop(state);
    assert!(rt; right);
    Ok(())
}

/// Whether an ack to a clone leaves the session as it was, and the session is shown as one.
fn is_its_own(alloc: Global, state: &mut MqttState) -> Result<bool, Error> {
    makes(alloc, state, "*B")?;
    let mut copy = state.clone()?;
    let acked = is_row(alloc, &mut copy, "<A - A ../0@1");
    drop(copy);
    let shown = format!(in alloc; "{state:?}")?;
    let stands = is_row(alloc, state, "| B./1@1 - =")?;
    Ok(acked? && stands && shown.as_str().starts_with("MqttState { "))
}

#[test]
fn a_clone_goes_its_own_way(rt: HostRuntime) -> Result<(), Fail> {
    let mut state = MqttState::new(rt.alloc(), 2, false)?;
    let right = is_its_own(rt.alloc(), &mut state);
    drop(state);
    assert!(rt; right?);
    Ok(())
}

fn told(pkid: u16) -> Event {
    Event::Outgoing(Outgoing::Publish(pkid))
}

fn is_its_copy(event: &Event) -> bool {
    let copy = copied(event);
    let right = match &copy {
        Ok(copy) => same(event, copy),
        Err(_) => false,
    };
    drop(copy);
    right
}

/// Whether an event equals its copy, and the same of another id.
fn are_told() -> (bool, bool) {
    let first = told(1);
    let second = told(2);
    let compared = (is_its_copy(&first), same(&first, &second));
    drop(first);
    drop(second);
    compared
}

fn noted(left: Outgoing, right: Outgoing) -> bool {
    same(&left, &right)
}

#[test]
fn events_are_compared(rt: HostRuntime) -> Result<(), Fail> {
    let pinged = noted(Outgoing::PingReq, Outgoing::PingReq);
    let acked = noted(Outgoing::Publish(1), Outgoing::PubAck(1));
    let published = noted(Outgoing::Publish(1), Outgoing::Publish(2));
    assert!(rt; are_told() == (true, false) && pinged && !acked && !published);
    Ok(())
}
