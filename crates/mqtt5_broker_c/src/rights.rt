//! Calls by which C says who the users are, and what each may do.

ghost use Rattle.std.specs.Prelude.{◌≡◌, ◌≢◌, ◌&&◌, IfSome, is_some, length};
ghost use Rattle.std.specs.Str.{is_utf8};
ghost use Rattle.mqtt5_base.specs.Topics.{is_valid_filter};
ghost use Rattle.mqtt5_broker.specs.Rights.{publishing, subscribing};
ghost use Rattle.mqtt5_broker.specs.Broker.{knows_user, lets};
ghost use Rattle.mqtt5_broker.specs.Asking.{identifies};
ghost use Rattle.mqtt5_broker_c.specs.Calls.{DoesOrLeaves, DoesIf, told, unchanged, has_user, takes_filter};
ghost use Rattle.mqtt5_broker_c.specs.Handles.{IsKept};
ghost use Rattle.mqtt5_broker_c.specs.Numbers.{done};

use crate::handle::{Handle, put, take};
use crate::number::{BAD_ARGUMENT, DONE, NO_BROKER, OUT_OF_MEMORY, code_of};
use mqtt5_base::valid_filter;
use std::alloc::Global;

/// There is one user more, who may neither publish nor subscribe to anything yet: `user` tells its number. 0; 12: all is as
/// before. 200.
#[unsafe(no_mangle)]
pub extern "C" fn mqtt5_broker_add_user(alloc: Global, h: &mut Handle, user: &mut usize) -> u32
    requires { IsKept h.old }
    ensures kept { IsKept h.new }
    ensures answer { DoesOrLeaves knows_user unchanged h.old.broker_ptr.value result
        h.new.broker_ptr.value }
    ensures user { result ≡ done
        → user.new ≡ told (λ b. length b.rights) h.old.broker_ptr.value user.old }
    ensures rest { result ≢ done → user.new ≡ user.old }
{
    let Some(mut broker) = take(alloc, h) else {
        return NO_BROKER;
    };
    let outcome = broker.add_user(alloc);
    put(h, broker);
    match outcome {
        Ok(number) => {
            *user = number;
            DONE
        }
        Err(_fault) => OUT_OF_MEMORY,
    }
}

/// The topic filter that bytes are, if they are one.
fn filter_of(bytes: &[u8]) -> Option<&str>
    ensures same { IfSome result (λ text. text.now ≡ bytes.now) }
    ensures some { is_some result ≡ (is_utf8 bytes.now && is_valid_filter bytes.now) }
{
    match std::str::from_utf8(bytes) {
        Ok(text) => { if valid_filter(text) { Some(text) } else { None } }
        Err(_) => None,
    }
}

/// A user may publish to each topic that matches this filter, from now on. 0; 12: all is as before. 200; 201 where there is no such
/// user, or the bytes aren't a topic filter (4.7).
#[unsafe(no_mangle)]
pub extern "C" fn mqtt5_broker_allow_publish(
    alloc: Global,
    h: &mut Handle,
    user: usize,
    filter: &[u8],
) -> u32
    requires { IsKept h.old }
    ensures kept { IsKept h.new }
    ensures answer { DoesIf (takes_filter user filter.now) (lets user (publishing filter.now))
        h.old.broker_ptr.value result h.new.broker_ptr.value }
{
    let Some(mut broker) = take(alloc, h) else {
        return NO_BROKER;
    };
    let Some(text) = filter_of(filter) else {
        put(h, broker);
        return BAD_ARGUMENT;
    };
    if user >= broker.users() {
        put(h, broker);
        return BAD_ARGUMENT;
    }
    let outcome = broker.allow_publish(alloc, user, text);
    put(h, broker);
    code_of(&outcome)
}

/// A user may subscribe to each filter that lies within this one, from now on. 0; 12: all is as before. 200; 201 where there is no
/// such user, or the bytes aren't a topic filter (4.7).
#[unsafe(no_mangle)]
pub extern "C" fn mqtt5_broker_allow_subscribe(
    alloc: Global,
    h: &mut Handle,
    user: usize,
    filter: &[u8],
) -> u32
    requires { IsKept h.old }
    ensures kept { IsKept h.new }
    ensures answer { DoesIf (takes_filter user filter.now) (lets user (subscribing filter.now))
        h.old.broker_ptr.value result h.new.broker_ptr.value }
{
    let Some(mut broker) = take(alloc, h) else {
        return NO_BROKER;
    };
    let Some(text) = filter_of(filter) else {
        put(h, broker);
        return BAD_ARGUMENT;
    };
    if user >= broker.users() {
        put(h, broker);
        return BAD_ARGUMENT;
    }
    let outcome = broker.allow_subscribe(alloc, user, text);
    put(h, broker);
    code_of(&outcome)
}

/// A client that isn't connected yet will connect as a user; of one that is connected nothing changes. 0; 200; 201 where there is no
/// such user.
#[unsafe(no_mangle)]
pub extern "C" fn mqtt5_broker_identify(
    alloc: Global,
    h: &mut Handle,
    connection: usize,
    user: usize,
) -> u32
    requires { IsKept h.old }
    ensures kept { IsKept h.new }
    ensures answer { DoesIf (has_user user) (identifies connection user) h.old.broker_ptr.value
        result h.new.broker_ptr.value }
{
    let Some(mut broker) = take(alloc, h) else {
        return NO_BROKER;
    };
    if user >= broker.users() {
        put(h, broker);
        return BAD_ARGUMENT;
    }
    broker.identify(connection, user);
    put(h, broker);
    DONE
}
