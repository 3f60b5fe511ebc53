//! Calls that ask the client for a packet.

ghost use Rattle.std.specs.Prelude.{◌≡◌, ◌⊎◌, IsOk, IfOk, IfErr};
ghost use Rattle.mqtt5_inflight.specs.declared.event.Request.TheVariants as requests;
ghost use Rattle.mqtt5_c.specs.Asked.{IsBadTopic, lacks_topic, LacksTopic, IsBadFilter, IsPlainPublish, IsPublish, IsPlainSubscribe, IsSubscribe, IsPlainUnsubscribe, IsUnsubscribe, CantHave, puback_of, pubrec_of, Asked, IsDeclined};
ghost use Rattle.mqtt5_c.specs.Calls.{Called, Asks};
ghost use Rattle.mqtt5_c.specs.Handles.{IsKept};
ghost use Rattle.mqtt5_c.specs.Properties.{properties_in, emptied};
ghost use Rattle.mqtt5_c.specs.Topics.{IsTopicName, IsTopicFilter};
ghost use Rattle.mqtt5_publish.specs.Rows.{publish_table};
ghost use Rattle.mqtt5_subscribe.specs.Rows.{subscribe_table, unsubscribe_table};

use crate::handle::{Handle, put, take};
use crate::number::{BAD_ARGUMENT, NO_CLIENT, OUT_OF_MEMORY, code_of};
use crate::properties::{gather, take_properties};
use crate::topic::{topic_filter, topic_name};
use bytes::Bytes;
use mqtt5_base::{Property, Sequence, qos};
use mqtt5_publish::{PubAck, PubRec, Publish, PublishProperties};
use mqtt5_session::Request;
use mqtt5_subscribe::{Filter, Subscribe, SubscribeProperties, Unsubscribe, UnsubscribeProperties};
use std::alloc::Global;

/// Asks the client.
#[tactic(auto, using(crate::proofs::CallLemmas::called, crate::proofs::CallLemmas::uncalled))]
pub(crate) fn ask(alloc: Global, h: &mut Handle, request: Request, at: u64) -> u32
    requires { IsKept h.old }
    ensures kept { IsKept h.new }
    ensures answer { Called (Asks request at) h.old.client_ptr.value result h.new.client_ptr.value }
{
    let Some(mut holder) = take(alloc, h) else {
        drop(request);
        return NO_CLIENT;
    };
    let outcome = holder.client.request(request, at);
    put(h, holder);
    code_of(&outcome)
}

/// The Publish of C's arguments, without properties.
fn publish_of(
    alloc: Global,
    topic: &[u8],
    payload: &[u8],
    quality: u8,
    retain: bool,
) -> Result<Publish, u32>
    ensures ok { IfOk result (IsPlainPublish topic.now payload.now quality retain) }
    ensures valid { IsOk result → IsTopicName topic.now }
    ensures err { IfErr result (IsDeclined (IsBadTopic topic.now quality)) }
{
    let Some(topic) = topic_name(topic) else {
        return Err(BAD_ARGUMENT);
    };
    let Some(quality) = qos(quality) else {
        return Err(BAD_ARGUMENT);
    };
    let Ok(payload) = Bytes::copy_from_slice(alloc, payload) else {
        return Err(OUT_OF_MEMORY);
    };
    let Ok(mut publish) = Publish::new(alloc, topic, quality, payload, None) else {
        return Err(OUT_OF_MEMORY);
    };
    publish.retain = retain;
    Ok(publish)
}

/// Whether a topic is empty, and no topic alias of these properties stands for it.
fn lacks_topic(topic: &[u8], set: &Option<PublishProperties>) -> bool
    ensures { result ≡ lacks_topic topic.now set.now }
{
    match set {
        Some(set) => set.topic_alias.is_none() && topic.is_empty(),
        None => topic.is_empty(),
    }
}

/// The request of a Publish with these properties.
fn publish_request(mut publish: Publish, set: Option<PublishProperties>) -> Request
    ensures { result ≡ Request.Publish (record publish { properties = set }) }
{
    publish.properties = set;
    Request::Publish(publish)
}

/// The same with these properties.
fn publish_with(
    alloc: Global,
    topic: &[u8],
    payload: &[u8],
    quality: u8,
    retain: bool,
    properties: Sequence<Property>,
) -> Result<Request, u32>
    ensures ok { IfOk result (IsPublish topic.now payload.now quality retain properties) }
    ensures err { IfErr result (IsDeclined (IsBadTopic topic.now quality
        ⊎ (CantHave publish_table properties ⊎ LacksTopic topic.now properties))) }
{
    let set = match gather(alloc, properties) {
        Ok(set) => set,
        Err(code) => return Err(code),
    };
    if lacks_topic(topic, &set) {
        drop(set);
        return Err(BAD_ARGUMENT);
    }
    match publish_of(alloc, topic, payload, quality, retain) {
        Ok(publish) => Ok(publish_request(publish, set)),
        Err(code) => Err(code),
    }
}

/// The Subscribe of C's arguments, without properties.
fn subscribe_of(alloc: Global, filter: &[u8], quality: u8) -> Result<Subscribe, u32>
    ensures ok { IfOk result (IsPlainSubscribe filter.now quality) }
    ensures valid { IsOk result → IsTopicFilter filter.now }
    ensures err { IfErr result (IsDeclined (IsBadFilter filter.now quality)) }
{
    let Some(filter) = topic_filter(filter) else {
        return Err(BAD_ARGUMENT);
    };
    let Some(quality) = qos(quality) else {
        return Err(BAD_ARGUMENT);
    };
    let Ok(filter) = Filter::new(alloc, filter, quality) else {
        return Err(OUT_OF_MEMORY);
    };
    let Ok(subscribe) = Subscribe::new(alloc, filter, None) else {
        return Err(OUT_OF_MEMORY);
    };
    Ok(subscribe)
}

/// The request of a Subscribe with these properties.
fn subscribe_request(mut subscribe: Subscribe, set: Option<SubscribeProperties>) -> Request
    ensures { result ≡ Request.Subscribe (record subscribe { properties = set }) }
{
    subscribe.properties = set;
    Request::Subscribe(subscribe)
}

/// The same with these properties.
fn subscribe_with(
    alloc: Global,
    filter: &[u8],
    quality: u8,
    properties: Sequence<Property>,
) -> Result<Request, u32>
    ensures ok { IfOk result (IsSubscribe filter.now quality properties) }
    ensures err { IfErr result
        (IsDeclined (IsBadFilter filter.now quality ⊎ CantHave subscribe_table properties)) }
{
    let set = match gather(alloc, properties) {
        Ok(set) => set,
        Err(code) => return Err(code),
    };
    match subscribe_of(alloc, filter, quality) {
        Ok(subscribe) => Ok(subscribe_request(subscribe, set)),
        Err(code) => Err(code),
    }
}

/// The Unsubscribe of C's arguments, without properties.
fn unsubscribe_of(alloc: Global, filter: &[u8]) -> Result<Unsubscribe, u32>
    ensures ok { IfOk result (IsPlainUnsubscribe filter.now) }
    ensures valid { IsOk result → IsTopicFilter filter.now }
    ensures err { IfErr result (IsDeclined (¬ (IsTopicFilter filter.now))) }
{
    let Some(filter) = topic_filter(filter) else {
        return Err(BAD_ARGUMENT);
    };
    let Ok(unsubscribe) = Unsubscribe::new(alloc, filter, None) else {
        return Err(OUT_OF_MEMORY);
    };
    Ok(unsubscribe)
}

/// The request of a Unsubscribe with these properties.
fn unsubscribe_request(mut unsubscribe: Unsubscribe, set: Option<UnsubscribeProperties>) -> Request
    ensures { result ≡ Request.Unsubscribe (record unsubscribe { properties = set }) }
{
    unsubscribe.properties = set;
    Request::Unsubscribe(unsubscribe)
}

/// The same with these properties.
fn unsubscribe_with(
    alloc: Global,
    filter: &[u8],
    properties: Sequence<Property>,
) -> Result<Request, u32>
    ensures ok { IfOk result (IsUnsubscribe filter.now properties) }
    ensures err { IfErr result
        (IsDeclined (¬ (IsTopicFilter filter.now) ⊎ CantHave unsubscribe_table properties)) }
{
    let set = match gather(alloc, properties) {
        Ok(set) => set,
        Err(code) => return Err(code),
    };
    match unsubscribe_of(alloc, filter) {
        Ok(unsubscribe) => Ok(unsubscribe_request(unsubscribe, set)),
        Err(code) => Err(code),
    }
}

/// Asks for a publish under the next packet identifier, at a moment. 0; 1, 7 and so on as of `Client::request`; 201 of
/// what is no topic, of an empty one without a topic alias in the list, of a QoS above 2 and of a property that a publish
/// can't have, and 12 where memory is refused before the client is asked: the handle is then as before.
#[unsafe(no_mangle)]
pub extern "C" fn mqtt5_client_publish(
    alloc: Global,
    h: &mut Handle,
    topic: &[u8],
    payload: &[u8],
    qos: u8,
    retain: bool,
    at: u64,
) -> u32
    requires { IsKept h.old }
    ensures kept { IsKept h.new }
    ensures answer { Asked (IsBadTopic topic.now qos
        ⊎ (CantHave publish_table (properties_in h.old.client_ptr.value)
        ⊎ LacksTopic topic.now (properties_in h.old.client_ptr.value)))
        (IsPublish topic.now payload.now qos retain (properties_in h.old.client_ptr.value)) at
        (emptied h.old.client_ptr.value) result h.new.client_ptr.value }
{
    let properties = take_properties(alloc, h);
    match publish_with(alloc, topic, payload, qos, retain, properties) {
        Ok(request) => ask(alloc, h, request, at),
        Err(code) => code,
    }
}

/// Asks for a subscription to one topic filter, at a moment. Answers as `mqtt5_client_publish`.
#[unsafe(no_mangle)]
pub extern "C" fn mqtt5_client_subscribe(
    alloc: Global,
    h: &mut Handle,
    filter: &[u8],
    qos: u8,
    at: u64,
) -> u32
    requires { IsKept h.old }
    ensures kept { IsKept h.new }
    ensures answer { Asked (IsBadFilter filter.now qos
        ⊎ CantHave subscribe_table (properties_in h.old.client_ptr.value))
        (IsSubscribe filter.now qos (properties_in h.old.client_ptr.value)) at
        (emptied h.old.client_ptr.value) result h.new.client_ptr.value }
{
    let properties = take_properties(alloc, h);
    match subscribe_with(alloc, filter, qos, properties) {
        Ok(request) => ask(alloc, h, request, at),
        Err(code) => code,
    }
}

/// Asks for the end of a subscription, at a moment. Answers as `mqtt5_client_publish`.
#[unsafe(no_mangle)]
pub extern "C" fn mqtt5_client_unsubscribe(
    alloc: Global,
    h: &mut Handle,
    filter: &[u8],
    at: u64,
) -> u32
    requires { IsKept h.old }
    ensures kept { IsKept h.new }
    ensures answer { Asked (¬ (IsTopicFilter filter.now)
        ⊎ CantHave unsubscribe_table (properties_in h.old.client_ptr.value))
        (IsUnsubscribe filter.now (properties_in h.old.client_ptr.value)) at
        (emptied h.old.client_ptr.value) result h.new.client_ptr.value }
{
    let properties = take_properties(alloc, h);
    match unsubscribe_with(alloc, filter, properties) {
        Ok(request) => ask(alloc, h, request, at),
        Err(code) => code,
    }
}

/// Answers a publish of QoS 1 that came with this packet identifier, where the program sends the acks, at a moment.
#[unsafe(no_mangle)]
pub extern "C" fn mqtt5_client_puback(alloc: Global, h: &mut Handle, pkid: u16, at: u64) -> u32
    requires { IsKept h.old }
    ensures kept { IsKept h.new }
    ensures answer { Called (Asks (puback_of pkid) at) h.old.client_ptr.value result
        h.new.client_ptr.value }
{
    ask(alloc, h, Request::PubAck(PubAck::new(pkid, None)), at)
}

/// Answers a publish of QoS 2 that came with this packet identifier, where the program sends the acks, at a moment.
#[unsafe(no_mangle)]
pub extern "C" fn mqtt5_client_pubrec(alloc: Global, h: &mut Handle, pkid: u16, at: u64) -> u32
    requires { IsKept h.old }
    ensures kept { IsKept h.new }
    ensures answer { Called (Asks (pubrec_of pkid) at) h.old.client_ptr.value result
        h.new.client_ptr.value }
{
    ask(alloc, h, Request::PubRec(PubRec::new(pkid, None)), at)
}

/// Asks for a PingReq, at a moment. 3 where the last one isn't answered: the broker is gone.
#[unsafe(no_mangle)]
pub extern "C" fn mqtt5_client_ping(alloc: Global, h: &mut Handle, at: u64) -> u32
    requires { IsKept h.old }
    ensures kept { IsKept h.new }
    ensures answer { Called (Asks requests.PingReq at) h.old.client_ptr.value result
        h.new.client_ptr.value }
{
    ask(alloc, h, Request::PingReq, at)
}

/// Asks for a Disconnect, which ends the connection, at a moment. Each later request is answered by 13 until
/// `mqtt5_client_connect`.
#[unsafe(no_mangle)]
pub extern "C" fn mqtt5_client_disconnect(alloc: Global, h: &mut Handle, at: u64) -> u32
    requires { IsKept h.old }
    ensures kept { IsKept h.new }
    ensures answer { Called (Asks requests.Disconnect at) h.old.client_ptr.value result
        h.new.client_ptr.value }
{
    ask(alloc, h, Request::Disconnect, at)
}
