//! What the users of a broker may publish and subscribe to.

ghost use Rattle.std.specs.Prelude.{◌≡◌, ◌&&◌, map, filter, length, IfOk, IfErr, OnOk, OnErr};
ghost use Rattle.std.specs.List.{list_all};
ghost use Rattle.std.specs.Str.{is_utf8};
ghost use Rattle.mqtt5_base.specs.Texts.{text_of};
ghost use Rattle.mqtt5_broker.specs.Rights.{no_rights, publishing, subscribing, is_within, may_publish, asked_pattern, may_subscribe, may_do, denial, code_for, suback_for, part_of, will_denial};
ghost use Rattle.mqtt5_broker.specs.Broker.{knows_user, lets};

use crate::broker::Broker;
use mqtt5_base::{QoS, Sequence, Text, matches};
use mqtt5_codec::Packet;
use mqtt5_connect::LastWill;
use mqtt5_control::ConnectReturnCode;
use mqtt5_publish::{PubAck, PubAckReason, PubRec, PubRecReason};
use mqtt5_router::shared_filter;
use mqtt5_session::StateError;
use mqtt5_subscribe::{Filter, SubAck, Subscribe, SubscribeReasonCode};
use std::alloc::{AllocError, Global};
use std::marker::Model;

/// What a user may do: the topic filters within which it publishes, and those within which it subscribes (MQTT 5.0 section 5.4.2).
#[derive(Debug, Drop)]
pub struct Rights {
    publishes: Vec<Text>,
    subscribes: Vec<Text>,
}

impl Model for Rights {
    ghost use Rattle.std.specs.Coded.{codes};
    ghost use Rattle.mqtt5_base.specs.Codes.{utf8_code};
    ghost use Rattle.mqtt5_broker.specs.Rights as model;

    ghost Value = { model.Rights };

    ghost coded = { Prim.hlevel (codes, utf8_code) };

    ghost view = { λ a. record { publishes = a.publishes.items; subscribes = a.subscribes.items } };
}

/// A text of a filter.
fn filter_text(alloc: Global, filter: &str) -> Result<Text, AllocError>
    ensures { IfOk result (λ t. t ≡ text_of filter.now) }
{
    let text = Text::from_str(alloc, filter)?;
    Ok(text)
}

impl Rights {
    /// To do nothing. Takes no memory.
    pub(super) fn none(alloc: Global) -> Rights
        ensures { result ≡ no_rights }
    {
        Rights {
            publishes: Vec::new(alloc),
            subscribes: Vec::new(alloc),
        }
    }

    /// The filters within which it publishes.
    fn publishes(&self) -> &[Text]
        ensures { result.now ≡ self.now.publishes }
    {
        self.publishes.as_slice()
    }

    /// The filters within which it subscribes.
    fn subscribes(&self) -> &[Text]
        ensures { result.now ≡ self.now.subscribes }
    {
        self.subscribes.as_slice()
    }

    /// One filter more to publish within. Err where memory is refused.
    fn add_publishes(&mut self, alloc: Global, filter: &str) -> Result<(), AllocError>
        ensures ok { OnOk result (self.new ≡ publishing filter.now self.old) }
        ensures left { OnErr result (self.new ≡ self.old) }
    {
        let text = filter_text(alloc, filter)?;
        self.publishes.push(text)?;
        Ok(())
    }

    /// One filter more to subscribe within. Err where memory is refused.
    fn add_subscribes(&mut self, alloc: Global, filter: &str) -> Result<(), AllocError>
        ensures ok { OnOk result (self.new ≡ subscribing filter.now self.old) }
        ensures left { OnErr result (self.new ≡ self.old) }
    {
        let text = filter_text(alloc, filter)?;
        self.subscribes.push(text)?;
        Ok(())
    }
}

/// Whether a text, which is a topic or a topic filter, lies within one of these filters (4.7).
fn is_within(text: &str, filters: &[Text]) -> bool
    ensures { result ≡ is_within text.now filters.now }
{
    filters.iter().any(|filter| matches(text, filter.as_str()))
}

/// Whether bytes are a text that does.
fn is_text_within(bytes: &[u8], filters: &[Text]) -> bool
    ensures { result ≡ (is_utf8 bytes.now && is_within bytes.now filters.now) }
{
    match std::str::from_utf8(bytes) {
        Ok(text) => is_within(text, filters),
        Err(_) => false,
    }
}

/// Whether who connects as a user, or as none, may publish to a topic.
fn may_publish(user: Option<usize>, rights: &[Rights], topic: &[u8]) -> bool
    ensures { result ≡ may_publish user rights.now topic.now }
{
    match user {
        Some(user) => user < rights.len() && is_text_within(topic, rights[user].publishes()),
        None => true,
    }
}

/// Whether it may subscribe to a filter.
fn may_subscribe(user: Option<usize>, rights: &[Rights], filter: &Filter) -> bool
    ensures { result ≡ may_subscribe user rights.now filter.now }
{
    match user {
        Some(user) => user < rights.len() && is_filter_within(filter, rights[user].subscribes()),
        None => true,
    }
}

/// Whether the topics that a filter is matched with lie within these: of a shared subscription the filter behind the share name
/// (4.8.2).
fn is_filter_within(filter: &Filter, filters: &[Text]) -> bool
    ensures { result ≡ is_within (asked_pattern filter.now).bytes filters.now }
{
    match shared_filter(filter.path.as_bytes()) {
        None => is_within(filter.path.as_str(), filters),
        Some(bytes) => is_made_within(bytes, filters),
    }
}

/// So the text of bytes, or the empty one, where they are none.
fn is_made_within(bytes: &[u8], filters: &[Text]) -> bool
    ensures { result ≡ is_within (text_of bytes.now).bytes filters.now }
{
    match std::str::from_utf8(bytes) {
        Ok(text) => is_within(text, filters),
        Err(_) => is_within("", filters),
    }
}

fn may_subscribe_to_all(user: Option<usize>, rights: &[Rights], filters: &[Filter]) -> bool
    ensures { result ≡ list_all (may_subscribe user rights.now) filters.now }
{
    filters
        .iter()
        .all(|filter| may_subscribe(user, rights, filter))
}

/// Whether it may do all that a packet asks for.
pub(super) fn may_do(user: Option<usize>, rights: &[Rights], packet: &Packet) -> bool
    ensures { result ≡ may_do user rights.now packet.now }
{
    match packet {
        Packet::Publish(publish) => may_publish(user, rights, publish.topic.as_slice()),
        Packet::Subscribe(subscribe) => {
            may_subscribe_to_all(user, rights, subscribe.filters.as_slice())
        }
        _other => true,
    }
}

/// The answer to a publish that it may not publish; to one of QoS 0 there is none.
pub(super) fn denial(qos: QoS, id: u16) -> Option<Packet>
    ensures { result ≡ denial qos id }
{
    match qos {
        QoS::AtMostOnce => None,
        QoS::AtLeastOnce => Some(Packet::PubAck(PubAck {
            pkid: id,
            reason: PubAckReason::NotAuthorized,
            properties: None,
        })),
        QoS::ExactlyOnce => Some(Packet::PubRec(PubRec {
            pkid: id,
            reason: PubRecReason::NotAuthorized,
            properties: None,
        })),
    }
}

/// The code of a filter: the QoS that is asked for is granted, or it is denied.
fn code_for(user: Option<usize>, rights: &[Rights], filter: &Filter) -> SubscribeReasonCode
    ensures { result ≡ code_for user rights.now filter.now }
{
    if may_subscribe(user, rights, filter) {
        SubscribeReasonCode::Success(filter.qos)
    } else {
        SubscribeReasonCode::NotAuthorized
    }
}

/// Those of filters.
fn codes_for(
    alloc: Global,
    user: Option<usize>,
    rights: &[Rights],
    filters: &[Filter],
) -> Result<Sequence<SubscribeReasonCode>, AllocError>
    ensures { IfOk result (λ codes. codes ≡ map (code_for user rights.now) filters.now) }
{
    let mut codes = Sequence::new(alloc);
    for filter in filters {
        codes.push(code_for(user, rights, filter))?;
    }
    Ok(codes)
}

/// The answer to a Subscribe, of which some filters may be denied. Err where memory is refused.
pub(super) fn suback_for(
    alloc: Global,
    user: Option<usize>,
    rights: &[Rights],
    subscribe: &Subscribe,
) -> Result<Packet, AllocError>
    ensures { IfOk result (λ p. p ≡ suback_for user rights.now subscribe.now) }
{
    Ok(Packet::SubAck(SubAck {
        pkid: subscribe.pkid,
        return_codes: codes_for(alloc, user, rights, subscribe.filters.as_slice())?,
        properties: None,
    }))
}

/// Takes the filters out to which it may not subscribe. Takes no memory.
fn retain_allowed(user: Option<usize>, rights: &[Rights], filters: &mut Vec<Filter>)
    ensures { filters.new.items ≡ filter (may_subscribe user rights.now) filters.old.items }
{
    filters.retain(|filter| may_subscribe(user, rights, filter));
}

/// A Subscribe without the filters to which it may not subscribe. Takes no memory.
pub(super) fn part_of(user: Option<usize>, rights: &[Rights], subscribe: Subscribe) -> Subscribe
    ensures { result ≡ part_of user rights.now subscribe }
{
    let Subscribe {
        pkid,
        filters,
        properties,
    } = subscribe;
    let mut filters = filters.into_vec();
    retain_allowed(user, rights, &mut filters);
    Subscribe {
        pkid,
        filters: Sequence::from(filters),
        properties,
    }
}

/// Why a Connect is refused with a will that its user may not publish.
pub(super) fn will_denial(
    user: Option<usize>,
    rights: &[Rights],
    will: &Option<LastWill>,
) -> Option<ConnectReturnCode>
    ensures { result ≡ will_denial user rights.now will.now }
{
    match will {
        Some(will) => {
            if may_publish(user, rights, will.topic.as_slice()) {
                return None;
            }
            Some(ConnectReturnCode::NotAuthorized)
        }
        None => None,
    }
}

impl Broker {
    /// How many users there are; their numbers are below that.
    pub fn users(&self) -> usize
        ensures { result ≡ length self.now.rights }
    {
        self.rights.len()
    }

    /// One more user, who may neither publish nor subscribe to anything yet: its number. S12, which leaves all as it was.
    pub fn add_user(&mut self, alloc: Global) -> Result<usize, StateError>
        ensures ok { OnOk result (self.new ≡ knows_user self.old) }
        ensures number { IfOk result (λ user. user ≡ length self.old.rights) }
        ensures memory { IfErr result (λ e. e ≡ StateError.OutOfMemory) }
        ensures left { OnErr result (self.new ≡ self.old) }
    {
        let user = self.rights.len();
        self.rights.push(Rights::none(alloc))?;
        Ok(user)
    }

    /// A user may publish to each topic that matches this filter, from now on. The filter isn't judged; where there is no such user,
    /// nothing changes. S12, which leaves all as it was.
    pub fn allow_publish(
        &mut self,
        alloc: Global,
        user: usize,
        filter: &str,
    ) -> Result<(), StateError>
        ensures ok { OnOk result (self.new ≡ lets user (publishing filter.now) self.old) }
        ensures memory { IfErr result (λ e. e ≡ StateError.OutOfMemory) }
        ensures left { OnErr result (self.new ≡ self.old) }
    {
        if user < self.rights.len() {
            self.rights[user].add_publishes(alloc, filter)?;
        }
        Ok(())
    }

    /// A user may subscribe to each filter that lies within this one, from now on: it is sent what matches this one alone. The
    /// filter isn't judged; where there is no such user, nothing changes. S12, which leaves all as it was.
    pub fn allow_subscribe(
        &mut self,
        alloc: Global,
        user: usize,
        filter: &str,
    ) -> Result<(), StateError>
        ensures ok { OnOk result (self.new ≡ lets user (subscribing filter.now) self.old) }
        ensures memory { IfErr result (λ e. e ≡ StateError.OutOfMemory) }
        ensures left { OnErr result (self.new ≡ self.old) }
    {
        if user < self.rights.len() {
            self.rights[user].add_subscribes(alloc, filter)?;
        }
        Ok(())
    }
}
