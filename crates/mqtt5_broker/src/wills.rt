//! What a broker publishes in a client's name once its connection is lost.

ghost use Rattle.std.specs.Prelude.{◌≡◌, ◌&&◌, not, true, false, Some, option_map, IfOk, IfErr, OnOk, OnErr};
ghost use Rattle.mqtt5_sessions.specs.Sessions.{loses, is_due, dates, comes, sent_again, ends};
ghost use Rattle.mqtt5_sessions.specs.Expiry.{will_expiry, will_is_delayed};
ghost use Rattle.mqtt5_broker.specs.Broker.{sessions_dated};
ghost use Rattle.mqtt5_broker.specs.Expiry.{uncounted, begun};
ghost use Rattle.mqtt5_broker.specs.Wills.{published_properties, published_by, or_zero, delay_of, delay_in, will_of};

use crate::broker::Broker;
use crate::expiry::{begun_in, uncounted};
use mqtt5_base::copied;
use mqtt5_codec::Packet;
use mqtt5_connect::{LastWill, LastWillProperties};
use mqtt5_network::Will;
use mqtt5_publish::{Publish, PublishProperties};
use mqtt5_session::StateError;
use std::alloc::{AllocError, Global};
use std::collections::VecDeque;

/// The Message Expiry Interval of a will, if it has one: it begins once the will is published (3.1.3.2.4).
fn uncounted_in(interval: Option<u32>) -> Option<u32>
    ensures { result ≡ option_map uncounted interval }
{
    match interval {
        Some(interval) => Some(uncounted(interval)),
        None => None,
    }
}

/// The properties of a will, but for its delay.
fn published_properties(
    alloc: Global,
    set: &LastWillProperties,
) -> Result<PublishProperties, AllocError>
    ensures { IfOk result (λ p. p ≡ published_properties set.now) }
{
    let copy = copied(set)?;
    let mut properties = PublishProperties::new(alloc);
    properties.payload_format_indicator = copy.payload_format_indicator;
    properties.message_expiry_interval = uncounted_in(copy.message_expiry_interval);
    properties.content_type = copy.content_type;
    properties.response_topic = copy.response_topic;
    properties.correlation_data = copy.correlation_data;
    properties.user_properties = copy.user_properties;
    Ok(properties)
}

/// They, if there are any.
fn some_properties(
    alloc: Global,
    properties: &Option<LastWillProperties>,
) -> Result<Option<PublishProperties>, AllocError>
    ensures { IfOk result (λ p. p ≡ option_map published_properties properties.now) }
{
    match properties {
        Some(set) => Ok(Some(published_properties(alloc, set)?)),
        None => Ok(None),
    }
}

/// The publish of a will.
fn published_by(alloc: Global, will: &LastWill) -> Result<Publish, AllocError>
    ensures { IfOk result (λ p. p ≡ published_by will.now) }
{
    let topic = copied(&will.topic)?;
    let payload = copied(&will.message)?;
    Ok(Publish {
        dup: false,
        qos: will.qos,
        retain: will.retain,
        topic,
        pkid: 0,
        payload,
        properties: some_properties(alloc, &will.properties)?,
    })
}

fn delay_of(properties: &Option<LastWillProperties>) -> u32
    ensures { result ≡ delay_of properties.now }
{
    match properties {
        Some(set) => set.delay_interval.unwrap_or(0),
        None => 0,
    }
}

/// After how many seconds the will of a connection is published, if it has one (3.1.3.2.2).
pub(super) fn delay_in(will: &Option<LastWill>) -> u32
    ensures { result ≡ delay_in will.now }
{
    match will {
        Some(will) => delay_of(&will.properties),
        None => 0,
    }
}

/// The will of a connection, if it has one. Err where memory is refused.
pub(super) fn will_of(alloc: Global, will: &Option<LastWill>) -> Result<Option<Will>, AllocError>
    ensures { IfOk result (λ w. w ≡ option_map will_of will.now) }
{
    match will {
        Some(will) => Ok(Some(Will {
            publish: published_by(alloc, will)?,
            delayed: delay_of(&will.properties) != 0,
        })),
        None => Ok(None),
    }
}

/// Whether a will waits still that has a delay or doesn't: not where any is published.
fn waits_still(any: bool, delayed: bool) -> bool
    ensures { result ≡ (not any && delayed) }
{
    !any && delayed
}

impl Broker {
    /// The interval of a client's will once that is published at this moment, of any, or of one that has no delay (3.1.3.2.4).
    fn begun_interval(&self, client: usize, any: bool) -> Option<u32>
        ensures { result ≡ option_map
            (begun (not any && will_is_delayed client self.now.sessions) self.now.moment)
            (will_expiry client self.now.sessions) }
    {
        let waits = waits_still(any, self.sessions.will_is_delayed(client));
        begun_in(waits, self.moment, self.sessions.will_expiry(client))
    }

    /// The lifetime of a client's will begins, of any, or of one that has no delay: what its Message Expiry Interval was. Takes no
    /// memory.
    fn date_will(&mut self, client: usize, any: bool) -> Option<u32>
        ensures dated { self.new
            ≡ record self.old { sessions = sessions_dated any client self.old } }
        ensures before { result ≡ will_expiry client self.old.sessions }
    {
        let before = self.sessions.will_expiry(client);
        let interval = self.begun_interval(client, any);
        self.sessions.set_will_expiry(client, interval);
        before
    }

    /// It hasn't begun after all, where memory was refused for what was to publish the will.
    fn undate_will(&mut self, client: usize, before: Option<u32>, outcome: &Result<(), StateError>)
        ensures ok { OnOk outcome.now (self.new ≡ self.old) }
        ensures err { OnErr outcome.now
            (self.new ≡ record self.old { sessions = dates client before self.old.sessions }) }
    {
        if outcome.is_err() {
            self.sessions.set_will_expiry(client, before);
        }
    }

    fn lose_now(&mut self, alloc: Global, client: usize) -> Result<(), StateError>
        ensures ok { OnOk result
            (self.new ≡ record self.old { sessions = loses client self.old.sessions }) }
        ensures memory { IfErr result (λ e. e ≡ StateError.OutOfMemory) }
        ensures left { OnErr result (self.new ≡ self.old) }
    {
        self.sessions.lose(alloc, client)
    }

    fn publish_now(&mut self, alloc: Global, client: usize) -> Result<(), StateError>
        ensures ok { OnOk result
            (self.new ≡ record self.old { sessions = is_due client self.old.sessions }) }
        ensures memory { IfErr result (λ e. e ≡ StateError.OutOfMemory) }
        ensures left { OnErr result (self.new ≡ self.old) }
    {
        self.sessions.due(alloc, client)
    }

    fn end_now(&mut self, alloc: Global, client: usize) -> Result<(), StateError>
        ensures ok { OnOk result
            (self.new ≡ record self.old { sessions = ends client self.old.sessions }) }
        ensures memory { IfErr result (λ e. e ≡ StateError.OutOfMemory) }
        ensures left { OnErr result (self.new ≡ self.old) }
    {
        self.sessions.end(alloc, client)
    }

    fn come_now(
        &mut self,
        alloc: Global,
        client: usize,
        receive_max: u16,
        will: Option<Will>,
    ) -> Result<VecDeque<Packet>, StateError>
        ensures ok { OnOk result (self.new ≡ record self.old {
          sessions = comes client (Some receive_max) will self.old.sessions;
        }) }
        ensures sent { IfOk result (λ way. way.items
            ≡ sent_again client (Some receive_max) self.old.sessions) }
        ensures memory { IfErr result (λ e. e ≡ StateError.OutOfMemory) }
    {
        self.sessions.come(alloc, client, Some(receive_max), will)
    }

    /// A client's connection is lost: its will is published, or waits. S12, which leaves all as it was.
    pub(super) fn lose_connection(&mut self, alloc: Global, client: usize) -> Result<(), StateError>
        ensures ok { OnOk result (self.new ≡ record self.old {
          sessions = loses client (sessions_dated false client self.old);
        }) }
        ensures memory { IfErr result (λ e. e ≡ StateError.OutOfMemory) }
        ensures left { OnErr result (self.new ≡ self.old) }
    {
        let before = self.date_will(client, false);
        let outcome = self.lose_now(alloc, client);
        self.undate_will(client, before, &outcome);
        outcome
    }

    /// The delay of the will of one that is away has passed. S12, which leaves all as it was.
    pub(super) fn publish_due(&mut self, alloc: Global, client: usize) -> Result<(), StateError>
        ensures ok { OnOk result (self.new ≡ record self.old {
          sessions = is_due client (sessions_dated true client self.old);
        }) }
        ensures memory { IfErr result (λ e. e ≡ StateError.OutOfMemory) }
        ensures left { OnErr result (self.new ≡ self.old) }
    {
        let before = self.date_will(client, true);
        let outcome = self.publish_now(alloc, client);
        self.undate_will(client, before, &outcome);
        outcome
    }

    /// A client's session ends, and its will is published. S12, which leaves all as it was.
    pub(super) fn end_session(&mut self, alloc: Global, client: usize) -> Result<(), StateError>
        ensures ok { OnOk result (self.new ≡ record self.old {
          sessions = ends client (sessions_dated true client self.old);
        }) }
        ensures memory { IfErr result (λ e. e ≡ StateError.OutOfMemory) }
        ensures left { OnErr result (self.new ≡ self.old) }
    {
        let before = self.date_will(client, true);
        let outcome = self.end_now(alloc, client);
        self.undate_will(client, before, &outcome);
        outcome
    }

    /// A client comes on a new connection, and that which it had is lost, if it had one: what its session sends again. S12.
    pub(super) fn take_up(
        &mut self,
        alloc: Global,
        client: usize,
        receive_max: u16,
        will: Option<Will>,
    ) -> Result<VecDeque<Packet>, StateError>
        ensures ok { OnOk result (self.new ≡ record self.old {
          sessions =
              comes client (Some receive_max) will (sessions_dated false client self.old);
        }) }
        ensures sent { IfOk result (λ way. way.items
            ≡ sent_again client (Some receive_max) self.old.sessions) }
        ensures memory { IfErr result (λ e. e ≡ StateError.OutOfMemory) }
    {
        let _before = self.date_will(client, false);
        self.come_now(alloc, client, receive_max, will)
    }
}
