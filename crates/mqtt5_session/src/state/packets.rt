//! What each packet from the broker makes of the session.

ghost use Rattle.std.specs.Prelude.{◌≡◌, ◌<◌, ◌≤◌, IfOk, OnOk, OnErr, Ok, Err, Some, None, is_some, true, false, unwrap_or, option_map, cond, ◌&&◌};
ghost use Rattle.std.specs.FinSet as set;
ghost use Rattle.mqtt5_inflight.specs.Aliases.{alias_of};
ghost use Rattle.mqtt5_session.specs.Freeing.{sent_for, in_use_after, waiting_after, IsCounted};
ghost use Rattle.mqtt5_session.specs.Session.{Session, Receives, with_event};
ghost use Rattle.mqtt5_session.specs.Requests.{disconnect_of};
ghost use Rattle.mqtt5_session.specs.Packets.{with_incoming, with_notice, takes, answer_to, event_of, is_exactly_once, freed_for, is_taken, on_received, pubcomp_of, topic_under, topics_with, ids_with, on_qos, aliases_allowed, current_allowed, on_connack, reason_in};

use super::MqttState;
use crate::packed::{
    as_connack, as_disconnect, as_puback, as_pubcomp, as_publish, as_pubrec, as_pubrel, as_release,
    as_reply, disconnect_packet,
};
use bytes::Bytes;
use mqtt5_base::{QoS, Text, copied};
use mqtt5_codec::Packet;
use mqtt5_control::{
    ConnAck, ConnAckProperties, ConnectReturnCode, Disconnect, DisconnectProperties,
    DisconnectReasonCode,
};
use mqtt5_inflight::{Aliases, Event, Ids, Outgoing, Slot, Slots, StateError, alias_of};
use mqtt5_publish::{
    PubAck, PubComp, PubCompReason, PubRec, PubRecReason, PubRel, PubRelReason, Publish,
};
use std::alloc::AllocError;

impl MqttState {
    /// Adds the event of a packet.
    fn push_incoming(&mut self, packet: Packet) -> Result<(), AllocError>
        ensures ok { OnOk result (self.new ≡ with_incoming self.old packet) }
        ensures err { OnErr result (self.new ≡ self.old) }
    {
        if let Err(refused) = self.events.reserve(1) {
            drop(packet);
            return Err(refused);
        }
        self.events.push_back_reserved(Event::Incoming(packet));
        Ok(())
    }

    /// Adds the event of a packet and that of its answer.
    fn push_both(&mut self, packet: Packet, answer: Outgoing, at: u64) -> Result<(), AllocError>
        ensures ok { OnOk result
            (self.new ≡ record (with_event (with_incoming self.old packet) answer)
            { last_incoming = at }) }
        ensures err { OnErr result (self.new ≡ self.old) }
    {
        if let Err(refused) = self.events.reserve(2) {
            drop(packet);
            return Err(refused);
        }
        self.events.push_back_reserved(Event::Incoming(packet));
        self.events.push_back_reserved(Event::Outgoing(answer));
        self.last_incoming = at;
        Ok(())
    }

    /// A packet of a type that the session doesn't take.
    pub(super) fn refuse(&mut self, packet: Packet) -> Result<Option<Packet>, StateError>
        ensures { Receives result self.old self.new
            (Err StateError.WrongPacket, with_incoming self.old packet) }
    {
        self.push_incoming(packet)?;
        Err(StateError::WrongPacket)
    }

    /// A packet that has no answer.
    pub(super) fn accept_silently(
        &mut self,
        packet: Packet,
        at: u64,
    ) -> Result<Option<Packet>, StateError>
        ensures { Receives result self.old self.new (takes (with_incoming self.old packet) at) }
    {
        self.push_incoming(packet)?;
        self.last_incoming = at;
        Ok(None)
    }

    pub(super) fn hear_pingresp(
        &mut self,
        packet: Packet,
        at: u64,
    ) -> Result<Option<Packet>, StateError>
        ensures { Receives result self.old self.new
            (takes (record (with_incoming self.old packet) { awaits_ping = false }) at) }
    {
        self.push_incoming(packet)?;
        self.awaits_ping = false;
        self.last_incoming = at;
        Ok(None)
    }

    pub(super) fn hear_puback(&mut self, ack: PubAck, at: u64) -> Result<Option<Packet>, StateError>
        ensures { Receives result self.old self.new
            (answer_to (with_incoming self.old (Packet.PubAck ack)) (Packet.PubAck ack) at) }
    {
        let id = ack.pkid;
        if self.slots.sent(id).is_none() {
            self.push_incoming(as_puback(ack))?;
            return Err(StateError::Unsolicited(id));
        }
        self.end_id(as_puback(ack), id, at)
    }

    pub(super) fn hear_pubrec(&mut self, ack: PubRec, at: u64) -> Result<Option<Packet>, StateError>
        ensures { Receives result self.old self.new
            (answer_to (with_incoming self.old (Packet.PubRec ack)) (Packet.PubRec ack) at) }
    {
        let id = ack.pkid;
        if self.slots.sent(id).is_none() {
            self.push_incoming(as_pubrec(ack))?;
            return Err(StateError::Unsolicited(id));
        }
        if !is_taken(ack.reason) {
            return self.end_id(as_pubrec(ack), id, at);
        }
        self.release_sent(ack, id, at)
    }

    pub(super) fn hear_pubcomp(
        &mut self,
        ack: PubComp,
        at: u64,
    ) -> Result<Option<Packet>, StateError>
        ensures { Receives result self.old self.new
            (answer_to (with_incoming self.old (Packet.PubComp ack)) (Packet.PubComp ack) at) }
    {
        let id = ack.pkid;
        if !self.slots.is_released(id) {
            self.push_incoming(as_pubcomp(ack))?;
            return Err(StateError::Unsolicited(id));
        }
        self.end_id(as_pubcomp(ack), id, at)
    }

    /// Makes an id free, and sends the publish that waits for it.
    fn end_id(&mut self, packet: Packet, id: u16, at: u64) -> Result<Option<Packet>, StateError>
        requires low { 0 < id }
        requires high { id ≤ self.old.core.limit }
        ensures { Receives result self.old self.new
            (freed_for self.old.core.waiting (with_incoming self.old packet) id at) }
    {
        if let Err(refused) = self.events.reserve(2) {
            drop(packet);
            return Err(StateError::from(refused));
        }
        let sent = match release(&mut self.slots, &mut self.waiting, id) {
            Ok(sent) => sent,
            Err(refused) => {
                drop(packet);
                return Err(StateError::from(refused));
            }
        };
        self.events.push_back_reserved(Event::Incoming(packet));
        self.last_incoming = at;
        if sent.is_some() {
            self.events
                .push_back_reserved(Event::Outgoing(Outgoing::Publish(id)));
            self.collision_pings = 0;
        }
        Ok(as_reply(sent))
    }

    /// Releases an id whose publish was taken.
    fn release_sent(&mut self, ack: PubRec, id: u16, at: u64) -> Result<Option<Packet>, StateError>
        requires low { 0 < id }
        requires high { id ≤ self.old.core.limit }
        ensures { Receives result self.old self.new
            (on_received true (with_incoming self.old (Packet.PubRec ack)) id at) }
    {
        self.events.reserve(2)?;
        self.slots.insert(id, Slot::Released)?;
        self.events
            .push_back_reserved(Event::Incoming(as_pubrec(ack)));
        self.events
            .push_back_reserved(Event::Outgoing(Outgoing::PubRel(id)));
        self.last_incoming = at;
        Ok(Some(as_release(id)))
    }

    pub(super) fn hear_pubrel(
        &mut self,
        release: PubRel,
        at: u64,
    ) -> Result<Option<Packet>, StateError>
        ensures { Receives result self.old self.new
            (answer_to (with_incoming self.old (Packet.PubRel release))
            (Packet.PubRel release) at) }
    {
        let id = release.pkid;
        if !self.incoming.contains(id) {
            return self.answer_release(release, PubCompReason::PacketIdentifierNotFound, at);
        }
        if release.reason != PubRelReason::Success {
            return self.forget_id(release, at);
        }
        let answer = self.answer_release(release, PubCompReason::Success, at)?;
        self.incoming.remove(id);
        Ok(answer)
    }

    /// Answers a release.
    fn answer_release(
        &mut self,
        release: PubRel,
        reason: PubCompReason,
        at: u64,
    ) -> Result<Option<Packet>, StateError>
        ensures { Receives result self.old self.new (
          Ok (Some (pubcomp_of release.pkid reason)),
          record
              (with_event (with_incoming self.old (Packet.PubRel release))
              (Outgoing.PubComp release.pkid)) { last_incoming = at },
        ) }
    {
        let pkid = release.pkid;
        self.push_both(as_pubrel(release), Outgoing::PubComp(pkid), at)?;
        Ok(Some(as_pubcomp(PubComp {
            pkid,
            reason,
            properties: None,
        })))
    }

    /// Takes out the id of a publish that the broker doesn't go on with.
    fn forget_id(&mut self, release: PubRel, at: u64) -> Result<Option<Packet>, StateError>
        ensures { Receives result self.old self.new
            (takes
            (record (with_incoming self.old (Packet.PubRel release)) {
              core = record self.old.core
                  { incoming = set.remove self.old.core.incoming release.pkid };
            }) at) }
    {
        let pkid = release.pkid;
        self.push_incoming(as_pubrel(release))?;
        self.incoming.remove(pkid);
        self.last_incoming = at;
        Ok(None)
    }

    pub(super) fn hear_publish(
        &mut self,
        mut publish: Publish,
        at: u64,
    ) -> Result<Option<Packet>, StateError>
        ensures { Receives result self.old self.new
            (answer_to (with_notice self.old (event_of self.old (Packet.Publish publish)))
            (Packet.Publish publish) at) }
    {
        let topic = copied(&publish.topic)?;
        let alias = alias_of(&publish);
        let id = publish.pkid;
        let qos = publish.qos;
        let is_known = resolve_topic(&self.aliases, &mut publish)?;
        let notice = without_duplicate(publish, self.incoming.contains(id));
        if !is_known {
            return self.refuse_alias(notice, at);
        }
        self.take_publish(notice, alias, topic, qos, id, at)
    }

    /// Answers a publish under an alias that isn't known.
    fn refuse_alias(
        &mut self,
        notice: Option<Publish>,
        at: u64,
    ) -> Result<Option<Packet>, StateError>
        ensures { Receives result self.old self.new (
          Ok (Some (disconnect_of DisconnectReasonCode.ProtocolError)),
          record
              (with_event (with_notice self.old (option_map Packet.Publish notice))
              Outgoing.Disconnect) { last_incoming = at },
        ) }
    {
        self.events.reserve(2)?;
        if let Some(publish) = notice {
            self.events
                .push_back_reserved(Event::Incoming(as_publish(publish)));
        }
        self.events
            .push_back_reserved(Event::Outgoing(Outgoing::Disconnect));
        self.last_incoming = at;
        Ok(Some(as_disconnect(DisconnectReasonCode::ProtocolError)))
    }

    /// Keeps the alias and the id of a publish, and answers it.
    fn take_publish(
        &mut self,
        notice: Option<Publish>,
        alias: Option<u16>,
        topic: Bytes,
        qos: QoS,
        id: u16,
        at: u64,
    ) -> Result<Option<Packet>, StateError>
        ensures { Receives result self.old self.new
            (on_qos qos
            (record (with_notice self.old (option_map Packet.Publish notice)) {
              core = record self.old.core {
                aliases = topics_with alias topic self.old.core.aliases;
                incoming = ids_with qos self.old.core.incoming id;
              };
            }) id at) }
    {
        self.events.reserve(2)?;
        keep_id_and_topic(&mut self.aliases, &mut self.incoming, alias, topic, qos, id)?;
        if let Some(publish) = notice {
            self.events
                .push_back_reserved(Event::Incoming(as_publish(publish)));
        }
        self.last_incoming = at;
        if qos == QoS::AtMostOnce || self.manual_acks {
            return Ok(None);
        }
        if qos == QoS::AtLeastOnce {
            self.events
                .push_back_reserved(Event::Outgoing(Outgoing::PubAck(id)));
            return Ok(Some(as_puback(PubAck::new(id, None))));
        }
        self.events
            .push_back_reserved(Event::Outgoing(Outgoing::PubRec(id)));
        Ok(Some(as_pubrec(PubRec::new(id, None))))
    }

    pub(super) fn hear_connack(
        &mut self,
        ack: ConnAck,
        at: u64,
    ) -> Result<Option<Packet>, StateError>
        ensures { Receives result self.old self.new
            (on_connack ack.code ack.properties (with_incoming self.old (Packet.ConnAck ack)) at) }
    {
        match ack.code {
            ConnectReturnCode::Success => {
                let alias_max = aliases_allowed(&ack.properties, self.alias_max);
                let current = current_allowed(&ack.properties, self.slots.limit(), self.current);
                self.set_broker_limits(as_connack(ack), alias_max, current, at)
            }
            reason => {
                self.push_incoming(as_connack(ack))?;
                Err(StateError::ConnFail { reason })
            }
        }
    }

    /// Keeps what the broker allows.
    fn set_broker_limits(
        &mut self,
        packet: Packet,
        alias_max: u16,
        current: u16,
        at: u64,
    ) -> Result<Option<Packet>, StateError>
        requires { current ≤ self.old.core.limit }
        ensures { Receives result self.old self.new
            (takes
            (record (with_incoming self.old packet)
            { core = record self.old.core { alias_max = alias_max; current = current } }) at) }
    {
        self.push_incoming(packet)?;
        self.alias_max = alias_max;
        self.current = current;
        self.last_incoming = at;
        Ok(None)
    }

    pub(super) fn hear_disconnect(
        &mut self,
        disconnect: Disconnect,
    ) -> Result<Option<Packet>, StateError>
        ensures { Receives result self.old self.new (
          Err (StateError.ServerDisconnect disconnect.reason_code
              (reason_in disconnect.properties)),
          with_incoming self.old (Packet.Disconnect
              disconnect),
        ) }
    {
        let reason_code = disconnect.reason_code;
        let reason_string = reason_in(&disconnect.properties)?;
        self.push_incoming(disconnect_packet(disconnect))?;
        Err(StateError::ServerDisconnect {
            reason_code,
            reason_string,
        })
    }
}

/// Whether a publish was taken.
pub(super) fn is_taken(reason: PubRecReason) -> bool
    ensures { result ≡ is_taken reason }
{
    matches!(
        reason,
        PubRecReason::Success | PubRecReason::NoMatchingSubscribers
    )
}

/// Makes an id free, or stores the publish that waits for it and answers that.
fn release(
    slots: &mut Slots,
    waiting: &mut Option<Publish>,
    id: u16,
) -> Result<Option<Publish>, AllocError>
    requires low { 0 < id }
    requires high { id ≤ slots.old.limit }
    requires counted { IsCounted waiting.old }
    ensures sent { IfOk result (λ sent. sent ≡ sent_for waiting.old id) }
    ensures slots { OnOk result
        (slots.new ≡ record slots.old { in_use = in_use_after waiting.old slots.old.in_use id }) }
    ensures waiting { OnOk result (waiting.new ≡ waiting_after waiting.old id) }
    ensures kept { OnErr result (slots.new ≡ slots.old) }
    ensures waits { OnErr result (waiting.new ≡ waiting.old) }
{
    match waiting {
        Some(publish) if publish.pkid == id => {
            let sent = copied(publish)?;
            slots.insert(id, Slot::Sent(sent))?;
            Ok(waiting.take())
        }
        _ => {
            slots.remove(id);
            Ok(None)
        }
    }
}

/// Gives a publish without a topic the one that its alias stands for, and answers whether that is known.
fn resolve_topic(topics: &Aliases, publish: &mut Publish) -> Result<bool, AllocError>
    ensures known { IfOk result (λ known. known
        ≡ is_some (topic_under (alias_of publish.old) publish.old.topic topics.now)) }
    ensures topic { OnOk result
        (publish.new
        ≡ record publish.old {
          topic = unwrap_or (topic_under (alias_of publish.old) publish.old.topic topics.now)
              publish.old.topic;
        }) }
{
    let Some(alias) = alias_of(publish) else {
        return Ok(true);
    };
    if !publish.topic.is_empty() {
        return Ok(true);
    }
    match topics.get(alias) {
        Some(topic) => {
            publish.topic = copied(topic)?;
            Ok(true)
        }
        None => Ok(false),
    }
}

/// A publish, unless it is a duplicate.
fn without_duplicate(publish: Publish, is_kept: bool) -> Option<Publish>
    ensures { result ≡ cond (is_exactly_once publish.qos && is_kept) None (Some publish) }
{
    if publish.qos == QoS::ExactlyOnce && is_kept {
        None
    } else {
        Some(publish)
    }
}

/// Keeps the topic of an alias, and the id of a publish of QoS 2, both or none.
fn keep_id_and_topic(
    topics: &mut Aliases,
    ids: &mut Ids,
    alias: Option<u16>,
    topic: Bytes,
    qos: QoS,
    id: u16,
) -> Result<(), AllocError>
    ensures topics { OnOk result (topics.new ≡ topics_with alias topic topics.old) }
    ensures ids { OnOk result (ids.new ≡ ids_with qos ids.old id) }
    ensures topics_stay { OnErr result (topics.new ≡ topics.old) }
    ensures ids_stay { OnErr result (ids.new ≡ ids.old) }
{
    if qos != QoS::ExactlyOnce {
        return keep_topic(topics, alias, topic);
    }
    let was_kept = ids.contains(id);
    ids.insert(id)?;
    let Err(refused) = keep_topic(topics, alias, topic) else {
        return Ok(());
    };
    if !was_kept {
        ids.remove(id);
    }
    Err(refused)
}

/// Keeps the topic of an alias.
fn keep_topic(topics: &mut Aliases, alias: Option<u16>, topic: Bytes) -> Result<(), AllocError>
    ensures topics { OnOk result (topics.new ≡ topics_with alias topic topics.old) }
    ensures topics_stay { OnErr result (topics.new ≡ topics.old) }
{
    match alias {
        Some(alias) if !topic.is_empty() => topics.insert(alias, topic),
        _ => Ok(()),
    }
}

/// The broker's maximum of topic aliases.
fn aliases_allowed(properties: &Option<ConnAckProperties>, max: u16) -> u16
    ensures { result ≡ aliases_allowed properties.now max }
{
    match properties {
        Some(set) => set.topic_alias_max.unwrap_or(max),
        None => max,
    }
}

/// The current maximum of ids in use.
fn current_allowed(properties: &Option<ConnAckProperties>, limit: u16, current: u16) -> u16
    requires { current ≤ limit }
    ensures allowed { result ≡ current_allowed properties.now limit current }
    ensures within { result ≤ limit }
{
    match properties {
        Some(set) => match set.receive_max {
            Some(max) => max.min(limit),
            None => current,
        },
        None => current,
    }
}

/// Why the broker ends the connection, as a text.
fn reason_in(properties: &Option<DisconnectProperties>) -> Result<Option<Text>, AllocError>
    ensures { IfOk result (λ text. text ≡ reason_in properties.now) }
{
    match properties {
        Some(set) => copied(&set.reason_string),
        None => Ok(None),
    }
}
