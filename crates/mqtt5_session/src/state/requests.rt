//! What each request makes of the session.

ghost use Rattle.std.specs.Prelude.{◌≡◌, ◌≢◌, ◌<◌, ◌≤◌, IfOk, IfErr, IsOk, OnOk, OnErr, None, Some, Ok, cond};
ghost use Rattle.mqtt5_base.specs.declared.quality.QoS.TheVariants.{AtMostOnce};
ghost use Rattle.mqtt5_session.specs.Session.{Session, Sends};
ghost use Rattle.mqtt5_session.specs.Replies.{in_full};
ghost use Rattle.mqtt5_session.specs.Planned.{Stores, Plans, IsLeft};
ghost use Rattle.mqtt5_session.specs.Requests.{id_for, last_after, with_event_at, verdict_of, Verdict, out_publish, with_stored, awaits, on_request, out_identified, out_release, out_subscribe, out_unsubscribe, pings_with, disconnect_of, may_leave_for, out_disconnect, may_answer_with, names_method, out_auth};

use super::MqttState;
use crate::packed::{
    as_auth, as_disconnect, as_puback, as_pubrec, as_release, as_subscribe, as_unsubscribe,
    disconnect_packet,
};
use crate::reply::Reply;
use mqtt5_base::{QoS, copied};
use mqtt5_codec::Packet;
use mqtt5_control::{Auth, AuthProperties, AuthReasonCode, Disconnect, DisconnectReasonCode};
use mqtt5_inflight::{Event, Outgoing, Request, Slot, StateError, alias_over};
use mqtt5_publish::{PubAck, PubRec, Publish};
use mqtt5_subscribe::{Subscribe, Unsubscribe};
use std::alloc::AllocError;

impl MqttState {
    /// The id of a request with this id, and the last id after it.
    fn take_id(&self, id: u16) -> (u16, u16)
        ensures id { result.0 ≡ id_for self.now.core id }
        ensures last { result.1 ≡ last_after self.now.core id }
        ensures positive { 0 < result.0 }
        ensures below { result.1 < self.now.core.limit }
    {
        let limit = self.slots.limit();
        prove!(limit > self.last_pkid);
        if id != 0 {
            return (id, self.last_pkid);
        }
        let next = self.last_pkid + 1;
        if next >= self.current {
            (next, 0)
        } else {
            (next, next)
        }
    }

    /// Tells of what is sent at a moment.
    fn tell_at(&mut self, outgoing: Outgoing, at: u64) -> Result<(), AllocError>
        ensures ok { OnOk result (self.new ≡ with_event_at self.old outgoing at) }
        ensures err { OnErr result (self.new ≡ self.old) }
    {
        self.tell(outgoing)?;
        self.last_outgoing = at;
        Ok(())
    }

    /// Does what a publish or a ping does, all but its packet, and answers the packet's id; None of a publish
    /// that has to wait, and of any other request.
    #[inline(never)]
    #[tactic(auto, unfolding(crate::specs::Requests::on_request))]
    pub(super) fn plan(&mut self, request: &Request, at: u64) -> Result<Option<u16>, StateError>
        ensures { Plans result self.old self.new request.now at }
    {
        match request {
            Request::Publish(publish) => self.plan_publish(publish, at),
            Request::PingReq => self.plan_ping(at),
            _other => Ok(None),
        }
    }

    #[tactic(auto, unfolding(crate::specs::Requests::on_request))]
    fn plan_publish(&mut self, publish: &Publish, at: u64) -> Result<Option<u16>, StateError>
        ensures { Plans result self.old self.new (Request.Publish publish.now) at }
    {
        if publish.qos == QoS::AtMostOnce {
            return self.send_once(publish, at);
        }
        let (id, last) = self.take_id(publish.pkid);
        self.store_free(publish, id, last, at)
    }

    #[tactic(auto, unfolding(crate::specs::Requests::on_request))]
    fn send_once(&mut self, publish: &Publish, at: u64) -> Result<Option<u16>, StateError>
        requires { publish.now.qos ≡ AtMostOnce }
        ensures { Plans result self.old self.new (Request.Publish publish.now) at }
    {
        let max = self.alias_max;
        if let Some(alias) = alias_over(publish, max) {
            return Err(StateError::InvalidAlias { alias, max });
        }
        self.tell_at(Outgoing::Publish(publish.pkid), at)?;
        Ok(Some(publish.pkid))
    }

    /// Stores a copy of a publish under an id that is free, and answers the id; None where it isn't.
    fn store_free(
        &mut self,
        publish: &Publish,
        id: u16,
        last: u16,
        at: u64,
    ) -> Result<Option<u16>, StateError>
        requires id { 0 < id }
        requires last { last < self.old.core.limit }
        requires counted { publish.now.qos ≢ AtMostOnce }
        ensures { Stores result self.old self.new (record publish.now { pkid = id }) last at }
    {
        if !self.is_free_for(id, publish)? {
            return Ok(None);
        }
        self.store(publish, id, last, at)?;
        Ok(Some(id))
    }

    /// A copy of a publish of QoS 1 or 2 is stored, or waits until its id is free.
    #[tactic(auto, unfolding(crate::specs::Requests::on_request))]
    pub(super) fn copy_out(&mut self, publish: &Publish, at: u64) -> Result<Reply, StateError>
        requires { publish.now.qos ≢ AtMostOnce }
        ensures { Sends (in_full result self.new) self.old self.new
            (on_request self.old (Request.Publish publish.now) at) }
    {
        let (id, last) = self.take_id(publish.pkid);
        self.copy_under(publish, id, last, at)
    }

    fn copy_under(
        &mut self,
        publish: &Publish,
        id: u16,
        last: u16,
        at: u64,
    ) -> Result<Reply, StateError>
        requires id { 0 < id }
        requires last { last < self.old.core.limit }
        requires counted { publish.now.qos ≢ AtMostOnce }
        ensures { Sends (in_full result self.new) self.old self.new
            (out_identified self.old (record publish.now { pkid = id }) last at) }
    {
        match self.store_free(publish, id, last, at) {
            Ok(Some(stored)) => Ok(Reply::Publish(stored)),
            Ok(None) => self.keep_copy(publish, id, last, at),
            Err(refused) => Err(refused),
        }
    }

    /// A publish of QoS 1 or 2 is stored as it is, or waits until its id is free.
    #[tactic(auto, unfolding(crate::specs::Requests::on_request))]
    pub(super) fn own_out(&mut self, publish: Publish, at: u64) -> Result<Reply, StateError>
        requires { publish.qos ≢ AtMostOnce }
        ensures { Sends (in_full result self.new) self.old self.new
            (on_request self.old (Request.Publish publish) at) }
    {
        let mut publish = publish;
        let (id, last) = self.take_id(publish.pkid);
        publish.pkid = id;
        self.own_named(publish, last, at)
    }

    /// The same of one that has its id.
    fn own_named(&mut self, publish: Publish, last: u16, at: u64) -> Result<Reply, StateError>
        requires id { 0 < publish.pkid }
        requires last { last < self.old.core.limit }
        requires counted { publish.qos ≢ AtMostOnce }
        ensures { Sends (in_full result self.new) self.old self.new
            (out_identified self.old publish last at) }
    {
        let id = publish.pkid;
        match self.is_free_for(id, &publish) {
            Ok(true) => Ok(Reply::Publish(self.store_own(publish, last, at)?)),
            Ok(false) => self.park_own(publish, last, at),
            Err(refused) => {
                drop(publish);
                Err(refused)
            }
        }
    }

    /// Stores a publish under its id, which is free, and answers the id.
    fn store_own(&mut self, publish: Publish, last: u16, at: u64) -> Result<u16, AllocError>
        requires low { 0 < publish.pkid }
        requires high { publish.pkid ≤ self.old.core.limit }
        requires counted { publish.qos ≢ AtMostOnce }
        requires last { last < self.old.core.limit }
        ensures id { IfOk result (λ id. id ≡ publish.pkid) }
        ensures ok { OnOk result (self.new ≡ with_stored self.old publish last at) }
        ensures err { OnErr result (self.new ≡ self.old) }
    {
        let id = publish.pkid;
        if let Err(refused) = self.events.reserve(1) {
            drop(publish);
            return Err(refused);
        }
        self.slots.insert(id, Slot::Sent(publish))?;
        self.events
            .push_back_reserved(Event::Outgoing(Outgoing::Publish(id)));
        self.last_pkid = last;
        self.last_outgoing = at;
        Ok(id)
    }

    /// Keeps a publish until its id is free.
    #[inline(never)]
    fn park_own(&mut self, publish: Publish, last: u16, at: u64) -> Result<Reply, StateError>
        requires last { last < self.old.core.limit }
        requires counted { publish.qos ≢ AtMostOnce }
        ensures { Sends (in_full result self.new) self.old self.new
            (Ok None, awaits self.old publish last at) }
    {
        self.park_publish(publish, last, at)?;
        Ok(Reply::Nothing)
    }

    /// Keeps a copy of a publish until its id is free.
    #[inline(never)]
    fn keep_copy(
        &mut self,
        publish: &Publish,
        id: u16,
        last: u16,
        at: u64,
    ) -> Result<Reply, StateError>
        requires last { last < self.old.core.limit }
        requires counted { publish.now.qos ≢ AtMostOnce }
        ensures { Sends (in_full result self.new) self.old self.new
            (Ok None, awaits self.old (record publish.now { pkid = id }) last at) }
    {
        let mut copy = copied(publish)?;
        copy.pkid = id;
        self.park_publish(copy, last, at)?;
        Ok(Reply::Nothing)
    }

    /// Whether the id of a publish is free; where it isn't, nothing waits. Takes no memory.
    fn is_free_for(&self, id: u16, publish: &Publish) -> Result<bool, StateError>
        ensures judged { IfOk result
            (λ free. verdict_of self.now.core (record publish.now { pkid = id })
            ≡ cond free Verdict.Store Verdict.Wait) }
        ensures high { IsOk result → id ≤ self.now.core.limit }
        ensures err { IfErr result (λ e. verdict_of self.now.core (record publish.now { pkid = id })
            ≡ Verdict.Refuse e) }
    {
        if id > self.slots.limit() {
            return Err(StateError::Unsolicited(id));
        }
        let max = self.alias_max;
        if let Some(alias) = alias_over(publish, max) {
            return Err(StateError::InvalidAlias { alias, max });
        }
        if !self.slots.contains(id) {
            return Ok(true);
        }
        if self.waiting.is_some() {
            return Err(StateError::InvalidState);
        }
        Ok(false)
    }

    /// Stores a copy of a publish under an id, which is free.
    fn store(&mut self, publish: &Publish, id: u16, last: u16, at: u64) -> Result<(), AllocError>
        requires low { 0 < id }
        requires high { id ≤ self.old.core.limit }
        requires counted { publish.now.qos ≢ AtMostOnce }
        requires last { last < self.old.core.limit }
        ensures ok { OnOk result
            (self.new ≡ with_stored self.old (record publish.now { pkid = id }) last at) }
        ensures err { OnErr result (self.new ≡ self.old) }
    {
        self.events.reserve(1)?;
        self.slots.insert_copy(id, publish)?;
        self.events
            .push_back_reserved(Event::Outgoing(Outgoing::Publish(id)));
        self.last_pkid = last;
        self.last_outgoing = at;
        Ok(())
    }

    /// A publish that has to wait until its id is free.
    pub(super) fn send_waiting(
        &mut self,
        mut publish: Publish,
        at: u64,
    ) -> Result<Option<Packet>, StateError>
        requires { IsLeft (Request.Publish publish) self.old }
        ensures { Sends result self.old self.new (out_publish publish.qos self.old publish at) }
    {
        let (id, last) = self.take_id(publish.pkid);
        publish.pkid = id;
        self.park_publish(publish, last, at)?;
        Ok(None)
    }

    /// Keeps a publish until its id is free.
    fn park_publish(&mut self, publish: Publish, last: u16, at: u64) -> Result<(), AllocError>
        requires last { last < self.old.core.limit }
        requires counted { publish.qos ≢ AtMostOnce }
        ensures ok { OnOk result (self.new ≡ awaits self.old publish last at) }
        ensures err { OnErr result (self.new ≡ self.old) }
    {
        if let Err(refused) = self.events.reserve(1) {
            drop(publish);
            return Err(refused);
        }
        self.events
            .push_back_reserved(Event::Outgoing(Outgoing::AwaitAck(publish.pkid)));
        self.waiting = Some(publish);
        self.last_pkid = last;
        self.last_outgoing = at;
        Ok(())
    }

    pub(super) fn send_pubrel(&mut self, id: u16, at: u64) -> Result<Option<Packet>, StateError>
        ensures { Sends result self.old self.new
            (out_release self.old (id_for self.old.core id) (last_after self.old.core id) at) }
    {
        let (id, last) = self.take_id(id);
        if id > self.slots.limit() {
            return Err(StateError::Unsolicited(id));
        }
        if self.slots.sent(id).is_some() {
            return Err(StateError::InvalidState);
        }
        self.events.reserve(1)?;
        self.slots.insert(id, Slot::Released)?;
        self.events
            .push_back_reserved(Event::Outgoing(Outgoing::PubRel(id)));
        self.last_pkid = last;
        self.last_outgoing = at;
        Ok(Some(as_release(id)))
    }

    pub(super) fn send_subscribe(
        &mut self,
        mut subscribe: Subscribe,
        at: u64,
    ) -> Result<Option<Packet>, StateError>
        ensures { Sends result self.old self.new (out_subscribe self.old subscribe at) }
    {
        if subscribe.filters.is_empty() {
            return Err(StateError::EmptySubscription);
        }
        let (id, last) = self.take_id(0);
        self.tell_at(Outgoing::Subscribe(id), at)?;
        self.last_pkid = last;
        subscribe.pkid = id;
        Ok(Some(as_subscribe(subscribe)))
    }

    pub(super) fn send_unsubscribe(
        &mut self,
        mut unsubscribe: Unsubscribe,
        at: u64,
    ) -> Result<Option<Packet>, StateError>
        ensures { Sends result self.old self.new (out_unsubscribe self.old unsubscribe at) }
    {
        let (id, last) = self.take_id(0);
        self.tell_at(Outgoing::Unsubscribe(id), at)?;
        self.last_pkid = last;
        unsubscribe.pkid = id;
        Ok(Some(as_unsubscribe(unsubscribe)))
    }

    #[tactic(auto, unfolding(crate::specs::Requests::on_request))]
    fn plan_ping(&mut self, at: u64) -> Result<Option<u16>, StateError>
        ensures { Plans result self.old self.new Request.PingReq at }
    {
        let count = pings_with(&self.waiting, self.collision_pings);
        if self.waiting.is_some() && count >= 2 {
            self.collision_pings = count;
            return Err(StateError::CollisionTimeout);
        }
        if self.awaits_ping {
            self.collision_pings = count;
            return Err(StateError::AwaitPingResp);
        }
        self.tell_at(Outgoing::PingReq, at)?;
        self.collision_pings = count;
        self.awaits_ping = true;
        Ok(Some(0))
    }

    pub(super) fn send_disconnect(&mut self, at: u64) -> Result<Option<Packet>, StateError>
        ensures { Sends result self.old self.new (
          Ok (Some (disconnect_of DisconnectReasonCode.NormalDisconnection)),
          with_event_at
              self.old Outgoing.Disconnect at,
        ) }
    {
        self.tell_at(Outgoing::Disconnect, at)?;
        Ok(Some(as_disconnect(DisconnectReasonCode::NormalDisconnection)))
    }

    pub(super) fn send_reason(
        &mut self,
        disconnect: Disconnect,
        at: u64,
    ) -> Result<Option<Packet>, StateError>
        ensures { Sends result self.old self.new (out_disconnect self.old disconnect at) }
    {
        if !may_leave_for(disconnect.reason_code) {
            return Err(StateError::InvalidState);
        }
        self.tell_at(Outgoing::Disconnect, at)?;
        Ok(Some(disconnect_packet(disconnect)))
    }

    pub(super) fn send_auth(&mut self, auth: Auth, at: u64) -> Result<Option<Packet>, StateError>
        ensures { Sends result self.old self.new (out_auth self.old auth at) }
    {
        if !may_answer_with(&auth.code) || !names_method(&auth.properties) {
            return Err(StateError::InvalidState);
        }
        self.tell_at(Outgoing::Auth, at)?;
        Ok(Some(as_auth(auth)))
    }

    pub(super) fn send_puback(&mut self, ack: PubAck, at: u64) -> Result<Option<Packet>, StateError>
        ensures { Sends result self.old self.new
            (Ok (Some (Packet.PubAck ack)), with_event_at self.old (Outgoing.PubAck ack.pkid) at) }
    {
        self.tell_at(Outgoing::PubAck(ack.pkid), at)?;
        Ok(Some(as_puback(ack)))
    }

    pub(super) fn send_pubrec(&mut self, ack: PubRec, at: u64) -> Result<Option<Packet>, StateError>
        ensures { Sends result self.old self.new
            (Ok (Some (Packet.PubRec ack)), with_event_at self.old (Outgoing.PubRec ack.pkid) at) }
    {
        self.tell_at(Outgoing::PubRec(ack.pkid), at)?;
        Ok(Some(as_pubrec(ack)))
    }
}

/// The pings that were asked for while a publish waits, with one more.
fn pings_with(waiting: &Option<Publish>, count: usize) -> usize
    ensures { result ≡ pings_with waiting.now count }
{
    match waiting {
        Some(_) => count.saturating_add(1),
        None => count,
    }
}

/// Whether a client may end the connection for this reason.
fn may_leave_for(reason: DisconnectReasonCode) -> bool
    ensures { result ≡ may_leave_for reason }
{
    matches!(
        reason,
        DisconnectReasonCode::NormalDisconnection
            | DisconnectReasonCode::DisconnectWithWillMessage
            | DisconnectReasonCode::UnspecifiedError
            | DisconnectReasonCode::MalformedPacket
            | DisconnectReasonCode::ProtocolError
            | DisconnectReasonCode::ImplementationSpecificError
            | DisconnectReasonCode::TopicNameInvalid
            | DisconnectReasonCode::ReceiveMaximumExceeded
            | DisconnectReasonCode::TopicAliasInvalid
            | DisconnectReasonCode::PacketTooLarge
            | DisconnectReasonCode::MessageRateTooHigh
            | DisconnectReasonCode::QuotaExceeded
            | DisconnectReasonCode::AdministrativeAction
            | DisconnectReasonCode::PayloadFormatInvalid
            | DisconnectReasonCode::ConnectionRateExceeded
    )
}

/// Whether a client may say this of the exchange of authentication data.
fn may_answer_with(code: &AuthReasonCode) -> bool
    ensures { result ≡ may_answer_with code.now }
{
    !matches!(code, AuthReasonCode::Success)
}

/// Whether the method of authentication is named.
fn names_method(properties: &Option<AuthProperties>) -> bool
    ensures { result ≡ names_method properties.now }
{
    match properties {
        Some(set) => set.method.is_some(),
        None => false,
    }
}
