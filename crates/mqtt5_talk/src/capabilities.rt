//! What the broker takes, as its ConnAck says.

ghost use Rattle.std.specs.Prelude.{◌≡◌, IfErr, None, Some, All, OnOk};
ghost use Rattle.mqtt5_talk.specs.Capabilities.{capabilities_of, is_available, is_over, is_shared, forbidden_message, forbidden_filter, forbidden_identifier, IsPermitted, ForbidsSubscribe};

use mqtt5_base::has_wildcards;
use mqtt5_control::{ConnAck, ConnAckProperties};
use mqtt5_publish::Publish;
use mqtt5_subscribe::{Subscribe, SubscribeProperties};

/// What the broker takes, as its ConnAck says: all of which that says nothing (MQTT 5.0 section 3.2.2.3).
#[derive(Debug, Clone, Copy, PartialEq, Eq)]
pub struct Capabilities {
    /// The greatest QoS of a message, where there is one (3.2.2.3.4).
    pub max_qos: Option<u8>,
    /// Whether it retains messages (3.2.2.3.5).
    pub retain: bool,
    /// Whether filters may have wildcards (3.2.2.3.11).
    pub wildcards: bool,
    /// Whether subscriptions may have identifiers (3.2.2.3.12).
    pub identifiers: bool,
    /// Whether subscriptions may be shared (3.2.2.3.13).
    pub shared: bool,
    /// The keep alive that takes the place of the client's, in seconds, where there is one (3.2.2.3.14).
    pub keep_alive: Option<u16>,
}

/// What the broker doesn't take, as its ConnAck says.
#[derive(Debug, Clone, Copy, PartialEq, Eq, Drop, thiserror::Error)]
pub enum Forbidden {
    /// A message of this QoS.
    #[error("message of QoS {0}")]
    QoS(u8),
    #[error("retained message")]
    Retain,
    #[error("filter with a wildcard")]
    Wildcard,
    #[error("shared subscription")]
    Shared,
    #[error("subscription identifier")]
    Identifier,
}

impl Capabilities {
    /// What a ConnAck says.
    pub fn of(ack: &ConnAck) -> Capabilities
        ensures { result ≡ capabilities_of ack.now.properties }
    {
        match &ack.properties {
            Some(set) => Capabilities::of_properties(set),
            None => Capabilities {
                max_qos: None,
                retain: true,
                wildcards: true,
                identifiers: true,
                shared: true,
                keep_alive: None,
            },
        }
    }

    fn of_properties(set: &ConnAckProperties) -> Capabilities
        ensures { result ≡ capabilities_of (Some set.now) }
    {
        Capabilities {
            max_qos: set.max_qos,
            retain: is_available(set.retain_available),
            wildcards: is_available(set.wildcard_subscription_available),
            identifiers: is_available(set.subscription_identifiers_available),
            shared: is_available(set.shared_subscription_available),
            keep_alive: set.server_keep_alive,
        }
    }

    /// Why a message may not be sent, where it may not.
    pub fn forbidden_message(self, message: &Publish) -> Option<Forbidden>
        ensures { result ≡ forbidden_message self message.now }
    {
        let quality = message.qos as u8;
        if is_over(quality, self.max_qos) {
            return Some(Forbidden::QoS(quality));
        }
        if message.retain && !self.retain {
            return Some(Forbidden::Retain);
        }
        None
    }

    /// Refuses subscriptions that may not be asked for: `Wildcard`, `Shared`, `Identifier`.
    pub fn check_subscribe(self, subscribe: &Subscribe) -> Result<(), Forbidden>
        ensures permitted { OnOk result (IsPermitted self subscribe.now) }
        ensures forbidden { IfErr result (ForbidsSubscribe self subscribe.now) }
    {
        self.check_filters(subscribe)?;
        match self.forbidden_identifier(&subscribe.properties) {
            Some(why) => Err(why),
            None => Ok(()),
        }
    }

    fn check_filters(self, subscribe: &Subscribe) -> Result<(), Forbidden>
        ensures permitted { OnOk result
            (All (λ f. forbidden_filter self f.path.bytes ≡ None) subscribe.now.filters) }
        ensures forbidden { IfErr result (ForbidsSubscribe self subscribe.now) }
    {
        for filter in subscribe.filters.as_slice() {
            if let Some(why) = self.forbidden_filter(filter.path.as_str()) {
                return Err(why);
            }
        }
        Ok(())
    }

    fn forbidden_filter(self, path: &str) -> Option<Forbidden>
        ensures { result ≡ forbidden_filter self path.now }
    {
        if has_wildcards(path) && !self.wildcards {
            return Some(Forbidden::Wildcard);
        }
        if is_shared(path) && !self.shared {
            return Some(Forbidden::Shared);
        }
        None
    }

    fn forbidden_identifier(self, properties: &Option<SubscribeProperties>) -> Option<Forbidden>
        ensures { result ≡ forbidden_identifier self properties.now }
    {
        match properties {
            Some(set) if set.id.is_some() && !self.identifiers => Some(Forbidden::Identifier),
            _other => None,
        }
    }
}

/// Whether an option says that something is there, or nothing.
fn is_available(option: Option<u8>) -> bool
    ensures { result ≡ is_available option }
{
    match option {
        Some(0) => false,
        _other => true,
    }
}

fn is_over(quality: u8, max: Option<u8>) -> bool
    ensures { result ≡ is_over max quality }
{
    match max {
        Some(max) => quality > max,
        None => false,
    }
}

/// Whether a filter is that of a shared subscription (4.8.2).
fn is_shared(path: &str) -> bool
    ensures { result ≡ is_shared path.now }
{
    path.as_bytes().starts_with("$share/".as_bytes())
}
