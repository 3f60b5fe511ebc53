//! Which publishes are routed.

ghost use Rattle.std.specs.Prelude.{◌≡◌, None, Some, IfOk, IfErr};
ghost use Rattle.broker_core.specs.Clients.{are_offered, is_offered, is_topic_text, publish_refusal};

use crate::error::BrokerError;
use mqtt5_base::{QoS, valid_topic};
use mqtt5_publish::{Publish, PublishProperties};

/// Whether the ConnAck offers what a publish asks for.
fn is_offered(publish: &Publish) -> bool
    ensures { result ≡ is_offered publish.now }
{
    publish.qos == QoS::AtMostOnce
        && !publish.dup
        && !publish.retain
        && are_offered(&publish.properties)
}

fn are_offered(properties: &Option<PublishProperties>) -> bool
    ensures { result ≡ are_offered properties.now }
{
    match properties {
        Some(set) => set.topic_alias.is_none() && set.subscription_identifiers.is_empty(),
        None => true,
    }
}

/// Whether a text can be the topic of a publish: it isn't empty, and has no wildcard.
fn is_topic(text: &str) -> bool
    ensures { result ≡ is_topic_text text.now }
{
    !text.is_empty() && valid_topic(text)
}

/// The topic of a publish that may be routed; `NotOffered`, `InvalidTopic`.
pub fn topic_of(publish: &Publish) -> Result<&str, BrokerError>
    ensures ok { IfOk result (λ topic. (publish_refusal publish.now ≡ None)
        × (topic.now ≡ publish.now.topic)) }
    ensures err { IfErr result (λ e. publish_refusal publish.now ≡ Some e) }
{
    if !is_offered(publish) {
        return Err(BrokerError::NotOffered);
    }
    match std::str::from_utf8(publish.topic.as_slice()) {
        Ok(topic) => if is_topic(topic) {
            Ok(topic)
        } else {
            Err(BrokerError::InvalidTopic)
        },
        Err(_) => Err(BrokerError::InvalidTopic),
    }
}
