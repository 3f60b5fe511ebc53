//! Calls that judge topics and topic filters. They need no client.

ghost use Rattle.std.specs.Prelude.{◌≡◌, true, false, IfSome, IsNone};
ghost use Rattle.mqtt5_base.specs.Grammar.{is_among};
ghost use Rattle.mqtt5_c.specs.Topics.{IsTopicName, IsTopic, IsTopicFilter, Matches};

use mqtt5_base::{matches, valid_filter, valid_topic};

/// Whether a text has U+0000.
fn has_nul(text: &str) -> bool
    ensures { result ≡ is_among text.now 0 }
{
    text.contains('\0')
}

/// A topic without wildcards.
pub(crate) fn topic_name(bytes: &[u8]) -> Option<&str>
    ensures some { IfSome result (λ t. (t.now ≡ bytes.now) × IsTopicName bytes.now) }
    ensures none { IsNone result → ¬ (IsTopicName bytes.now) }
{
    let Ok(text) = std::str::from_utf8(bytes) else {
        return None;
    };
    if !has_nul(text) && valid_topic(text) {
        Some(text)
    } else {
        None
    }
}

/// A topic without wildcards that isn't empty.
pub(crate) fn nonempty_topic(bytes: &[u8]) -> Option<&str>
    ensures some { IfSome result (λ t. (t.now ≡ bytes.now) × IsTopic bytes.now) }
    ensures none { IsNone result → ¬ (IsTopic bytes.now) }
{
    let Some(text) = topic_name(bytes) else {
        return None;
    };
    if text.is_empty() { None } else { Some(text) }
}

/// A topic filter.
pub(crate) fn topic_filter(bytes: &[u8]) -> Option<&str>
    ensures some { IfSome result (λ t. (t.now ≡ bytes.now) × IsTopicFilter bytes.now) }
    ensures none { IsNone result → ¬ (IsTopicFilter bytes.now) }
{
    let Ok(text) = std::str::from_utf8(bytes) else {
        return None;
    };
    if !has_nul(text) && valid_filter(text) {
        Some(text)
    } else {
        None
    }
}

/// Whether bytes can be the topic of a publish (MQTT 5.0 section 4.7): they are UTF-8, not empty, and have neither U+0000 nor
/// a wildcard.
#[unsafe(no_mangle)]
pub extern "C" fn mqtt5_valid_topic(topic: &[u8]) -> bool
    ensures yes { result ≡ true → IsTopic topic.now }
    ensures no { result ≡ false → ¬ (IsTopic topic.now) }
{
    match nonempty_topic(topic) {
        Some(_topic) => true,
        None => false,
    }
}

/// Whether bytes can be a topic filter (MQTT 5.0 section 4.7): they are UTF-8, not empty, have no U+0000, each wildcard is all
/// of its level, and a `#` stands in the last level alone.
#[unsafe(no_mangle)]
pub extern "C" fn mqtt5_valid_filter(filter: &[u8]) -> bool
    ensures yes { result ≡ true → IsTopicFilter filter.now }
    ensures no { result ≡ false → ¬ (IsTopicFilter filter.now) }
{
    match topic_filter(filter) {
        Some(_filter) => true,
        None => false,
    }
}

/// Whether a topic matches a topic filter (MQTT 5.0 section 4.7); false where one isn't UTF-8. A topic that starts with `$`
/// matches none.
#[unsafe(no_mangle)]
pub extern "C" fn mqtt5_topic_matches(topic: &[u8], filter: &[u8]) -> bool
    ensures yes { result ≡ true → Matches topic.now filter.now }
    ensures no { result ≡ false → ¬ (Matches topic.now filter.now) }
{
    let Ok(topic) = std::str::from_utf8(topic) else {
        return false;
    };
    let Ok(filter) = std::str::from_utf8(filter) else {
        return false;
    };
    matches(topic, filter)
}
