//! Properties of an identifier and a value.

ghost use Rattle.std.specs.Prelude.{◌≡◌, ◌<◌, ◌⊎◌, IsNone, IfOk, IfErr, IfSome};
ghost use Rattle.std.specs.Str.{IsUtf8};
ghost use Rattle.mqtt5_base.specs.Grammar.{number, content, couple};
ghost use Rattle.mqtt5_base.specs.Items.{item_of};
ghost use Rattle.mqtt5_properties.specs.Refusals.{Refuses};
ghost use Rattle.mqtt5_properties.specs.Making.{MayBe, MayHave};

use crate::refusal::Refusal;
use bytes::Bytes;
use mqtt5_base::{Property, Text};
use std::alloc::Global;

fn byte(n: u32) -> Option<u8>
    ensures some { IfSome result (λ b. b ≡ n) }
    ensures none { IsNone result → ¬ (n < 256) }
{
    u8::try_from(n).ok()
}

fn two_bytes(n: u32) -> Option<u16>
    ensures some { IfSome result (λ b. b ≡ n) }
    ensures none { IsNone result → ¬ (n < 65536) }
{
    u16::try_from(n).ok()
}

/// A number that a variable byte integer can be.
fn short(n: u32) -> Option<usize>
    ensures some { IfSome result (λ b. b ≡ n) }
    ensures none { IsNone result → ¬ (n < 268435456) }
{
    if n < 268_435_456 {
        Some(n as usize)
    } else {
        None
    }
}

/// The property with this identifier and this number; None where there is no such property. Takes no memory.
pub fn number_property(id: u32, n: u32) -> Option<Property>
    ensures item { IfSome result (λ p. item_of p ≡ (id, number n)) }
    ensures none { IsNone result → ¬ (MayBe id n) }
{
    Some(match id {
        1 => Property::PayloadFormatIndicator(byte(n)?),
        2 => Property::MessageExpiryInterval(n),
        11 => Property::SubscriptionIdentifier(short(n)?),
        17 => Property::SessionExpiryInterval(n),
        19 => Property::ServerKeepAlive(two_bytes(n)?),
        23 => Property::RequestProblemInformation(byte(n)?),
        24 => Property::WillDelayInterval(n),
        25 => Property::RequestResponseInformation(byte(n)?),
        33 => Property::ReceiveMaximum(two_bytes(n)?),
        34 => Property::TopicAliasMaximum(two_bytes(n)?),
        35 => Property::TopicAlias(two_bytes(n)?),
        36 => Property::MaximumQos(byte(n)?),
        37 => Property::RetainAvailable(byte(n)?),
        39 => Property::MaximumPacketSize(n),
        40 => Property::WildcardSubscriptionAvailable(byte(n)?),
        41 => Property::SubscriptionIdentifierAvailable(byte(n)?),
        42 => Property::SharedSubscriptionAvailable(byte(n)?),
        _ => return None,
    })
}

fn text(alloc: Global, bytes: &[u8]) -> Result<Text, Refusal>
    ensures ok { IfOk result (λ t. t.bytes ≡ bytes.now) }
    ensures err { IfErr result (Refuses (¬ (IsUtf8 bytes.now))) }
{
    let Ok(text) = std::str::from_utf8(bytes) else {
        return Err(Refusal::NotTaken);
    };
    Ok(Text::from_str(alloc, text)?)
}

fn data_of(alloc: Global, bytes: &[u8]) -> Result<Bytes, Refusal>
    ensures ok { IfOk result (λ b. b ≡ bytes.now) }
    ensures err { IfErr result (λ e. e ≡ Refusal.OutOfMemory) }
{
    Ok(Bytes::copy_from_slice(alloc, bytes)?)
}

/// The property with this identifier and these bytes, a text or binary data. NotTaken where there is no such
/// property, or a text isn't UTF-8.
pub fn bytes_property(alloc: Global, id: u32, bytes: &[u8]) -> Result<Property, Refusal>
    ensures ok { IfOk result (λ p. item_of p ≡ (id, content bytes.now)) }
    ensures err { IfErr result (Refuses (¬ (MayHave id bytes.now))) }
{
    Ok(match id {
        3 => Property::ContentType(text(alloc, bytes)?),
        8 => Property::ResponseTopic(text(alloc, bytes)?),
        9 => Property::CorrelationData(data_of(alloc, bytes)?),
        18 => Property::AssignedClientIdentifier(text(alloc, bytes)?),
        21 => Property::AuthenticationMethod(text(alloc, bytes)?),
        22 => Property::AuthenticationData(data_of(alloc, bytes)?),
        26 => Property::ResponseInformation(text(alloc, bytes)?),
        28 => Property::ServerReference(text(alloc, bytes)?),
        31 => Property::ReasonString(text(alloc, bytes)?),
        _ => return Err(Refusal::NotTaken),
    })
}

/// The user property of this name and this value. NotTaken where they aren't UTF-8.
pub fn user_property(alloc: Global, name: &[u8], value: &[u8]) -> Result<Property, Refusal>
    ensures ok { IfOk result (λ p. item_of p ≡ (38, couple name.now value.now)) }
    ensures err { IfErr result (Refuses (¬ (IsUtf8 name.now) ⊎ ¬ (IsUtf8 value.now))) }
{
    let name = text(alloc, name)?;
    let value = text(alloc, value)?;
    Ok(Property::UserProperty(name, value))
}
