//! The property set of a packet that properties give.

ghost use Rattle.std.specs.Prelude.{◌≡◌, None, IfOk, IfErr};
ghost use Rattle.mqtt5_base.specs.Items.{item_of};
ghost use Rattle.mqtt5_properties.specs.Refusals.{Refuses};
ghost use Rattle.mqtt5_properties.specs.Gathering.{with_property, with_all, gathered, IsSet, Adds};

use crate::refusal::Refusal;
use mqtt5_base::{Property, PropertySet, Sequence};
use std::alloc::Global;

/// A property's identifier.
fn identifier(property: &Property) -> u8
    ensures { result ≡ (item_of property.now).0 }
{
    match property {
        Property::PayloadFormatIndicator(_) => 1,
        Property::MessageExpiryInterval(_) => 2,
        Property::ContentType(_) => 3,
        Property::ResponseTopic(_) => 8,
        Property::CorrelationData(_) => 9,
        Property::SubscriptionIdentifier(_) => 11,
        Property::SessionExpiryInterval(_) => 17,
        Property::AssignedClientIdentifier(_) => 18,
        Property::ServerKeepAlive(_) => 19,
        Property::AuthenticationMethod(_) => 21,
        Property::AuthenticationData(_) => 22,
        Property::RequestProblemInformation(_) => 23,
        Property::WillDelayInterval(_) => 24,
        Property::RequestResponseInformation(_) => 25,
        Property::ResponseInformation(_) => 26,
        Property::ServerReference(_) => 28,
        Property::ReasonString(_) => 31,
        Property::ReceiveMaximum(_) => 33,
        Property::TopicAliasMaximum(_) => 34,
        Property::TopicAlias(_) => 35,
        Property::MaximumQos(_) => 36,
        Property::RetainAvailable(_) => 37,
        Property::UserProperty(_, _) => 38,
        Property::MaximumPacketSize(_) => 39,
        Property::WildcardSubscriptionAvailable(_) => 40,
        Property::SubscriptionIdentifierAvailable(_) => 41,
        Property::SharedSubscriptionAvailable(_) => 42,
    }
}

/// Adds a property to a set that may have it.
fn add_one<P: PropertySet>(set: &mut P, property: Property) -> Result<(), Refusal>
    ensures { Adds (with_property P.table property (P.found set.old)) result (P.found set.new) }
{
    let id = identifier(&property);
    if !P::may_have(id) {
        return Err(Refusal::NotTaken);
    }
    set.add(property)?;
    Ok(())
}

/// Adds properties, in their order.
fn add_all<P: PropertySet>(set: &mut P, properties: Vec<Property>) -> Result<(), Refusal>
    ensures { Adds (with_all P.table properties.items (P.found set.old)) result (P.found set.new) }
{
    for property in properties {
        add_one(set, property)?;
    }
    Ok(())
}

/// The set that properties give, in their order: of one that may stand once the last counts. None of no properties.
/// NotTaken where the packet can't have one of them.
pub fn set_of<P: PropertySet>(
    alloc: Global,
    properties: Sequence<Property>,
) -> Result<Option<P>, Refusal>
    ensures ok { IfOk result (IsSet P.found P.table properties) }
    ensures err { IfErr result (Refuses (gathered P.table properties ≡ None)) }
{
    if properties.is_empty() {
        return Ok(None);
    }
    let mut set = P::empty(alloc);
    add_all(&mut set, properties.into_vec())?;
    Ok(Some(set))
}
