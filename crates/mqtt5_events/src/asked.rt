//! What a request says: the properties of the Publish that it asks for.

ghost use Rattle.std.specs.Prelude.{◌≡◌, option_copied};
ghost use Rattle.mqtt5_events.specs.Properties.{number_asked, content_asked, pairs_asked};

use crate::contents::publish_content;
use crate::lists::publish_pairs;
use crate::numbers::publish_number;
use mqtt5_base::Text;
use mqtt5_inflight::Request;

/// The number of the property with this identifier (MQTT 5.0 section 2.2.2.2) of a Publish that is asked for; None where it
/// has none, and of another request. Takes no memory.
pub fn number_asked(request: &Request, id: u32) -> Option<u32>
    ensures { result ≡ number_asked request.now id }
{
    match request {
        Request::Publish(publish) => publish_number(&publish.properties, id),
        _other => None,
    }
}

/// The bytes of the property with this identifier of a Publish that is asked for, a text or binary data; None where it has
/// none, and of another request. Takes no memory.
pub fn content_asked(request: &Request, id: u32) -> Option<&[u8]>
    ensures { option_copied result ≡ content_asked request.now id }
{
    match request {
        Request::Publish(publish) => publish_content(&publish.properties, id),
        _other => None,
    }
}

/// The user properties of a Publish that is asked for, in their order; none of another request. Takes no memory.
pub fn pairs_asked(request: &Request) -> &[(Text, Text)]
    ensures { result.now ≡ pairs_asked request.now }
{
    match request {
        Request::Publish(publish) => publish_pairs(&publish.properties),
        _other => &[],
    }
}
