//! A client's first message.

ghost use Rattle.std.specs.Prelude.{◌≡◌, ◌⊎◌, [], ◌∷◌, IfOk, IfErr, OnOk, OnErr};
ghost use Rattle.std.specs.FinMap as map;
ghost use Rattle.mqtt5_inflight.specs.declared.event.Request.TheVariants as requests;
ghost use Rattle.mqtt5_drive.specs.Run.{piece};
ghost use Rattle.mqtt5_client.specs.Asked.{NotAsked};
ghost use Rattle.mqtt5_client.specs.Client.{IsReady, Runs, Fails, asking, codec_since};
ghost use Rattle.mqtt5_talks.specs.First.{first_message};

use bytes::Bytes;
use mqtt5_client::{Client, Publish, QoS, Request, StateError};
use std::alloc::Global;

/// Publishes "hi" to "a/b" at QoS 1; `client.output()` is then what to send.
pub fn publish_first(alloc: Global, client: &mut Client) -> Result<(), StateError>
    requires { IsReady client.old }
    ensures asked { OnOk result
        (Runs client.old (asking 1 (requests.Publish first_message) ∷ []) [] client.new) }
    ensures err { IfErr result (λ e. (e ≡ StateError.OutOfMemory)
        ⊎ NotAsked client.old.disconnected e client.old.codec (requests.Publish first_message) 1
        client.old.state client.new.state) }
    ensures unchanged { OnErr result (client.new.state ≡ client.old.state) }
    ensures unsent { OnErr result (client.new.output.items ≡ client.old.output.items) }
    ensures over { OnErr result (client.new.disconnected ≡ client.old.disconnected) }
    ensures kept { (client.new.input.items ≡ client.old.input.items)
        × (client.new.codec ≡ client.old.codec) }
    ensures ready { IsReady client.new }
{
    let payload = Bytes::from_static(b"hi");
    let publish = Publish::new(alloc, "a/b", QoS::AtLeastOnce, payload, None)?;
    client.request(Request::Publish(publish), 1)
}

/// Takes bytes that came in, and answers how many publishes still await their acks.
pub fn hear(client: &mut Client, bytes: &[u8]) -> Result<u16, StateError>
    requires { IsReady client.old }
    ensures heard { OnOk result (Runs client.old (piece 2 bytes.now ∷ []) [] client.new) }
    ensures err { IfErr result (λ e. Fails e client.old (piece 2 bytes.now ∷ []) [] client.new) }
    ensures codec { client.new.codec ≡ codec_since client.old client.new }
    ensures lost { OnErr result (client.new.input.items ≡ []) }
    ensures over { client.new.disconnected ≡ client.old.disconnected }
    ensures awaited { IfOk result (λ count. count ≡ map.len client.new.state.core.in_use) }
    ensures ready { IsReady client.new }
{
    client.receive(bytes, 2)?;
    Ok(client.state.inflight())
}
