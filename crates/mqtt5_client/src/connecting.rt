//! The Connect of a client's settings.

ghost use Rattle.std.specs.Prelude.{◌≡◌, ◌/◌, min};
ghost use Rattle.std.specs.Duration.{as_nanos};
ghost use Rattle.mqtt5_base.specs.Answers.{Answers};
ghost use Rattle.mqtt5_options.specs.Options.{properties_of};
ghost use Rattle.mqtt5_client.specs.Connecting.{connect_of, connect_packet, incoming_limit, FramesConnect};

use bytes::BytesMut;
use mqtt5_base::Error;
use mqtt5_codec::{Codec, Packet};
use mqtt5_connect::{Connect, LastWill, Login};
use mqtt5_options::MqttOptions;
use std::alloc::Global;
use std::time::Duration;

/// Whole seconds, at most 65,535.
fn seconds(keep_alive: Duration) -> u16
    ensures { result ≡ min (as_nanos keep_alive / 1_000_000_000) 65535 }
{
    keep_alive.as_secs().min(65535) as u16
}

/// The fields of the Connect.
fn connect_of(options: &MqttOptions) -> Result<Connect, Error>
    ensures { Answers result (connect_of options.now) }
{
    let client_id = options.client_id()?;
    let properties = options.connect_properties()?;
    Ok(Connect {
        keep_alive: seconds(options.keep_alive()),
        client_id,
        clean_start: options.clean_start(),
        properties,
    })
}

/// The will and the login.
fn parts_of(options: &MqttOptions) -> Result<(Option<LastWill>, Option<Login>), Error>
    ensures { Answers result (options.now.last_will, options.now.credentials) }
{
    let will = options.last_will()?;
    let login = options.credentials()?;
    Ok((will, login))
}

/// The packet.
fn connect_packet(options: &MqttOptions) -> Result<Packet, Error>
    ensures { Answers result (connect_packet options.now) }
{
    let (will, login) = parts_of(options)?;
    let connect = connect_of(options)?;
    Ok(Packet::Connect(connect, will, login))
}

/// The frame of a packet, by itself: the broker hasn't said a limit yet.
fn frame_of(alloc: Global, packet: &Packet) -> Result<BytesMut, Error>
    ensures { FramesConnect packet.now result }
{
    let mut frame = BytesMut::new(alloc);
    Codec::new().write(packet, &mut frame)?;
    Ok(frame)
}

/// The frame of the Connect.
pub(crate) fn connect_frame(alloc: Global, options: &MqttOptions) -> Result<BytesMut, Error>
    ensures { FramesConnect (connect_packet options.now) result }
{
    let packet = connect_packet(options)?;
    let frame = frame_of(alloc, &packet);
    drop(packet);
    frame
}

/// The longest packet that the client takes, where the settings say it.
pub(crate) fn incoming_limit(options: &MqttOptions, limit: Option<u32>) -> Option<u32>
    ensures { result ≡ incoming_limit (properties_of options.now).max_packet_size limit }
{
    match options.max_packet_size() {
        Some(size) => Some(size),
        None => limit,
    }
}
