//! What the talks have alike that keep their session.

ghost use Rattle.std.specs.Prelude.{◌≡◌, OnOk};
ghost use Rattle.mqtt5_client.specs.Client.{IsReady};

use mqtt5_client::{Client, Event, Request};
use mqtt5_codec::Packet;
use mqtt5_pipe::PipeError;
use mqtt5_talk::{TalkError, hand_in};
use std::io::{ErrorKind, Read};

/// How many bytes are read at once.
const ROOM: usize = 8192;

/// Takes the session up once the ConnAck came: what awaits an ack goes to the output. Answers how many messages and releases are
/// let go, since the broker has the session no more, or takes none of their length. `Failed`, as of `Client::take_up`.
pub(super) fn take_up(client: &mut Client) -> Result<u64, TalkError>
    requires { IsReady client.old }
    ensures ready { IsReady client.new }
{
    let is_present = take_answer(client);
    match client.take_up(is_present, 0) {
        Ok(given) => Ok(given.len() as u64),
        Err(fault) => Err(TalkError::from(PipeError::from(fault))),
    }
}

/// Takes all events out, and answers whether a ConnAck among them says that the broker has the session.
fn take_answer(client: &mut Client) -> bool
    ensures ready { IsReady client.old → IsReady client.new }
{
    let mut is_present = false;
    for _ in 0..u64::MAX {
        match client.next_event() {
            Some(Event::Incoming(Packet::ConnAck(ack))) => {
                is_present = ack.session_present;
                drop(ack);
            }
            Some(other) => drop(other),
            None => break,
        }
    }
    is_present
}

/// Reads once, and has what came taken: what is answered stays in the output. With `pings` a PingReq is put there where it read
/// in vain for as long as the reader waits. `Closed` at the end of the stream, `Ended`; `Failed` of a read, of what came, and of
/// a ping whose last one isn't answered.
pub(super) fn hear<R: Read>(
    client: &mut Client,
    pings: bool,
    reader: &mut R,
) -> Result<(), TalkError>
    requires { IsReady client.old }
    ensures ready { IsReady client.new }
{
    let mut room = [0; ROOM];
    match reader.read(&mut room) {
        Ok(0) => Err(TalkError::Closed),
        Ok(count) => take_piece(client, &room[..count]),
        Err(error) if error.kind() == ErrorKind::Interrupted => Ok(()),
        Err(error) if pings && error.kind() == ErrorKind::WouldBlock => {
            hand_in(client, Request::PingReq)
        }
        Err(error) => Err(TalkError::Failed(PipeError::Read(error))),
    }
}

fn take_piece(client: &mut Client, bytes: &[u8]) -> Result<(), TalkError>
    requires { IsReady client.old }
    ensures ready { IsReady client.new }
{
    match client.receive(bytes, 0) {
        Ok(()) => Ok(()),
        Err(fault) => Err(TalkError::from(PipeError::from(fault))),
    }
}
