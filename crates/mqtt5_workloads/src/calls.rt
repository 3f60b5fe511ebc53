//! The calls of a client, as an event loop makes them.

use crate::digest::Digest;
use mqtt5_client::{Client, Request, StateError};

/// Hands bytes in, and takes out what is to be sent. The guard shows the call what it asks for.
pub fn hand_in(client: &mut Client, bytes: &[u8], digest: &mut Digest) -> Result<(), StateError> {
    if !client.needs_more() {
        return Err(StateError::InvalidState);
    }
    client.receive(bytes, 2)?;
    send_out(client, digest);
    Ok(())
}

/// Asks for a request.
pub fn ask(client: &mut Client, request: Request) -> Result<(), StateError> {
    if !client.needs_more() {
        return Err(StateError::InvalidState);
    }
    client.request(request, 1)
}

/// Takes out what is to be sent.
pub fn send_out(client: &mut Client, digest: &mut Digest) {
    digest.add_bytes(client.output());
    let count = client.output().len();
    client.sent(count);
}

fn take_event(client: &mut Client, digest: &mut Digest) {
    if let Some(event) = client.next_event() {
        digest.add_event(&event);
    }
}

/// Takes all events out.
pub fn take_events(client: &mut Client, digest: &mut Digest) {
    let count = client.state.events().len();
    for _ in 0..count {
        take_event(client, digest);
    }
}

/// Hands bytes in by pieces of this length, and takes out what each piece brings.
pub fn hand_in_pieces(
    client: &mut Client,
    bytes: &[u8],
    piece: usize,
    digest: &mut Digest,
) -> Result<(), StateError> {
    for part in bytes.chunks(piece.max(1)) {
        hand_in(client, part, digest)?;
        take_events(client, digest);
    }
    Ok(())
}
