//! A session that is saved and loaded, byte for byte.

use bytes::{Bytes, BytesMut};
use mqtt5_base::QoS;
use mqtt5_codec::Packet;
use mqtt5_publish::Publish;
use mqtt5_session::{MqttState, Request, StateError};
use mqtt5_store::{StoreError, load, save};
use std::alloc::{AllocError, Global};
use std::test::Fail;

/// Limit and current maximum 10, last id 1, one frame: a publish of QoS 1 with dup (MQTT 5.0 section 3.3).
const SAVED: &[u8] = &[
    0x4D, 0x51, 0x35, 0x53, 0, 1, 0, 10, 0, 10, 0, 1, 0, 0, 0, 0, 0, 0, 0, 0, 0, 0, 0, 0, 0, 1,
    0x3A, 9, 0, 3, b'a', b'/', b'b', 0, 1, 0, b'x',
];

/// Limit 3, current maximum 2, last id 1, at most 5 topic aliases, a publish of QoS 1 that waits, and three frames: a publish
/// of QoS 2 under id 1 with dup, the release of id 2 (section 3.6), and id 7 of the broker's (section 3.5).
const ALL_PARTS: &[u8] = &[
    0x4D, 0x51, 0x35, 0x53, 0, 1, 0, 3, 0, 2, 0, 1, 0, 5, 0, 0, 0, 1, 0, 0, 0, 0, 0, 0, 0, 3, 0x32,
    9, 0, 3, b'a', b'/', b'b', 0, 1, 0, b'w', 0x3C, 9, 0, 3, b'a', b'/', b'b', 0, 1, 0, b'x', 0x62,
    2, 0, 2, 0x50, 2, 0, 7,
];

/// Asks a session for a publish to "a/b".
fn publishes(
    alloc: Global,
    state: &mut MqttState,
    qos: QoS,
    payload: &[u8],
) -> Result<(), StateError> {
    let payload = Bytes::copy_from_slice(alloc, payload)?;
    let publish = Publish::new(alloc, "a/b", qos, payload, None)?;
    let reply = state.handle_outgoing_packet(Request::Publish(publish), 7)?;
    drop(reply);
    Ok(())
}

/// Gives a session a packet of the broker.
fn hears(alloc: Global, state: &mut MqttState, frame: &[u8]) -> Result<(), StateError> {
    let mut stream = BytesMut::copy_from_slice(alloc, frame)?;
    let packet = Packet::read(alloc, &mut stream, None)?;
    drop(stream);
    let reply = state.handle_incoming_packet(packet, 8)?;
    drop(reply);
    Ok(())
}

fn forgets_events(state: &mut MqttState) {
    for _ in 0..100 {
        let event = state.pop_event();
        drop(event);
    }
}

/// A session that sent one publish.
fn sent(alloc: Global) -> Result<MqttState, StateError> {
    let mut state = MqttState::new(alloc, 10, false)?;
    publishes(alloc, &mut state, QoS::AtLeastOnce, b"x")?;
    Ok(state)
}

/// One with a publish and a release that await their acks, a publish that waits, and an id of the broker's.
fn busy(alloc: Global) -> Result<MqttState, StateError> {
    let mut state = MqttState::new(alloc, 3, false)?;
    // A ConnAck with a receive maximum of 2 and a topic alias maximum of 5 (3.2.2.3).
    hears(
        alloc,
        &mut state,
        &[0x20, 9, 0, 0, 6, 0x21, 0, 2, 0x22, 0, 5],
    )?;
    publishes(alloc, &mut state, QoS::ExactlyOnce, b"x")?;
    publishes(alloc, &mut state, QoS::ExactlyOnce, b"y")?;
    hears(alloc, &mut state, &[0x50, 2, 0, 2])?;
    publishes(alloc, &mut state, QoS::AtLeastOnce, b"w")?;
    hears(alloc, &mut state, &[0x34, 7, 0, 1, b'c', 0, 7, 0, b'z'])?;
    forgets_events(&mut state);
    Ok(state)
}

/// What a loaded session says: whether it is there, or why not.
fn outcome_of(loaded: &Result<MqttState, StoreError>) -> &'static str {
    match loaded {
        Ok(_state) => "a session",
        Err(StoreError::Foreign) => "Foreign",
        Err(StoreError::Version(_)) => "Version",
        Err(StoreError::Cut(_)) => "Cut",
        Err(StoreError::Frame(_)) => "Frame",
        Err(StoreError::BadNumbers) => "BadNumbers",
        Err(StoreError::NotStored) => "NotStored",
        Err(StoreError::OutOfRange(_)) => "OutOfRange",
        Err(StoreError::Twice(_)) => "Twice",
        Err(StoreError::OutOfMemory) => "OutOfMemory",
    }
}

/// What comes of these bytes.
fn load_bytes(alloc: Global, bytes: &[u8]) -> Result<&'static str, AllocError> {
    let mut stream = BytesMut::copy_from_slice(alloc, bytes)?;
    let loaded = load(alloc, &mut stream);
    let outcome = outcome_of(&loaded);
    drop(loaded);
    Ok(outcome)
}

/// What comes of all parts with another byte at a place.
fn load_changed(alloc: Global, place: usize, byte: u8) -> Result<&'static str, AllocError> {
    let mut bytes = Vec::from_slice(alloc, ALL_PARTS)?;
    if place < bytes.len() {
        bytes[place] = byte;
    }
    load_bytes(alloc, bytes.as_slice())
}

/// Saves a session, and loads what was saved; whether that has these bytes, the same numbers, and is sent again as so many
/// packets.
fn goes_round(
    alloc: Global,
    state: &MqttState,
    wanted: &[u8],
    packets: usize,
) -> Result<bool, StateError> {
    let mut bytes = BytesMut::new(alloc);
    save(alloc, state, &mut bytes)?;
    let is_wanted = bytes.as_slice() == wanted;
    let Ok(mut loaded) = load(alloc, &mut bytes) else {
        return Ok(false);
    };
    let again = loaded.resume(9)?;
    let is_same = loaded.numbers() == state.numbers() && again.len() == packets;
    drop(again);
    drop(loaded);
    Ok(is_wanted && is_same && bytes.is_empty())
}

#[test]
fn saved_and_loaded(rt: HostRuntime) -> Result<(), Fail> {
    let mut state = sent(rt.alloc())?;
    forgets_events(&mut state);
    assert!(rt; goes_round(rt.alloc(), &state, SAVED, 1)?);
    Ok(())
}

#[test]
fn all_parts_are_stored(rt: HostRuntime) -> Result<(), Fail> {
    let state = busy(rt.alloc())?;
    assert!(rt; goes_round(rt.alloc(), &state, ALL_PARTS, 2)?);
    Ok(())
}

/// Its message would be lost.
#[test]
fn an_event_is_left(rt: HostRuntime) -> Result<(), Fail> {
    let state = sent(rt.alloc())?;
    let mut bytes = BytesMut::new(rt.alloc());
    let saved = save(rt.alloc(), &state, &mut bytes);
    assert!(rt; saved == Err(StateError::InvalidState));
    assert!(rt; bytes.is_empty());
    Ok(())
}

#[test]
fn prefixes_are_refused(rt: HostRuntime) -> Result<(), Fail> {
    for end in 0..ALL_PARTS.len() {
        assert!(rt;
            load_bytes(rt.alloc(), &ALL_PARTS[..end])? == "Cut",
            "of {end}"
        );
    }
    Ok(())
}

/// A place, another byte there, and what comes of it: another text or version; a current maximum or a last id that no session
/// has; a publish that waits of QoS 0, and one that awaits its ack; an id in use above the limit, and one that is used twice;
/// a frame that can't be read; and another payload.
const CHANGES: [(usize, u8, &str); 10] = [
    (0, 0, "Foreign"),
    (5, 2, "Version"),
    (9, 4, "BadNumbers"),
    (11, 3, "BadNumbers"),
    (26, 0x30, "NotStored"),
    (37, 0x30, "NotStored"),
    (45, 4, "OutOfRange"),
    (51, 1, "Twice"),
    (52, 0xB0, "Frame"),
    (47, b'q', "a session"),
];

#[test]
fn other_bytes_are_refused(rt: HostRuntime) -> Result<(), Fail> {
    for (place, byte, outcome) in CHANGES {
        assert!(rt;
            load_changed(rt.alloc(), place, byte)? == outcome,
            "of {place}"
        );
    }
    Ok(())
}
