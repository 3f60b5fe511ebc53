//! What came of a script.

use bytes::BytesMut;
use mqtt5_codec::Codec;
use mqtt5_drive::{Step, drive, empty_needs_more};
use mqtt5_session::{MqttState, StateError};
use std::alloc::Global;
use std::num::NonZeroU16;

/// The session and the bytes written once the steps ran, and the fault that ended them.
#[derive(Drop)]
pub struct Outcome {
    pub state: MqttState,
    pub written: BytesMut,
    pub fault: Option<StateError>,
}

/// Runs the steps on a new session and empty buffers, by a codec without limits. S12 where the session
/// can't be made; a fault of the run is the outcome's.
pub fn run_steps(alloc: Global, limit: NonZeroU16, steps: &[Step]) -> Result<Outcome, StateError> {
    let mut state = MqttState::new(alloc, limit.get(), false)?;
    let mut codec = Codec::new();
    let mut input = BytesMut::new(alloc);
    let mut written = BytesMut::new(alloc);
    empty_needs_more();
    let fault = drive(
        alloc,
        &mut state,
        &mut codec,
        &mut input,
        &mut written,
        steps,
    )
    .err();
    Ok(Outcome {
        state,
        written,
        fault,
    })
}
