//! Each `new` that takes memory, and that of a session, which takes none.

use crate::telling::{TrialError, after, answer, may};
use bytes::Bytes;
use mqtt5_base::QoS;
use mqtt5_connect::{LastWill, Login};
use mqtt5_options::MqttOptions;
use mqtt5_publish::Publish;
use mqtt5_session::MqttState;
use mqtt5_subscribe::{Filter, Subscribe, Unsubscribe};
use std::alloc::Global;
use std::io::Write;

fn publish<W: Write>(alloc: Global, output: &mut W) -> Result<(), TrialError> {
    let payload = Bytes::copy_from_slice(alloc, b"hi")?;
    let made = Publish::new(alloc, "a/b", QoS::AtLeastOnce, payload, None);
    answer(output, made)
}

fn will<W: Write>(alloc: Global, output: &mut W) -> Result<(), TrialError> {
    let message = Vec::from_slice(alloc, b"m")?;
    let made = LastWill::new(alloc, "w", message, QoS::AtLeastOnce, true, None);
    answer(output, made)
}

fn subscribe<W: Write>(alloc: Global, output: &mut W) -> Result<(), TrialError> {
    let filter = Filter::new(alloc, "a/b", QoS::AtLeastOnce)?;
    answer(output, Subscribe::new(alloc, filter, None))
}

fn add_filter(alloc: Global, filters: &mut Vec<Filter>, path: &str) -> Result<(), TrialError> {
    filters.push(Filter::new(alloc, path, QoS::AtLeastOnce)?)?;
    Ok(())
}

fn filters(alloc: Global) -> Result<Vec<Filter>, TrialError> {
    let mut filters = Vec::new(alloc);
    for path in ["a", "b"] {
        add_filter(alloc, &mut filters, path)?;
    }
    Ok(filters)
}

fn subscribe_many<W: Write>(alloc: Global, output: &mut W) -> Result<(), TrialError> {
    let filters = filters(alloc)?;
    answer(
        output,
        Subscribe::new_many(alloc, filters.into_iter(), None),
    )
}

fn make<W: Write>(alloc: Global, name: &str, output: &mut W) -> Result<(), TrialError> {
    match name {
        "session" => answer(output, MqttState::new(alloc, 65535, false)),
        "publish" => publish(alloc, output),
        "will" => will(alloc, output),
        "login" => answer(output, Login::new(alloc, "u", "p")),
        "filter" => answer(output, Filter::new(alloc, "a", QoS::ExactlyOnce)),
        "subscribe" => subscribe(alloc, output),
        "subscribe_many" => subscribe_many(alloc, output),
        "unsubscribe" => answer(output, Unsubscribe::new(alloc, "a", None)),
        "options" => answer(output, MqttOptions::new(alloc, "c", "localhost", 1883)),
        _ => Err(TrialError::Unknown),
    }
}

/// Makes the value of that name.
pub fn new<W: Write>(alloc: Global, name: &str, output: &mut W) -> Result<(), TrialError> {
    may(output, &"nothing")?;
    make(alloc, name, output)?;
    after(output, &"nothing")
}
