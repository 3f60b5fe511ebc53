//! The settings: each getter that copies, `set_credentials`, and a clone.

use crate::parts::will;
use crate::telling::{TrialError, after, answer, may};
use bytes::Bytes;
use mqtt5_base::{Error, Sequence, Text};
use mqtt5_options::MqttOptions;
use std::alloc::Global;
use std::io::Write;

fn text(alloc: Global, text: &str) -> Result<Text, Error> {
    Ok(Text::from(String::from_str(alloc, text)?))
}

fn pairs(alloc: Global) -> Result<Sequence<(Text, Text)>, Error> {
    let pair = (text(alloc, "k")?, text(alloc, "v")?);
    let mut pairs = Sequence::new(alloc);
    pairs.push(pair)?;
    Ok(pairs)
}

fn set_connect(alloc: Global, options: &mut MqttOptions) -> Result<(), Error> {
    options.set_user_properties(pairs(alloc)?);
    options.set_authentication_method(Some(text(alloc, "test")?));
    options.set_authentication_data(Some(Bytes::copy_from_slice(alloc, b"d")?));
    Ok(())
}

/// Sets each setting that takes memory.
fn set_all(alloc: Global, options: &mut MqttOptions) -> Result<(), Error> {
    if let Some(will) = will(alloc)? {
        options.set_last_will(will);
    }
    options.set_credentials("u", "p")?;
    set_connect(alloc, options)
}

fn get_connect<W: Write>(
    options: &MqttOptions,
    name: &str,
    output: &mut W,
) -> Result<(), TrialError> {
    match name {
        "connect_properties" => answer(output, options.connect_properties()),
        "user_properties" => answer(output, options.user_properties()),
        "authentication_method" => answer(output, options.authentication_method()),
        "authentication_data" => answer(output, options.authentication_data()),
        _ => Err(TrialError::Unknown),
    }
}

/// Calls the getter of that name, `clone` or `set_credentials`.
fn call<W: Write>(options: &mut MqttOptions, name: &str, output: &mut W) -> Result<(), TrialError> {
    match name {
        "broker_address" => answer(output, options.broker_address()),
        "client_id" => answer(output, options.client_id()),
        "last_will" => answer(output, options.last_will()),
        "credentials" => answer(output, options.credentials()),
        "clone" => answer(output, options.clone().map_err(Error::from)),
        "set_credentials" => answer(output, options.set_credentials("user", "word")),
        other => get_connect(options, other, output),
    }
}

fn call_told<W: Write>(
    alloc: Global,
    options: &mut MqttOptions,
    name: &str,
    output: &mut W,
) -> Result<(), TrialError> {
    set_all(alloc, options)?;
    may(output, options)?;
    call(options, name, output)?;
    after(output, options)
}

/// A call of that name on settings. A refusal leaves them.
pub fn settings<W: Write>(alloc: Global, name: &str, output: &mut W) -> Result<(), TrialError> {
    let mut options = MqttOptions::new(alloc, "c", "localhost", 1883)?;
    let told = call_told(alloc, &mut options, name, output);
    drop(options);
    told
}
