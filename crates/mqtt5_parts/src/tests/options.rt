//! Worked settings.

ghost use Rattle.std.specs.Prelude.{◌≡◌, Some, false};
ghost use Rattle.mqtt5_options.specs.Options.{properties_of, with_properties};

use super::write_line;
use bytes::Bytes;
use mqtt5_base::{Error, QoS, Sequence, Text};
use mqtt5_connect::{ConnectProperties, LastWill, Login};
use mqtt5_options::MqttOptions;
use std::alloc::Global;
use std::test::Fail;
use std::time::Duration;

/// What is shown of fresh settings; of the connect properties after `chain`; of the topic alias maximum after that,
/// with empty connect properties; of settings in which all was set; of fresh settings with an empty client
/// identifier; and of a login.
const SHOWN: &str =
    r#"MqttOptions { broker_addr: "localhost", port: 1883, keep_alive: 60s, clean_start: true, client_id: "c", credentials: None, request_channel_capacity: 10, max_request_batch: 0, pending_throttle: 0ns, last_will: None, conn_timeout: 5, manual_acks: false, connect properties: None }
(60s, 0ns, true, false, 10, 5, None)
(None, None, None, None, None, None)
Ok(("localhost", 1883))
Ok("c")
Ok(None)
Ok(None)
Ok(None)
Ok([])
Ok(None)
Ok(None)
Ok(Some(ConnectProperties { session_expiry_interval: None, receive_maximum: None, max_packet_size: None, topic_alias_max: Some(5), request_response_info: None, request_problem_info: None, user_properties: [], authentication_method: None, authentication_data: None }))
None
MqttOptions { broker_addr: "localhost", port: 1883, keep_alive: 5s, clean_start: false, client_id: "", credentials: Some(Login { username: "u", password: "p" }), request_channel_capacity: 20, max_request_batch: 0, pending_throttle: 1.5ms, last_will: Some(LastWill { topic: b"w", message: b"m", qos: AtLeastOnce, retain: true, properties: None }), conn_timeout: 7, manual_acks: true, connect properties: Some(ConnectProperties { session_expiry_interval: Some(1234), receive_maximum: Some(432), max_packet_size: Some(100), topic_alias_max: Some(456), request_response_info: Some(1), request_problem_info: Some(0), user_properties: [("k", "v")], authentication_method: Some("test"), authentication_data: Some(b"d") }) }
(5s, 1.5ms, false, true, 20, 7, Some(30))
(Some(1234), Some(432), Some(100), Some(456), Some(1), Some(0))
Ok(("localhost", 1883))
Ok("")
Ok(Some(LastWill { topic: b"w", message: b"m", qos: AtLeastOnce, retain: true, properties: None }))
Ok(Some(Login { username: "u", password: "p" }))
Ok(Some(ConnectProperties { session_expiry_interval: Some(1234), receive_maximum: Some(432), max_packet_size: Some(100), topic_alias_max: Some(456), request_response_info: Some(1), request_problem_info: Some(0), user_properties: [("k", "v")], authentication_method: Some("test"), authentication_data: Some(b"d") }))
Ok([("k", "v")])
Ok(Some("test"))
Ok(Some(b"d"))
Ok(MqttOptions { broker_addr: "localhost", port: 1883, keep_alive: 60s, clean_start: true, client_id: "", credentials: None, request_channel_capacity: 10, max_request_batch: 0, pending_throttle: 0ns, last_will: None, conn_timeout: 5, manual_acks: false, connect properties: None })
Ok(Login { username: "u", password: "p" })
"#;

/// A clone of the settings, and each of them.
fn show_all(text: &mut String, options: &MqttOptions) -> Result<(), Error> {
    write_line(text, options.clone()?)?;
    write_line(text, numbers(options))?;
    write_line(text, connect_numbers(options))?;
    write_line(text, options.broker_address())?;
    write_line(text, options.client_id())?;
    write_line(text, options.last_will())?;
    write_line(text, options.credentials())?;
    write_line(text, options.connect_properties())?;
    write_line(text, options.user_properties())?;
    write_line(text, options.authentication_method())?;
    write_line(text, options.authentication_data())
}

fn numbers(options: &MqttOptions) -> (Duration, Duration, bool, bool, usize, u64, Option<u16>) {
    (
        options.keep_alive(),
        options.pending_throttle(),
        options.clean_start(),
        options.manual_acks(),
        options.request_channel_capacity(),
        options.connection_timeout(),
        options.get_outgoing_inflight_upper_limit(),
    )
}

/// The numbers of the connect properties.
fn connect_numbers(
    options: &MqttOptions,
) -> (
    Option<u32>,
    Option<u16>,
    Option<u32>,
    Option<u16>,
    Option<u8>,
    Option<u8>,
) {
    (
        options.session_expiry_interval(),
        options.receive_maximum(),
        options.max_packet_size(),
        options.topic_alias_max(),
        options.request_response_info(),
        options.request_problem_info(),
    )
}

/// A chain of setters changes what they set, and nothing else.
fn chain(options: &mut MqttOptions)
    ensures { options.new ≡ with_properties (record (options.old) { clean_start = false })
        (record (properties_of options.old) { topic_alias_max = Some 5 }) }
{
    options.set_clean_start(false).set_topic_alias_max(Some(5));
}

fn set_numbers(options: &mut MqttOptions) {
    options
        .set_keep_alive(Duration::from_secs(5))
        .set_pending_throttle(Duration::from_micros(1500))
        .set_clean_start(false)
        .set_manual_acks(true)
        .set_request_channel_capacity(20)
        .set_connection_timeout(7)
        .set_outgoing_inflight_upper_limit(30)
        .set_session_expiry_interval(Some(1234))
        .set_receive_maximum(Some(432))
        .set_max_packet_size(Some(100))
        .set_topic_alias_max(Some(456))
        .set_request_response_info(Some(1))
        .set_request_problem_info(Some(0));
}

fn text(alloc: Global, text: &str) -> Result<Text, Error> {
    Ok(Text::from(String::from_str(alloc, text)?))
}

fn will(alloc: Global) -> Result<LastWill, Error> {
    let message = Vec::from_slice(alloc, b"m")?;
    LastWill::new(alloc, "w", message, QoS::AtLeastOnce, true, None)
}

/// The user property "k" of a value.
fn one_pair(alloc: Global, value: &str) -> Result<Sequence<(Text, Text)>, Error> {
    let mut pairs = Sequence::new(alloc);
    pairs.push((text(alloc, "k")?, text(alloc, value)?))?;
    Ok(pairs)
}

fn set_texts(alloc: Global, options: &mut MqttOptions) -> Result<(), Error> {
    options.set_client_id(text(alloc, "")?);
    options.set_last_will(will(alloc)?);
    options.set_credentials("u", "p")?;
    options.set_user_properties(one_pair(alloc, "v")?);
    options.set_authentication_method(Some(text(alloc, "test")?));
    options.set_authentication_data(Some(Bytes::copy_from_slice(alloc, b"d")?));
    Ok(())
}

/// What is shown of settings, step by step.
fn show_steps(alloc: Global, text: &mut String, options: &mut MqttOptions) -> Result<(), Error> {
    show_all(text, options)?;
    chain(options);
    write_line(text, options.connect_properties())?;
    options.set_connect_properties(ConnectProperties::new(alloc));
    write_line(text, options.topic_alias_max())?;
    set_numbers(options);
    set_texts(alloc, options)?;
    show_all(text, options)
}

fn shown(alloc: Global) -> Result<String, Error> {
    let mut text = String::new(alloc);
    let mut options = MqttOptions::new(alloc, "c", "localhost", 1883)?;
    let steps = show_steps(alloc, &mut text, &mut options);
    drop(options);
    steps?;
    write_line(&mut text, MqttOptions::new(alloc, "", "localhost", 1883))?;
    write_line(&mut text, Login::new(alloc, "u", "p"))?;
    Ok(text)
}

#[test]
fn settings(rt: HostRuntime) -> Result<(), Fail> {
    let shown = shown(rt.alloc())?;
    assert!(rt; shown.as_str() == SHOWN);
    Ok(())
}
