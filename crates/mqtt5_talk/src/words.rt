//! The words of both programs that say how the connection is opened.

ghost use Rattle.std.specs.Prelude.{◌≡◌, IfOk, Some, codes, option_map};
ghost use Rattle.clap.specs.Matches.{found_of, first_value, one_text};
ghost use Rattle.mqtt5_talk.specs.Connects.{
  value_in,
  IsQuality,
  IsExpiry,
  IsKeepAlive,
  expiring,
  IsWill,
  login_in,
  IsConnect,
};

use clap::{Arg, ArgAction, ArgMatches, Command, value_parser};
use mqtt5_base::{Error, QoS, Text};
use mqtt5_codec::Packet;
use mqtt5_connect::{Connect, ConnectProperties, LastWill, Login};
use std::alloc::{AllocError, Global};

/// The qualities of service, as words.
const QUALITIES: [&str; 3] = ["0", "1", "2"];

/// An option with a value.
fn option<'a>(alloc: Global, id: &'a str, long: &'a str, value: &'a str, help: &'a str) -> Arg<'a> {
    Arg::new(alloc, id)
        .long(long)
        .value_name(value)
        .help(help)
        .action(ArgAction::Set)
}

/// An option that is there or not.
fn flag<'a>(alloc: Global, id: &'a str, long: &'a str, help: &'a str) -> Arg<'a> {
    Arg::new(alloc, id)
        .long(long)
        .help(help)
        .action(ArgAction::SetTrue)
}

/// Adds the options of the connection: the client identifier, the login, the session and the will. Err for want of
/// memory.
pub fn connection_options<'a>(
    alloc: Global,
    command: Command<'a>,
) -> Result<Command<'a>, AllocError> {
    let command = session_options(alloc, command)?;
    let command = login_options(alloc, command)?;
    will_options(alloc, command)
}

fn session_options<'a>(alloc: Global, command: Command<'a>) -> Result<Command<'a>, AllocError> {
    let id = option(alloc, "id", "id", "ID", "Client identifier").short('i');
    let keep = flag(
        alloc,
        "keep",
        "disable-clean-session",
        "Go on with the session that the broker has of this client, and let it keep the session",
    )
    .short('c')
    .requires_arg("id")?;
    let expiry = option(
        alloc,
        "expiry",
        "session-expiry-interval",
        "SECONDS",
        "How long the broker keeps the session",
    )
    .short('x')
    .value_parser(value_parser!(u32));
    command
        .arg(id)?
        .arg(keep)?
        .arg(expiry)?
        .arg(keep_alive_option(alloc))
}

fn keep_alive_option<'a>(alloc: Global) -> Arg<'a> {
    option(
        alloc,
        "keep-alive",
        "keepalive",
        "SECONDS",
        "The longest time without a packet of the client",
    )
    .short('k')
    .value_parser(value_parser!(u16))
}

fn login_options<'a>(alloc: Global, command: Command<'a>) -> Result<Command<'a>, AllocError> {
    let username = option(alloc, "username", "username", "NAME", "User name").short('u');
    let password = option(alloc, "password", "pw", "PASSWORD", "Password").short('P');
    command.arg(username)?.arg(password)
}

fn will_options<'a>(alloc: Global, command: Command<'a>) -> Result<Command<'a>, AllocError> {
    let topic = option(
        alloc,
        "will-topic",
        "will-topic",
        "TOPIC",
        "Topic of what the broker publishes once the connection is lost",
    );
    let payload = option(
        alloc,
        "will-payload",
        "will-payload",
        "MESSAGE",
        "Its message, which is else empty",
    )
    .requires_arg("will-topic")?;
    let retain = flag(alloc, "will-retain", "will-retain", "The broker retains it").requires_arg(
        "will-topic",
    )?;
    let quality = option(
        alloc,
        "will-qos",
        "will-qos",
        "QOS",
        "Its quality of service",
    )
    .value_parser(QUALITIES.as_slice())
    .requires_arg("will-topic")?;
    command.arg(topic)?.arg(payload)?.arg(retain)?.arg(quality)
}

/// The quality of service that an option of this id names; without one 0.
pub fn quality_of(matches: &ArgMatches<'_>, id: &str) -> QoS
    ensures { IsQuality (first_value (found_of matches.now) id.now) result }
{
    match matches.get_str(id) {
        Some(word) => quality_in(word),
        None => QoS::AtMostOnce,
    }
}

fn quality_in(word: &str) -> QoS
    ensures { IsQuality (Some word.now) result }
{
    match word {
        "1" => QoS::AtLeastOnce,
        "2" => QoS::ExactlyOnce,
        _other => QoS::AtMostOnce,
    }
}

/// The value of an option; without one it is empty.
fn value_of<'a>(matches: &ArgMatches<'a>, id: &str) -> &'a str
    ensures { result.now ≡ value_in (found_of matches.now) id.now }
{
    matches.get_str(id).unwrap_or("")
}

/// The Connect that the words ask for. E21.
pub fn connect_of(alloc: Global, matches: &ArgMatches<'_>) -> Result<Packet, Error>
    ensures { IfOk result (λ connect. IsConnect (found_of matches.now) connect) }
{
    let goes_on = matches.get_flag("keep");
    let connect = Connect {
        keep_alive: keep_alive_of(matches),
        client_id: Text::from_str(alloc, value_of(matches, "id"))?,
        clean_start: !goes_on,
        properties: properties_of(alloc, expiry_of(matches, goes_on)),
    };
    let will = will_of(alloc, matches)?;
    let login = login_of(alloc, matches)?;
    Ok(Packet::Connect(connect, will, login))
}

/// The keep alive that the words ask for, in seconds; 0, which is none, without.
fn keep_alive_of(matches: &ArgMatches<'_>) -> u16
    ensures { IsKeepAlive (one_text (found_of matches.now) (codes "keep-alive")) result }
{
    match matches.get_one::<u16>("keep-alive") {
        Some(seconds) => seconds,
        None => 0,
    }
}

/// How long the broker keeps the session: as the option says, or for ever where the session is gone on with.
fn expiry_of(matches: &ArgMatches<'_>, goes_on: bool) -> Option<u32>
    ensures { IsExpiry (one_text (found_of matches.now) (codes "expiry")) goes_on result }
{
    match matches.get_one::<u32>("expiry") {
        Some(seconds) => Some(seconds),
        None if goes_on => Some(u32::MAX),
        None => None,
    }
}

fn properties_of(alloc: Global, expiry: Option<u32>) -> Option<ConnectProperties>
    ensures { result ≡ option_map expiring expiry }
{
    let mut properties = ConnectProperties::new(alloc);
    properties.session_expiry_interval = Some(expiry?);
    Some(properties)
}

fn will_of(alloc: Global, matches: &ArgMatches<'_>) -> Result<Option<LastWill>, Error>
    ensures { IfOk result (λ will. IsWill (found_of matches.now)
        (first_value (found_of matches.now) (codes "will-topic")) will) }
{
    let Some(topic) = matches.get_str("will-topic") else {
        return Ok(None);
    };
    let message = Vec::from_slice(alloc, value_of(matches, "will-payload").as_bytes())?;
    let quality = quality_of(matches, "will-qos");
    let retain = matches.get_flag("will-retain");
    let will = LastWill::new(alloc, topic, message, quality, retain, None)?;
    Ok(Some(will))
}

fn login_of(alloc: Global, matches: &ArgMatches<'_>) -> Result<Option<Login>, Error>
    ensures { IfOk result
        (λ login. login ≡ login_in (value_in (found_of matches.now) (codes "username"))
        (value_in (found_of matches.now) (codes "password"))) }
{
    let username = value_of(matches, "username");
    let password = value_of(matches, "password");
    if username.is_empty() && password.is_empty() {
        return Ok(None);
    }
    Ok(Some(Login::new(alloc, username, password)?))
}
