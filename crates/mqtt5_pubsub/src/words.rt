//! What the words after `pub` and after `sub` ask for.

use crate::properties::WORDS;
use clap::{Arg, ArgAction, ArgGroup, ArgMatches, Command, Error, value_parser};
use mqtt5_base::valid_topic;
use mqtt5_talk::connection_options;
use std::alloc::{AllocError, Global};
use std::io::Write;

/// The qualities of service, as words.
const QUALITIES: [&str; 3] = ["0", "1", "2"];

/// How many bytes a text of a frame has at most (MQTT 5.0 sections 1.5.4, 1.5.6).
const LONGEST: usize = 65_535;

/// The options whose values are such texts, and what each is.
const TEXTS: [(&str, &str); 9] = [
    ("filters", "topic filter"),
    ("properties", "property"),
    ("topic", "topic"),
    ("unsubscribe", "topic filter"),
    ("id", "client identifier"),
    ("username", "user name"),
    ("password", "password"),
    ("will-topic", "will's topic"),
    ("will-payload", "will's message"),
];

/// Whether a text is too long for a frame, or the will's topic is none to publish to. The log tells which.
pub fn refuses_texts<E: Write>(matches: &ArgMatches<'_>, log: &mut E) -> bool {
    if let Some(name) = overlong(matches) {
        let _ = writeln!(log, "error: the {name} has more than {LONGEST} bytes");
        return true;
    }
    match matches.get_str("will-topic") {
        Some(topic) => refuses_topic(topic, log),
        None => false,
    }
}

/// Whether a topic is none to publish to, of which the log tells.
pub fn refuses_topic<E: Write>(topic: &str, log: &mut E) -> bool {
    if topic.is_empty() || !valid_topic(topic) {
        let _ = writeln!(log, "error: no topic to publish to: '{topic}'");
        return true;
    }
    false
}

/// What the first text is that is too long.
fn overlong(matches: &ArgMatches<'_>) -> Option<&'static str> {
    for (id, name) in TEXTS {
        if has_overlong(matches, id) {
            return Some(name);
        }
    }
    None
}

fn has_overlong(matches: &ArgMatches<'_>, id: &str) -> bool {
    match matches.get_strs(id) {
        Some(texts) => texts.iter().any(|text| text.len() > LONGEST),
        None => false,
    }
}

/// The values of the options behind `pub`; the error has the text to print.
pub fn parse_pub<'a>(alloc: Global, words: &'a [String]) -> Result<ArgMatches<'a>, Error> {
    let command = pub_command(alloc)?;
    command.try_get_matches_from(words)
}

/// The values of the options behind `sub`; the error has the text to print.
pub fn parse_sub<'a>(alloc: Global, words: &'a [String]) -> Result<ArgMatches<'a>, Error> {
    let command = sub_command(alloc)?;
    command.try_get_matches_from(words)
}

/// A client, without its options. The script that opens the connection has the help, since it takes words of its own.
fn client_command<'a>(alloc: Global, name: &'a str, usage: &'a str) -> Command<'a> {
    Command::new(alloc, name)
        .no_binary_name(true)
        .disable_help_flag(true)
        .override_usage(usage)
}

/// An option of the quality of service.
fn quality_option<'a>(alloc: Global) -> Arg<'a> {
    Arg::new(alloc, "qos")
        .short('q')
        .long("qos")
        .value_name("QOS")
        .value_parser(QUALITIES.as_slice())
}

fn pub_command<'a>(alloc: Global) -> Result<Command<'a>, AllocError> {
    let command = client_command(
        alloc,
        "mqtt5 pub",
        "mqtt5 pub -h HOST -t TOPIC -m MESSAGE; mqtt5 pub --help has all options",
    );
    let command = message_options(alloc, command)?;
    let command = content_options(alloc, command)?;
    let command = command.arg(window_option(alloc))?;
    let command = shared_options(alloc, command)?;
    connection_options(alloc, command)
}

fn window_option<'a>(alloc: Global) -> Arg<'a> {
    Arg::new(alloc, "window")
        .short('M')
        .long("max-inflight")
        .value_name("COUNT")
        .value_parser(value_parser!(u16).range(1..))
}

/// What the words of both clients have.
fn shared_options<'a>(alloc: Global, command: Command<'a>) -> Result<Command<'a>, AllocError> {
    let command = command.arg(properties_option(alloc))?;
    let command = command.arg(store_option(alloc)?)?;
    command.arg(chunks_option(alloc))
}

/// The file that the session is kept in.
fn store_option<'a>(alloc: Global) -> Result<Arg<'a>, AllocError> {
    Arg::new(alloc, "store")
        .long("store")
        .value_name("FILE")
        .requires_arg("keep")
}

/// Properties of packets, of which `properties` reads.
fn properties_option<'a>(alloc: Global) -> Arg<'a> {
    Arg::new(alloc, "properties")
        .short('D')
        .long("property")
        .value_name("WORD")
        .num_args(WORDS)
        .allow_hyphen_values(true)
        .action(ArgAction::Append)
}

/// The broker's bytes come in chunks, and the seconds that pass beside them.
fn chunks_option<'a>(alloc: Global) -> Arg<'a> {
    Arg::new(alloc, "chunks")
        .long("chunks")
        .action(ArgAction::SetTrue)
}

/// The keep alive that the words ask for, in seconds; 0, which is none, without.
pub fn keep_alive_in(matches: &ArgMatches<'_>) -> u16 {
    matches.get_one::<u16>("keep-alive").unwrap_or(0)
}

/// Whether there are no chunks that say when a ping is due, and a keep alive or a limit on the time, of which the log tells.
pub fn refuses_time<E: Write>(matches: &ArgMatches<'_>, log: &mut E) -> bool {
    let keeps_alive = keep_alive_in(matches) > 0;
    let has_limit = matches.get_one::<u64>("limit").is_some();
    if (keeps_alive || has_limit) && !matches.get_flag("chunks") {
        let _ = writeln!(log, "error: -k and -W need a connection of their own (-h)");
        return true;
    }
    false
}

fn message_options<'a>(alloc: Global, command: Command<'a>) -> Result<Command<'a>, AllocError> {
    let command = command.arg(topic_of_message(alloc))?;
    let command = command.arg(quality_option(alloc))?;
    command.arg(retain_option(alloc))
}

fn topic_of_message<'a>(alloc: Global) -> Arg<'a> {
    Arg::new(alloc, "topic")
        .short('t')
        .long("topic")
        .value_name("TOPIC")
        .required(true)
}

fn retain_option<'a>(alloc: Global) -> Arg<'a> {
    Arg::new(alloc, "retain")
        .short('r')
        .long("retain")
        .action(ArgAction::SetTrue)
}

// An option is made where it is added, so that no way out has several to let go.
fn content_options<'a>(alloc: Global, command: Command<'a>) -> Result<Command<'a>, AllocError> {
    let command = command.arg(message_option(alloc))?;
    let command = command.arg(file_option(alloc))?;
    let command = command.arg(lines_option(alloc)?)?;
    let command = command.arg(empty_option(alloc))?;
    command.group(content_group(alloc)?)
}

fn message_option<'a>(alloc: Global) -> Arg<'a> {
    Arg::new(alloc, "message")
        .short('m')
        .long("message")
        .value_name("MESSAGE")
        .allow_hyphen_values(true)
}

fn file_option<'a>(alloc: Global) -> Arg<'a> {
    Arg::new(alloc, "file")
        .short('f')
        .long("file")
        .value_name("FILE")
}

fn lines_option<'a>(alloc: Global) -> Result<Arg<'a>, AllocError> {
    Arg::new(alloc, "lines")
        .short('l')
        .long("lines")
        .action(ArgAction::SetTrue)
        .conflicts_with("message")?
        .conflicts_with("keep-alive")?
        .conflicts_with("empty")
}

fn empty_option<'a>(alloc: Global) -> Arg<'a> {
    Arg::new(alloc, "empty")
        .short('n')
        .long("null-message")
        .action(ArgAction::SetTrue)
}

/// One of the message, the file and the empty message.
fn content_group<'a>(alloc: Global) -> Result<ArgGroup<'a>, AllocError> {
    let group = ArgGroup::new(alloc, "content")
        .arg("message")?
        .arg("file")?
        .arg("empty")?;
    Ok(group.required(true))
}

fn sub_command<'a>(alloc: Global) -> Result<Command<'a>, AllocError> {
    let command = client_command(
        alloc,
        "mqtt5 sub",
        "mqtt5 sub -h HOST FILTER..; mqtt5 sub --help has all options",
    );
    let command = filter_options(alloc, command)?;
    let command = show_options(alloc, command)?;
    let command = shared_options(alloc, command)?;
    connection_options(alloc, command)
}

fn filter_options<'a>(alloc: Global, command: Command<'a>) -> Result<Command<'a>, AllocError> {
    let command = command.arg(filters_argument(alloc)?)?;
    let command = command.arg(filter_option(alloc))?;
    let command = command.arg(unsubscribe_option(alloc))?;
    let command = command.arg(quality_option(alloc))?;
    end_options(alloc, command)
}

/// When the program ends.
fn end_options<'a>(alloc: Global, command: Command<'a>) -> Result<Command<'a>, AllocError> {
    let command = command.arg(count_option(alloc))?;
    let command = command.arg(exit_option(alloc)?)?;
    let command = command.arg(limit_option(alloc))?;
    again_options(alloc, command)
}

fn limit_option<'a>(alloc: Global) -> Arg<'a> {
    Arg::new(alloc, "limit")
        .short('W')
        .value_name("SECONDS")
        .value_parser(value_parser!(u64).range(1..))
}

/// What the script that makes a connection again tells and asks.
fn again_options<'a>(alloc: Global, command: Command<'a>) -> Result<Command<'a>, AllocError> {
    let command = command.arg(again_option(alloc))?;
    command.arg(left_option(alloc))
}

/// The subscriptions were asked for before.
fn again_option<'a>(alloc: Global) -> Arg<'a> {
    Arg::new(alloc, "again")
        .long("again")
        .action(ArgAction::SetTrue)
}

/// Where it is told how many messages are still to be shown.
fn left_option<'a>(alloc: Global) -> Arg<'a> {
    Arg::new(alloc, "left").long("left").value_name("FILE")
}

fn unsubscribe_option<'a>(alloc: Global) -> Arg<'a> {
    Arg::new(alloc, "unsubscribe")
        .short('U')
        .long("unsubscribe")
        .value_name("FILTER")
        .action(ArgAction::Append)
}

fn exit_option<'a>(alloc: Global) -> Result<Arg<'a>, AllocError> {
    Arg::new(alloc, "exit")
        .short('E')
        .action(ArgAction::SetTrue)
        .conflicts_with("count")
}

fn filters_argument<'a>(alloc: Global) -> Result<Arg<'a>, AllocError> {
    Arg::new(alloc, "filters")
        .value_name("FILTER")
        .num_args(1..)
        .required_unless_present("topic")
}

fn filter_option<'a>(alloc: Global) -> Arg<'a> {
    Arg::new(alloc, "topic")
        .short('t')
        .long("topic")
        .value_name("FILTER")
        .action(ArgAction::Append)
}

fn count_option<'a>(alloc: Global) -> Arg<'a> {
    Arg::new(alloc, "count")
        .short('C')
        .value_name("COUNT")
        .value_parser(value_parser!(u64).range(1..))
}

fn show_options<'a>(alloc: Global, command: Command<'a>) -> Result<Command<'a>, AllocError> {
    let command = command.arg(verbose_option(alloc))?;
    let command = command.arg(output_option(alloc))?;
    let command = command.arg(joined_option(alloc)?)?;
    let command = command.arg(escape_option(alloc)?)?;
    let command = command.arg(format_option(alloc)?)?;
    let command = command.arg(pretty_option(alloc)?)?;
    hide_options(alloc, command)
}

fn format_option<'a>(alloc: Global) -> Result<Arg<'a>, AllocError> {
    Arg::new(alloc, "format")
        .short('F')
        .value_name("FORMAT")
        .allow_hyphen_values(true)
        .conflicts_with("escape")?
        .conflicts_with("verbose")
}

fn pretty_option<'a>(alloc: Global) -> Result<Arg<'a>, AllocError> {
    Arg::new(alloc, "pretty")
        .long("pretty")
        .action(ArgAction::SetTrue)
        .requires_arg("format")
}

/// What isn't shown.
fn hide_options<'a>(alloc: Global, command: Command<'a>) -> Result<Command<'a>, AllocError> {
    let command = command.arg(retained_option(alloc))?;
    command.arg(filter_out_option(alloc))
}

fn retained_option<'a>(alloc: Global) -> Arg<'a> {
    Arg::new(alloc, "no-retained")
        .short('R')
        .action(ArgAction::SetTrue)
}

fn filter_out_option<'a>(alloc: Global) -> Arg<'a> {
    Arg::new(alloc, "filter-out")
        .short('T')
        .long("filter-out")
        .value_name("FILTER")
        .action(ArgAction::Append)
}

fn escape_option<'a>(alloc: Global) -> Result<Arg<'a>, AllocError> {
    Arg::new(alloc, "escape")
        .long("escape")
        .action(ArgAction::SetTrue)
        .conflicts_with("joined")
}

fn verbose_option<'a>(alloc: Global) -> Arg<'a> {
    Arg::new(alloc, "verbose")
        .short('v')
        .long("verbose")
        .action(ArgAction::SetTrue)
}

fn output_option<'a>(alloc: Global) -> Arg<'a> {
    Arg::new(alloc, "output")
        .short('o')
        .long("output")
        .value_name("FILE")
}

fn joined_option<'a>(alloc: Global) -> Result<Arg<'a>, AllocError> {
    Arg::new(alloc, "joined")
        .short('N')
        .long("no-newline")
        .action(ArgAction::SetTrue)
        .requires_arg("output")
}
