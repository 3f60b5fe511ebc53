//! A client that subscribes: what it does with the words after `sub`, its input and its output.

ghost use Rattle.std.specs.Prelude.{◌≡◌, ◌<◌, ◌⊎◌, OnOk, IfErr};
ghost use Rattle.mqtt5_client.specs.Client.{IsReady};

use crate::ending::{is_over, status_of, tell_end};
use crate::format::{Formatted, is_format};
use crate::framed::Framed;
use crate::hiding::{Counting, Hiding};
use crate::keeping::{Keeper, begins_with};
use crate::kept_subscribing::{await_kept, receive_kept};
use crate::kept_talk::take_up;
use crate::properties::{connect_with, properties_of, refuses_properties};
use crate::timed::{Timed, timed_reader};
use crate::words::{keep_alive_in, parse_sub, refuses_texts, refuses_time};
use clap::ArgMatches;
use mqtt5_base::{Error, Sequence, Text, valid_filter};
use mqtt5_client::Client;
use mqtt5_codec::Packet;
use mqtt5_subscribe::{
    Filter, RetainForwardRule, Subscribe, SubscribeProperties, Unsubscribe, UnsubscribeProperties,
};
use mqtt5_talk::{
    Lines, Raw, Screen, TalkError, await_end, await_subscribed, close, new_client, open,
    quality_of, receive, refuse, subscribe, unsubscribe,
};
use std::alloc::Global;
use std::fs;
use std::io::{Read, Write};
use std::rt::Files;
use std::time::Clock;

/// The words that are topic filters.
const FILTERS: [&str; 4] = ["filters", "topic", "unsubscribe", "filter-out"];

/// What is subscribed to and shown.
#[derive(Drop)]
struct Task {
    wanted: Subscribe,
    unwanted: Option<Unsubscribe>,
    /// How many messages are shown; None where the program ends once it is subscribed.
    count: Option<u64>,
    /// The keep alive that is asked for, in seconds.
    keep_alive: u16,
}

/// For how many seconds the broker's end is awaited once the time is over.
const GRACE: u64 = 5;

/// Subscribes, and answers the exit status: 0; 1 after a fault, 3 after one that another connection may mend, 27 where the time
/// is over; 2 where the words are refused. The log has the messages, and tells why the program ended.
pub fn run<F: Files + AllocGlobal + Clock, R: Read, W: Write, E: Write>(
    rt: &F,
    words: &[String],
    reader: &mut R,
    writer: &mut W,
    log: &mut E,
) -> u8
    ensures { (result < 4) ⊎ (result ≡ 27) }
{
    match parse_sub(rt.alloc(), words) {
        Ok(matches) => run_matches(rt, &matches, reader, writer, log),
        Err(error) => refuse(&error, log),
    }
}

fn run_matches<F: Files + AllocGlobal + Clock, R: Read, W: Write, E: Write>(
    rt: &F,
    matches: &ArgMatches<'_>,
    reader: &mut R,
    writer: &mut W,
    log: &mut E,
) -> u8
    ensures { (result < 4) ⊎ (result ≡ 27) }
{
    if let Err(status) = check_words(rt.alloc(), matches, log) {
        return status;
    }
    let mut shown = 0;
    let ended = match matches.get_str("output") {
        Some(file) => write_file(rt, file, matches, &mut shown, reader, writer),
        None => write_to(rt, &mut *log, true, matches, &mut shown, reader, writer),
    };
    tell_left(rt, matches, shown);
    match ended {
        Ok(()) => 0,
        Err(trouble) => tell_end(&trouble, status_of(&trouble), log),
    }
}

/// The status 2 of words that are refused, of which the log tells.
fn check_words<E: Write>(alloc: Global, matches: &ArgMatches<'_>, log: &mut E) -> Result<(), u8>
    ensures { IfErr result (λ status. status ≡ 2) }
{
    if refuses_texts(matches, log)
        || refuses_filters(matches, log)
        || refuses_format(matches, log)
        || refuses_time(matches, log)
        || refuses_properties(alloc, matches, &commands_of(matches), log)
    {
        return Err(2);
    }
    Ok(())
}

/// The packets whose properties the words may say.
fn commands_of(matches: &ArgMatches<'_>) -> [&'static str; 4] {
    let will = match matches.get_str("will-topic") {
        Some(_topic) => "will",
        None => "connect",
    };
    match matches.get_strs("unsubscribe") {
        Some(_filters) => ["connect", "subscribe", will, "unsubscribe"],
        None => ["connect", "subscribe", will, "connect"],
    }
}

/// Writes how many messages are still to be shown to the file that the words name for it, where they do.
fn tell_left<F: Files + AllocGlobal>(rt: &F, matches: &ArgMatches<'_>, shown: u64) {
    let Some(file) = matches.get_str("left") else {
        return;
    };
    let count = matches.get_one::<u64>("count").unwrap_or(u64::MAX);
    if let Ok(mut left) = fs::create(rt, file) {
        let _ = writeln!(&mut left, "{}", count.saturating_sub(shown));
    }
}

/// Whether a word is no topic filter, of which the log tells.
fn refuses_filters<E: Write>(matches: &ArgMatches<'_>, log: &mut E) -> bool {
    for id in FILTERS {
        if let Some(filter) = bad_filter(matches, id) {
            let _ = writeln!(log, "error: no topic filter: '{filter}'");
            return true;
        }
    }
    false
}

/// Whether the format has a letter that stands for nothing, of which the log tells.
fn refuses_format<E: Write>(matches: &ArgMatches<'_>, log: &mut E) -> bool {
    match matches.get_str("format") {
        Some(format) if !is_format(format) => {
            let _ = writeln!(log, "error: no format: '{format}'");
            true
        }
        _other => false,
    }
}

/// The first word under this id that is no topic filter.
fn bad_filter<'a>(matches: &ArgMatches<'a>, id: &str) -> Option<&'a str> {
    let filters = matches.get_strs(id)?;
    for filter in filters {
        if !valid_filter(filter) {
            return Some(*filter);
        }
    }
    None
}

/// Writes each message to a file that is made anew.
fn write_file<F: Files + AllocGlobal + Clock, R: Read, W: Write>(
    rt: &F,
    file: &str,
    matches: &ArgMatches<'_>,
    shown: &mut u64,
    reader: &mut R,
    writer: &mut W,
) -> Result<(), TalkError> {
    let escapes = matches.get_flag("escape");
    match fs::create(rt, file) {
        Ok(output) => write_to(rt, output, escapes, matches, shown, reader, writer),
        Err(error) => Err(TalkError::Unshown(error)),
    }
}

/// Writes each message by its format, where there is one, or else escaped as a line, or as it is.
fn write_to<F: Files + AllocGlobal + Clock, O: Write + Drop, R: Read, W: Write>(
    rt: &F,
    output: O,
    escapes: bool,
    matches: &ArgMatches<'_>,
    shown: &mut u64,
    reader: &mut R,
    writer: &mut W,
) -> Result<(), TalkError> {
    let alloc = rt.alloc();
    let with_topic = matches.get_flag("verbose");
    let with_newline = !matches.get_flag("joined");
    if let Some(format) = matches.get_str("format") {
        let screen = Formatted {
            alloc,
            writer: output,
            format,
            clock: rt,
            is_pretty: matches.get_flag("pretty"),
            with_newline,
        };
        return show(rt, matches, screen, shown, reader, writer);
    }
    if escapes {
        let screen = Lines {
            alloc,
            writer: output,
            with_topic,
        };
        return show(rt, matches, screen, shown, reader, writer);
    }
    let screen = Raw {
        alloc,
        writer: output,
        with_topic,
        with_newline,
    };
    show(rt, matches, screen, shown, reader, writer)
}

/// Shows each message on a screen, but for those that the words hide, and counts them.
fn show<F: Files + AllocGlobal, R: Read, W: Write, S: Screen + Drop>(
    rt: &F,
    matches: &ArgMatches<'_>,
    screen: S,
    shown: &mut u64,
    reader: &mut R,
    writer: &mut W,
) -> Result<(), TalkError> {
    let hiding = Hiding {
        screen,
        retained: matches.get_flag("no-retained"),
        filters: matches.get_strs("filter-out").unwrap_or(&[]),
    };
    let mut screen = Counting {
        screen: hiding,
        shown: 0,
    };
    let ended = talk(rt, matches, &mut screen, reader, writer);
    *shown = screen.shown;
    ended
}

fn talk<F: Files + AllocGlobal, R: Read, W: Write, S: Screen>(
    rt: &F,
    matches: &ArgMatches<'_>,
    screen: &mut S,
    reader: &mut R,
    writer: &mut W,
) -> Result<(), TalkError> {
    match matches.get_str("store") {
        Some(path) => {
            let keeper = Keeper { rt, path };
            talk_kept(&keeper, matches, screen, reader, writer)
        }
        None => talk_with(rt.alloc(), matches, screen, reader, writer),
    }
}

fn talk_with<R: Read, W: Write, S: Screen>(
    alloc: Global,
    matches: &ArgMatches<'_>,
    screen: &mut S,
    reader: &mut R,
    writer: &mut W,
) -> Result<(), TalkError> {
    let task = task_of(alloc, matches, matches.get_flag("again"))?;
    let connect = connect_with(alloc, matches)?;
    let mut reader = timed_reader(alloc, matches, reader)?;
    let mut client = new_client(alloc, 2, true);
    let ended = talk_over(
        alloc,
        &mut client,
        &connect,
        task,
        screen,
        &mut reader,
        writer,
    );
    drop(client);
    drop(connect);
    ended
}

/// What the words ask for.
fn task_of(alloc: Global, matches: &ArgMatches<'_>, is_again: bool) -> Result<Task, Error> {
    Ok(Task {
        wanted: subscribe_of(alloc, matches, is_again)?,
        unwanted: unsubscribe_of(alloc, matches)?,
        count: count_of(matches),
        keep_alive: keep_alive_in(matches),
    })
}

/// Subscribes with the session of a file, in which it is kept.
fn talk_kept<F: Files + AllocGlobal, R: Read, W: Write, S: Screen>(
    keeper: &Keeper<'_, F>,
    matches: &ArgMatches<'_>,
    screen: &mut S,
    reader: &mut R,
    writer: &mut W,
) -> Result<(), TalkError> {
    let beginning = keeper.begin(2, true)?;
    let is_new = beginning.start.is_new;
    let mut client = beginning.client;
    let ended = talk_from(keeper, &mut client, is_new, matches, screen, reader, writer);
    drop(client);
    ended
}

/// The same from what the file had.
fn talk_from<F: Files + AllocGlobal, R: Read, W: Write, S: Screen>(
    keeper: &Keeper<'_, F>,
    client: &mut Client,
    is_new: bool,
    matches: &ArgMatches<'_>,
    screen: &mut S,
    reader: &mut R,
    writer: &mut W,
) -> Result<(), TalkError>
    requires { IsReady client.old }
{
    let alloc = keeper.rt.alloc();
    let mut reader = Framed::new(timed_reader(alloc, matches, reader)?);
    let connect = begins_with(connect_with(alloc, matches)?, is_new);
    let ended = talk_framed(
        keeper,
        client,
        &connect,
        is_new,
        matches,
        screen,
        &mut reader,
        writer,
    );
    drop(connect);
    ended
}

/// The same over frames. It ends the connection, also where the time is over.
fn talk_framed<F: Files + AllocGlobal, R: Read, W: Write, S: Screen>(
    keeper: &Keeper<'_, F>,
    client: &mut Client,
    connect: &Packet,
    is_new: bool,
    matches: &ArgMatches<'_>,
    screen: &mut S,
    reader: &mut Framed<Timed<R>>,
    writer: &mut W,
) -> Result<(), TalkError>
    requires { IsReady client.old }
{
    let alloc = keeper.rt.alloc();
    let task = task_of(alloc, matches, !is_new || matches.get_flag("again"))?;
    let ended = show_kept(keeper, client, connect, task, screen, reader, writer);
    end(alloc, client, ended, &mut reader.reader, writer)
}

/// Opens the connection, takes the session up, subscribes, and shows so many messages. Where none is to be shown, nothing is
/// sent but the Connect, the Subscribe and the Unsubscribe.
fn show_kept<F: Files + AllocGlobal, R: Read, W: Write, S: Screen>(
    keeper: &Keeper<'_, F>,
    client: &mut Client,
    connect: &Packet,
    task: Task,
    screen: &mut S,
    reader: &mut Framed<Timed<R>>,
    writer: &mut W,
) -> Result<(), TalkError>
    requires { IsReady client.old }
    ensures { OnOk result (IsReady client.new) }
{
    let Task {
        wanted,
        unwanted,
        count,
        keep_alive,
    } = task;
    let capabilities = open(client, connect, reader, writer)?;
    let seconds = capabilities.keep_alive.unwrap_or(keep_alive);
    let pings = reader.reader.keep_alive(seconds);
    let _let_go = take_up(client)?;
    keeper.forget(client, 0)?;
    subscribe(client, capabilities, wanted, writer)?;
    let asked = end_others(client, unwanted, writer)?;
    match count {
        Some(count) => receive_kept(keeper, client, screen, count, pings, reader, writer),
        None => {
            reader.reader.keep_alive(0);
            await_kept(client, asked, reader)
        }
    }
}

/// How many messages are shown; None where the program ends once it is subscribed.
fn count_of(matches: &ArgMatches<'_>) -> Option<u64> {
    if matches.get_flag("exit") {
        return None;
    }
    Some(matches.get_one::<u64>("count").unwrap_or(u64::MAX))
}

/// Shows so many messages, and ends the connection, also where the time is over.
fn talk_over<R: Read, W: Write, S: Screen>(
    alloc: Global,
    client: &mut Client,
    connect: &Packet,
    task: Task,
    screen: &mut S,
    reader: &mut Timed<R>,
    writer: &mut W,
) -> Result<(), TalkError>
    requires { IsReady client.old }
{
    let ended = show_all(client, connect, task, screen, reader, writer);
    end(alloc, client, ended, reader, writer)
}

/// Ends the connection of a talk that is done, or whose time is over, and answers how the talk ended.
fn end<R: Read, W: Write>(
    alloc: Global,
    client: &mut Client,
    ended: Result<(), TalkError>,
    reader: &mut Timed<R>,
    writer: &mut W,
) -> Result<(), TalkError>
    requires { OnOk ended (IsReady client.old) }
{
    match ended {
        Ok(()) => {
            close(client, writer)?;
            await_broker(reader)
        }
        Err(trouble) if is_over(&trouble) => {
            leave(alloc, reader, writer);
            Err(trouble)
        }
        Err(trouble) => Err(trouble),
    }
}

/// Sends a Disconnect, and awaits the broker's end for some seconds. What fails then is of no use any more.
fn leave<R: Read, W: Write>(alloc: Global, reader: &mut Timed<R>, writer: &mut W) {
    let mut client = new_client(alloc, 1, true);
    let _ = close(&mut client, writer);
    reader.end_within(GRACE);
    let _ = await_end(reader);
}

/// Opens the connection, subscribes, and shows so many messages.
fn show_all<R: Read, W: Write, S: Screen>(
    client: &mut Client,
    connect: &Packet,
    task: Task,
    screen: &mut S,
    reader: &mut Timed<R>,
    writer: &mut W,
) -> Result<(), TalkError>
    requires { IsReady client.old }
    ensures { OnOk result (IsReady client.new) }
{
    let Task {
        wanted,
        unwanted,
        count,
        keep_alive,
    } = task;
    let capabilities = open(client, connect, reader, writer)?;
    let pings = reader.keep_alive(capabilities.keep_alive.unwrap_or(keep_alive));
    subscribe(client, capabilities, wanted, writer)?;
    let asked = end_others(client, unwanted, writer)?;
    match count {
        Some(count) => receive(client, screen, count, pings, reader, writer),
        None => await_subscribed(client, asked, pings, reader, writer),
    }
}

/// Awaits the broker's end, since where more is on its way it may lose acks with a socket that is closed before.
fn await_broker<R: Read>(reader: &mut Timed<R>) -> Result<(), TalkError> {
    reader.keep_alive(0);
    await_end(reader)
}

/// Ends other subscriptions, and answers how many requests of subscriptions there are then.
fn end_others<W: Write>(
    client: &mut Client,
    unwanted: Option<Unsubscribe>,
    writer: &mut W,
) -> Result<u64, TalkError>
    requires { IsReady client.old }
    ensures { OnOk result (IsReady client.new) }
{
    match unwanted {
        Some(unwanted) => {
            unsubscribe(client, unwanted, writer)?;
            Ok(2)
        }
        None => Ok(1),
    }
}

/// The Subscribe that the words ask for.
fn subscribe_of(
    alloc: Global,
    matches: &ArgMatches<'_>,
    is_again: bool,
) -> Result<Subscribe, Error> {
    let mut filters = Sequence::new(alloc);
    let rule = rule_of(is_again);
    add_filters(alloc, matches, "filters", rule, &mut filters)?;
    add_filters(alloc, matches, "topic", rule, &mut filters)?;
    let properties = properties_of::<SubscribeProperties>(alloc, matches, "subscribe")?;
    Ok(Subscribe {
        pkid: 0,
        filters,
        properties,
    })
}

/// Adds a filter for each word under this id.
fn add_filters(
    alloc: Global,
    matches: &ArgMatches<'_>,
    id: &str,
    rule: RetainForwardRule,
    filters: &mut Sequence<Filter>,
) -> Result<(), Error> {
    let Some(paths) = matches.get_strs(id) else {
        return Ok(());
    };
    let quality = quality_of(matches, "qos");
    for path in paths {
        let mut filter = Filter::new(alloc, path, quality)?;
        filter.retain_forward_rule = rule;
        filters.push(filter)?;
    }
    Ok(())
}

/// Which retained messages come: where the subscriptions were asked for before, those alone of one that is new
/// (3.8.3.1).
fn rule_of(is_again: bool) -> RetainForwardRule {
    if is_again {
        RetainForwardRule::OnNewSubscribe
    } else {
        RetainForwardRule::OnEverySubscribe
    }
}

/// The Unsubscribe that the words ask for, where they do.
fn unsubscribe_of(alloc: Global, matches: &ArgMatches<'_>) -> Result<Option<Unsubscribe>, Error> {
    let Some(paths) = matches.get_strs("unsubscribe") else {
        return Ok(None);
    };
    let mut filters = Sequence::new(alloc);
    for path in paths {
        filters.push(Text::from_str(alloc, path)?)?;
    }
    let properties = properties_of::<UnsubscribeProperties>(alloc, matches, "unsubscribe")?;
    Ok(Some(Unsubscribe {
        pkid: 0,
        filters,
        properties,
    }))
}
