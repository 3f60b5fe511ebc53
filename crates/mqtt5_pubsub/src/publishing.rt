//! A client that publishes: what it does with the words after `pub`, its input and its output.

ghost use Rattle.std.specs.Prelude.{◌≡◌, ◌<◌, ◌⊎◌, OnOk, IfErr};
ghost use Rattle.mqtt5_client.specs.Client.{IsReady};

use crate::ending::{status_of, tell_end};
use crate::keeping::{Keeper, Start, begins_with};
use crate::kept_publishing::{Once, publish_kept, skip};
use crate::kept_talk::take_up;
use crate::properties::{WithProperties, connect_with, copy_of, properties_of, refuses_properties};
use crate::timed::{Timed, timed_reader};
use crate::words::{keep_alive_in, parse_pub, refuses_texts, refuses_time, refuses_topic};
use clap::ArgMatches;
use mqtt5_client::{Client, StateError};
use mqtt5_codec::Packet;
use mqtt5_pipe::PipeError;
use mqtt5_publish::{Publish, PublishProperties};
use mqtt5_talk::{
    Capabilities, Heading, LineSource, Source, TalkError, close, new_client, open, publish,
    publish_all, quality_of, refuse,
};
use std::alloc::Global;
use std::io::{Read, Write};
use std::rt::Files;
use std::{fs, io};

/// How many messages of QoS 1 and 2 are sent ahead of their acks at most, where the words don't say it.
const WINDOW: u16 = 20;

/// What is published, and how.
#[derive(Clone, Copy)]
struct Task<'a> {
    alloc: Global,
    heading: Heading<'a>,
    window: u16,
    /// The keep alive that is asked for, in seconds.
    keep_alive: u16,
}

/// What is published: the bytes of one message, or each line of a file.
#[derive(Drop)]
enum Content<F> {
    Message(Vec<u8>),
    Lines(F),
}

/// Why publishing stops.
#[derive(Debug, Drop, thiserror::Error)]
enum Stop {
    /// At this line.
    #[error("line {0}: {1}")]
    AtLine(u64, TalkError),
    #[error("{0}")]
    Elsewhere(TalkError),
}

/// Publishes, and answers the exit status: 0; 1 after a fault, 3 after one that another connection may mend; 2 where the
/// words are refused. The log tells why.
pub fn run<F: Files + AllocGlobal, R: Read, W: Write, E: Write>(
    rt: &F,
    words: &[String],
    reader: &mut R,
    writer: &mut W,
    log: &mut E,
) -> u8
    ensures { (result < 4) ⊎ (result ≡ 27) }
{
    match parse_pub(rt.alloc(), words) {
        Ok(matches) => run_matches(rt, &matches, reader, writer, log),
        Err(error) => refuse(&error, log),
    }
}

fn run_matches<F: Files + AllocGlobal, R: Read, W: Write, E: Write>(
    rt: &F,
    matches: &ArgMatches<'_>,
    reader: &mut R,
    writer: &mut W,
    log: &mut E,
) -> u8
    ensures { (result < 4) ⊎ (result ≡ 27) }
{
    let heading = Heading {
        topic: matches.get_str("topic").unwrap_or(""),
        qos: quality_of(matches, "qos"),
        retain: matches.get_flag("retain"),
    };
    if let Err(status) = check_words(rt.alloc(), matches, heading.topic, log) {
        return status;
    }
    let task = Task {
        alloc: rt.alloc(),
        heading,
        window: window_of(matches),
        keep_alive: keep_alive_in(matches),
    };
    let content = match content_of(rt, matches) {
        Ok(content) => content,
        Err(error) => {
            let _ = writeln!(log, "error: the file can't be read: {error}");
            return 1;
        }
    };
    match talk(rt, task, matches, content, reader, writer) {
        Ok(()) => 0,
        Err(stop) => {
            let status = status_of(stop.trouble());
            tell_end(&stop, status, log)
        }
    }
}

/// The status 2 of words that are refused, of which the log tells.
fn check_words<E: Write>(
    alloc: Global,
    matches: &ArgMatches<'_>,
    topic: &str,
    log: &mut E,
) -> Result<(), u8>
    ensures { IfErr result (λ status. status ≡ 2) }
{
    if refuses_texts(matches, log)
        || refuses_topic(topic, log)
        || refuses_time(matches, log)
        || refuses_properties(alloc, matches, &commands_of(matches), log)
    {
        return Err(2);
    }
    Ok(())
}

/// The packets whose properties the words may say.
fn commands_of(matches: &ArgMatches<'_>) -> [&'static str; 3] {
    if matches.get_str("will-topic").is_some() {
        ["connect", "publish", "will"]
    } else {
        ["connect", "publish", "publish"]
    }
}

/// How many messages are sent ahead of their acks at most.
fn window_of(matches: &ArgMatches<'_>) -> u16
    ensures { 0 < result }
{
    match matches.get_one::<u16>("window") {
        Some(window) => window.max(1),
        None => WINDOW,
    }
}

/// The message, or the file, which is read only where it is a message.
fn content_of<F: Files + AllocGlobal>(
    rt: &F,
    matches: &ArgMatches<'_>,
) -> io::Result<Content<F::File>> {
    match matches.get_str("file") {
        Some(file) if matches.get_flag("lines") => Ok(Content::Lines(fs::open(rt, file)?)),
        Some(file) => Ok(Content::Message(fs::read(rt, file)?)),
        None => {
            let message = matches.get_str("message").unwrap_or("");
            Ok(Content::Message(Vec::from_slice(rt.alloc(), message.as_bytes())?))
        }
    }
}

fn talk<F: Files + AllocGlobal, C: Read + Drop, R: Read, W: Write>(
    rt: &F,
    task: Task<'_>,
    matches: &ArgMatches<'_>,
    content: Content<C>,
    reader: &mut R,
    writer: &mut W,
) -> Result<(), Stop>
    requires { 0 < task.window }
{
    let properties = properties_of::<PublishProperties>(task.alloc, matches, "publish")?;
    let ended = match matches.get_str("store") {
        Some(path) => {
            let keeper = Keeper { rt, path };
            talk_kept(&keeper, task, matches, content, &properties, reader, writer)
        }
        None => talk_with(task, matches, content, &properties, reader, writer),
    };
    drop(properties);
    ended
}

fn talk_with<F: Read + Drop, R: Read, W: Write>(
    task: Task<'_>,
    matches: &ArgMatches<'_>,
    content: Content<F>,
    properties: &Option<PublishProperties>,
    reader: &mut R,
    writer: &mut W,
) -> Result<(), Stop>
    requires { 0 < task.window }
{
    let connect = connect_with(task.alloc, matches)?;
    let mut reader = timed_reader(task.alloc, matches, reader)?;
    let mut client = new_client(task.alloc, task.window, false);
    let ended = talk_over(
        &mut client,
        &connect,
        task,
        content,
        properties,
        &mut reader,
        writer,
    );
    drop(client);
    drop(connect);
    ended
}

/// Publishes with the session of a file, in which it is kept.
fn talk_kept<F: Files + AllocGlobal, C: Read + Drop, R: Read, W: Write>(
    keeper: &Keeper<'_, F>,
    task: Task<'_>,
    matches: &ArgMatches<'_>,
    content: Content<C>,
    properties: &Option<PublishProperties>,
    reader: &mut R,
    writer: &mut W,
) -> Result<(), Stop>
    requires { 0 < task.window }
{
    match keeper.begin(task.window, false) {
        Ok(beginning) => {
            let start = beginning.start;
            let mut client = beginning.client;
            let ended = talk_from(
                keeper,
                &mut client,
                start,
                task,
                matches,
                content,
                properties,
                reader,
                writer,
            );
            drop(client);
            ended
        }
        Err(trouble) => {
            drop(content);
            Err(Stop::Elsewhere(trouble))
        }
    }
}

/// The same from what the file had. That no message is taken is kept last of all: so a start after a fault publishes none anew.
fn talk_from<F: Files + AllocGlobal, C: Read + Drop, R: Read, W: Write>(
    keeper: &Keeper<'_, F>,
    client: &mut Client,
    start: Start,
    task: Task<'_>,
    matches: &ArgMatches<'_>,
    content: Content<C>,
    properties: &Option<PublishProperties>,
    reader: &mut R,
    writer: &mut W,
) -> Result<(), Stop>
    requires { IsReady client.old }
{
    let mut reader = timed_reader(task.alloc, matches, reader)?;
    match open_kept(keeper, client, start, task, matches, &mut reader, writer) {
        Ok(opened) => {
            publish_content(
                keeper,
                client,
                opened,
                task,
                content,
                properties,
                start.taken,
                &mut reader,
                writer,
            )?;
            close(client, writer)?;
            keeper.forget(client, 0)?;
            Ok(())
        }
        Err(trouble) => {
            drop(content);
            Err(Stop::Elsewhere(trouble))
        }
    }
}

/// What a broker takes, and whether pings are due.
#[derive(Clone, Copy)]
struct Opened {
    capabilities: Capabilities,
    pings: bool,
}

/// Opens the connection, and takes the session up.
fn open_kept<F: Files + AllocGlobal, R: Read, W: Write>(
    keeper: &Keeper<'_, F>,
    client: &mut Client,
    start: Start,
    task: Task<'_>,
    matches: &ArgMatches<'_>,
    reader: &mut Timed<R>,
    writer: &mut W,
) -> Result<Opened, TalkError>
    requires { IsReady client.old }
    ensures { OnOk result (IsReady client.new) }
{
    let connect = begins_with(connect_with(task.alloc, matches)?, start.is_new);
    let opened = open(client, &connect, reader, writer);
    drop(connect);
    let capabilities = opened?;
    let pings = reader.keep_alive(capabilities.keep_alive.unwrap_or(task.keep_alive));
    let let_go = take_up(client)?;
    if let_go > 0 {
        keeper.forget(client, start.taken)?;
        return Err(TalkError::LetGo(let_go));
    }
    Ok(Opened {
        capabilities,
        pings,
    })
}

/// Publishes what is left of the content.
fn publish_content<F: Files + AllocGlobal, C: Read + Drop, R: Read, W: Write>(
    keeper: &Keeper<'_, F>,
    client: &mut Client,
    opened: Opened,
    task: Task<'_>,
    content: Content<C>,
    properties: &Option<PublishProperties>,
    taken: u64,
    reader: &mut Timed<R>,
    writer: &mut W,
) -> Result<(), Stop>
    requires { IsReady client.old }
    ensures { OnOk result (IsReady client.new) }
{
    match content {
        Content::Message(bytes) => {
            let message = message_with(task, bytes.as_slice(), properties);
            drop(bytes);
            publish_once(keeper, client, opened, message?, taken, reader, writer)?;
            Ok(())
        }
        Content::Lines(file) => publish_rest(
            keeper, client, opened, task, file, properties, taken, reader, writer,
        ),
    }
}

/// Publishes a message, unless it was taken.
fn publish_once<F: Files + AllocGlobal, R: Read, W: Write>(
    keeper: &Keeper<'_, F>,
    client: &mut Client,
    opened: Opened,
    message: Publish,
    taken: u64,
    reader: &mut Timed<R>,
    writer: &mut W,
) -> Result<(), TalkError>
    requires { IsReady client.old }
    ensures { OnOk result (IsReady client.new) }
{
    let mut source = Once {
        message: Some(message),
    };
    publish_from(keeper, client, opened, &mut source, taken, reader, writer)
}

/// Publishes the lines behind those that were taken.
fn publish_rest<F: Files + AllocGlobal, C: Read + Drop, R: Read, W: Write>(
    keeper: &Keeper<'_, F>,
    client: &mut Client,
    opened: Opened,
    task: Task<'_>,
    file: C,
    properties: &Option<PublishProperties>,
    taken: u64,
    reader: &mut Timed<R>,
    writer: &mut W,
) -> Result<(), Stop>
    requires { IsReady client.old }
    ensures { OnOk result (IsReady client.new) }
{
    let limit = client.state.numbers().limit;
    let source = lines_of(task, limit, file)?;
    let mut lines = WithProperties { source, properties };
    let ended = publish_from(keeper, client, opened, &mut lines, taken, reader, writer);
    match ended {
        Ok(()) => Ok(()),
        Err(trouble) => Err(stop_at(trouble, &lines.source)),
    }
}

/// Publishes the messages of a source, but so many.
fn publish_from<F: Files + AllocGlobal, R: Read, W: Write, S: Source>(
    keeper: &Keeper<'_, F>,
    client: &mut Client,
    opened: Opened,
    source: &mut S,
    taken: u64,
    reader: &mut Timed<R>,
    writer: &mut W,
) -> Result<(), TalkError>
    requires { IsReady client.old }
    ensures { OnOk result (IsReady client.new) }
{
    skip(source, taken)?;
    publish_kept(
        keeper,
        client,
        opened.capabilities,
        source,
        taken,
        opened.pings,
        reader,
        writer,
    )
}

fn talk_over<F: Read + Drop, R: Read, W: Write>(
    client: &mut Client,
    connect: &Packet,
    task: Task<'_>,
    content: Content<F>,
    properties: &Option<PublishProperties>,
    reader: &mut Timed<R>,
    writer: &mut W,
) -> Result<(), Stop>
    requires { IsReady client.old }
{
    let capabilities = open(client, connect, reader, writer)?;
    let pings = reader.keep_alive(capabilities.keep_alive.unwrap_or(task.keep_alive));
    match content {
        Content::Message(bytes) => publish_one(
            client,
            capabilities,
            task,
            bytes.as_slice(),
            properties,
            pings,
            reader,
            writer,
        )?,
        Content::Lines(file) => publish_lines(
            client,
            capabilities,
            task,
            file,
            properties,
            pings,
            reader,
            writer,
        )?,
    }
    close(client, writer)?;
    Ok(())
}

fn publish_one<R: Read, W: Write>(
    client: &mut Client,
    capabilities: Capabilities,
    task: Task<'_>,
    payload: &[u8],
    properties: &Option<PublishProperties>,
    pings: bool,
    reader: &mut Timed<R>,
    writer: &mut W,
) -> Result<(), TalkError>
    requires { IsReady client.old }
    ensures { OnOk result (IsReady client.new) }
{
    let message = message_with(task, payload, properties)?;
    publish(client, capabilities, message, pings, reader, writer)
}

/// The message of a payload, with these properties.
fn message_with(
    task: Task<'_>,
    payload: &[u8],
    properties: &Option<PublishProperties>,
) -> Result<Publish, TalkError> {
    let mut message = task.heading.message(task.alloc, payload)?;
    message.properties = copy_of(properties)?;
    Ok(message)
}

/// While a line is waited for no ping is sent.
fn publish_lines<F: Read + Drop, R: Read, W: Write>(
    client: &mut Client,
    capabilities: Capabilities,
    task: Task<'_>,
    file: F,
    properties: &Option<PublishProperties>,
    pings: bool,
    reader: &mut Timed<R>,
    writer: &mut W,
) -> Result<(), Stop>
    requires { IsReady client.old }
    ensures { OnOk result (IsReady client.new) }
{
    let source = lines_of(task, task.window, file)?;
    let mut lines = WithProperties { source, properties };
    let ended = publish_all(client, capabilities, &mut lines, pings, reader, writer);
    match ended {
        Ok(()) => Ok(()),
        Err(trouble) => Err(stop_at(trouble, &lines.source)),
    }
}

/// The lines of a file, for a client of so many packet identifiers.
fn lines_of<F: Read + Drop>(
    task: Task<'_>,
    limit: u16,
    file: F,
) -> Result<LineSource<'_, F>, TalkError> {
    match LineSource::new(task.alloc, task.heading, limit, file) {
        Ok(lines) => Ok(lines),
        Err(error) => Err(TalkError::Unread(error)),
    }
}

/// The trouble with its line, where it has one.
fn stop_at<F: Read + Drop>(trouble: TalkError, lines: &LineSource<'_, F>) -> Stop {
    match line_at(&trouble, lines) {
        0 => Stop::Elsewhere(trouble),
        line => Stop::AtLine(line, trouble),
    }
}

/// The line of a trouble, counted from 1; 0 where it has none, as one of a message that an earlier start took.
fn line_at<F: Read + Drop>(trouble: &TalkError, lines: &LineSource<'_, F>) -> u64 {
    match trouble {
        TalkError::NotPublished { pkid, .. } => lines.line_of(*pkid),
        TalkError::Forbidden(_) => lines.count(),
        TalkError::Failed(PipeError::Session(StateError::OutgoingPacketTooLarge { .. })) => {
            lines.count()
        }
        _other => 0,
    }
}

impl Stop {
    /// Why, without the line.
    fn trouble(&self) -> &TalkError {
        match self {
            Stop::AtLine(_, trouble) | Stop::Elsewhere(trouble) => trouble,
        }
    }
}

impl From<TalkError> for Stop {
    fn from(trouble: TalkError) -> Stop {
        Stop::Elsewhere(trouble)
    }
}

impl From<mqtt5_base::Error> for Stop {
    fn from(error: mqtt5_base::Error) -> Stop {
        Stop::Elsewhere(TalkError::from(error))
    }
}
