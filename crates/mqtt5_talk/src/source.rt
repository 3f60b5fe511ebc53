//! Where messages come from.

ghost use Rattle.std.specs.Prelude.{◌≡◌, IfOk};
ghost use Rattle.std.specs.Io.Buffered.{reader_remaining};
ghost use Rattle.std.specs.Io.BufRead.{strip_last};
ghost use Rattle.mqtt5_talk.specs.Sources.{message_of, GivesLine, unread};

use crate::error::TalkError;
use bytes::Bytes;
use mqtt5_base::{Error, QoS};
use mqtt5_publish::Publish;
use std::alloc::Global;
use std::io;
use std::io::{BufRead, BufReader, Read};

/// Where messages come from, one after another.
pub trait Source {
    ghost use Rattle.std.specs.Prelude.{IfOk, Option};
    ghost use Rattle.mqtt5_publish.specs.declared.publish.Publish.{Publish as Message};

    ghost gives: { Self → Option Message → Self → Type 0 };

    /// Whether the next message may have to be waited for. All that was sent is then delivered before it is asked for.
    fn is_late(&self) -> bool;

    /// The next message, which is sent under this packet identifier where its QoS is 1 or 2; None behind the last.
    fn next(&mut self, pkid: u16) -> Result<Option<Publish>, TalkError>
        ensures { IfOk result (λ message. gives self.old message self.new) };
}

/// What messages have alike.
#[derive(Clone, Copy)]
pub struct Heading<'a> {
    pub topic: &'a str,
    pub qos: QoS,
    /// Whether the broker retains them.
    pub retain: bool,
}

impl Heading<'_> {
    /// The message of a payload. E21.
    pub fn message(self, alloc: Global, payload: &[u8]) -> Result<Publish, Error>
        ensures { IfOk result (λ message. message ≡ message_of self.entry payload.now) }
    {
        let payload = Bytes::copy_from_slice(alloc, payload)?;
        let mut message = Publish::new(alloc, self.topic, self.qos, payload, None)?;
        message.retain = self.retain;
        Ok(message)
    }
}

/// How many bytes of lines are read at once.
const ROOM: usize = 65_536;

/// The lines of a reader, each the payload of a message, without its newline; behind the last newline stands no line. It is
/// late where no newline was read yet.
#[derive(Drop)]
pub struct LineSource<'a, R> {
    pub alloc: Global,
    pub heading: Heading<'a>,
    pub reader: BufReader<R>,
    /// How many lines were taken.
    count: u64,
    /// Which line was taken last under each packet identifier.
    places: Vec<u64>,
}

impl<'a, R: Read + Drop> LineSource<'a, R> {
    /// The lines of a reader, for a client of so many packet identifiers. Err for want of memory.
    pub fn new(
        alloc: Global,
        heading: Heading<'a>,
        limit: u16,
        reader: R,
    ) -> io::Result<LineSource<'a, R>>
        ensures unread { IfOk result (λ lines. unread R.remaining lines ≡ R.remaining reader) }
        ensures heading { IfOk result (λ lines. lines.heading ≡ heading.entry) }
    {
        let reader = BufReader::with_capacity(alloc, ROOM, reader)?;
        let mut places = Vec::new(alloc);
        places.resize(limit as usize + 1, 0)?;
        Ok(LineSource {
            alloc,
            heading,
            reader,
            count: 0,
            places,
        })
    }

    /// How many lines were taken.
    pub fn count(&self) -> u64 {
        self.count
    }

    /// Which line, counted from 1, was taken last under a packet identifier; 0 where none was.
    pub fn line_of(&self, pkid: u16) -> u64 {
        match self.places.get(pkid as usize) {
            Some(place) => *place,
            None => 0,
        }
    }

    /// A line is taken under this packet identifier.
    fn note(&mut self, pkid: u16)
        ensures { (self.new.heading ≡ self.old.heading) × (self.new.reader ≡ self.old.reader)
            × (self.new.alloc ≡ self.old.alloc) }
    {
        self.count = self.count.saturating_add(1);
        if let Some(place) = self.places.get_mut(pkid as usize) {
            *place = self.count;
        }
    }
}

impl<R: Read + Drop> Source for LineSource<'_, R> {
    ghost gives = { λ old message new. (new.heading ≡ old.heading) × GivesLine old.heading (unread R.remaining old) (unread R.remaining new) message };

    fn is_late(&self) -> bool {
        !self.reader.buffer().iter().any(|byte| *byte == b'\n')
    }

    fn next(&mut self, pkid: u16) -> Result<Option<Publish>, TalkError> {
        let mut line = Vec::new(self.alloc);
        match self.reader.read_until(b'\n', &mut line) {
            Ok(0) => return Ok(None),
            Ok(_count) => {}
            Err(error) => return Err(TalkError::Unread(error)),
        }
        self.note(pkid);
        let payload = without_newline(line.as_slice());
        Ok(Some(self.heading.message(self.alloc, payload)?))
    }
}

/// A line without its newline.
fn without_newline(line: &[u8]) -> &[u8]
    ensures { result.now ≡ strip_last 10 line.now }
{
    let length = line.len();
    if length > 0 && line[length - 1] == b'\n' {
        return &line[..length - 1];
    }
    line
}
