//! The broker's bytes with the seconds that pass beside them.

ghost use Rattle.std.specs.Io.{ReadsAtMost};

use clap::ArgMatches;
use mqtt5_pipe::PipeError;
use mqtt5_talk::TalkError;
use std::alloc::Global;
use std::io;
use std::io::{BufReader, ErrorKind, Read};

/// How many bytes are read at once.
const ROOM: usize = 65_536;

/// How many bytes a head has: how many bytes stand behind it, high byte first. One of 0 says that a second has passed.
pub const HEAD: usize = 2;

/// How many bytes stand behind a head at most: with it they are no more than a pipe takes at once (PIPE_BUF of Linux), so that
/// another may write heads of 0 into the same pipe.
pub const MOST: usize = 4094;

/// The head of the end.
pub const END: u16 = u16::MAX;

/// A reader of bytes; of bytes in chunks, where it also says when a ping is due (`WouldBlock`), and when the time is over
/// (`TimedOut`).
#[derive(Drop)]
pub struct Timed<R> {
    reader: R,
    /// Whether the bytes stand in chunks.
    in_chunks: bool,
    /// How many bytes of a chunk are unread.
    left: usize,
    is_at_end: bool,
    /// How many seconds passed.
    now: u64,
    /// After how many seconds a ping is due; none where it is 0.
    period: u64,
    /// When the last one was.
    pinged: u64,
    /// When the time is over.
    end: u64,
}

/// The broker's bytes as the words say that they come. Err for want of memory.
pub fn timed_reader<'r, R: Read>(
    alloc: Global,
    matches: &ArgMatches<'_>,
    reader: &'r mut R,
) -> Result<Timed<BufReader<&'r mut R>>, TalkError> {
    let reader = match BufReader::with_capacity(alloc, ROOM, reader) {
        Ok(reader) => reader,
        Err(error) => return Err(TalkError::Failed(PipeError::Read(error))),
    };
    if !matches.get_flag("chunks") {
        return Ok(Timed::plain(reader));
    }
    let limit = matches.get_one::<u64>("limit").unwrap_or(u64::MAX);
    Ok(Timed::in_chunks(reader, limit))
}

impl<R: Read> Timed<R> {
    /// The bytes of a reader, without time.
    pub fn plain(reader: R) -> Timed<R> {
        Timed::new(reader, false, u64::MAX)
    }

    /// Those of its chunks, for so many seconds.
    pub fn in_chunks(reader: R, limit: u64) -> Timed<R> {
        Timed::new(reader, true, limit)
    }

    fn new(reader: R, in_chunks: bool, end: u64) -> Timed<R> {
        Timed {
            reader,
            in_chunks,
            left: 0,
            is_at_end: false,
            now: 0,
            period: 0,
            pinged: 0,
            end,
        }
    }

    /// A ping is due from now on each time that three quarters of a keep alive have passed, and none where that is 0 or there is
    /// no time. Answers whether any is.
    pub fn keep_alive(&mut self, seconds: u16) -> bool {
        let seconds = seconds as u64;
        self.period = seconds.saturating_sub(seconds / 4);
        self.pinged = self.now;
        self.in_chunks && self.period > 0
    }

    /// No ping is due any more, and the time is over after so many seconds.
    pub fn end_within(&mut self, seconds: u64) {
        self.period = 0;
        self.end = self.now.saturating_add(seconds);
    }

    /// A second has passed.
    fn tick(&mut self) -> io::Result<()> {
        self.now = self.now.saturating_add(1);
        if self.now >= self.end {
            return Err(ErrorKind::TimedOut.into());
        }
        if self.period > 0 && self.now.saturating_sub(self.pinged) >= self.period {
            self.pinged = self.now;
            return Err(ErrorKind::WouldBlock.into());
        }
        Ok(())
    }

    /// Reads a head, and the seconds before it. Where the bytes end, there is no more.
    fn read_head(&mut self) -> io::Result<()> {
        let mut head = [0; HEAD];
        match self.reader.read_exact(&mut head) {
            Ok(()) => {}
            Err(error) if error.kind() == ErrorKind::UnexpectedEof => {
                self.is_at_end = true;
                return Ok(());
            }
            Err(error) => return Err(error),
        }
        match u16::from_be_bytes(head) {
            0 => return self.tick(),
            END => self.is_at_end = true,
            count => self.left = count as usize,
        }
        Ok(())
    }

    fn read_chunk(&mut self, buf: &mut [u8]) -> io::Result<usize>
        ensures { ReadsAtMost result buf.new }
    {
        let most = self.left.min(buf.len());
        let count = self.reader.read(&mut buf[..most])?;
        self.left = self.left.saturating_sub(count);
        self.is_at_end = count == 0;
        Ok(count)
    }
}

impl<R: Read> Read for Timed<R> {
    fn read(&mut self, buf: &mut [u8]) -> io::Result<usize> {
        if !self.in_chunks {
            return self.reader.read(buf);
        }
        for _ in 0..u64::MAX {
            if self.is_at_end || buf.is_empty() {
                return Ok(0);
            }
            if self.left > 0 {
                return self.read_chunk(buf);
            }
            self.read_head()?;
        }
        Err(ErrorKind::TimedOut.into())
    }
}
