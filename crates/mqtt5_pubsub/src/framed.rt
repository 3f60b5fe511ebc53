//! A reader that ends each read with a frame, so that a client takes one packet at a time.

ghost use Rattle.std.specs.Io.{ReadsAtMost};

use std::io;
use std::io::Read;

/// How many bytes say a frame's length at most (MQTT 5.0 section 1.5.5).
const DIGITS: u32 = 4;

/// A reader of frames: no read goes beyond the end of one.
#[derive(Drop)]
pub(super) struct Framed<R> {
    pub(super) reader: R,
    /// How many bytes of the frame's head were read.
    head: u32,
    /// How many bytes of the frame follow its head.
    left: usize,
    /// What the next byte of the length counts.
    factor: usize,
    /// The frame's first byte.
    kind: u8,
    /// How many bytes behind the head were read.
    body: usize,
    /// How many bytes the topic has, where the frame is a message.
    topic: usize,
    /// The first byte of a number of two.
    high: u8,
    /// The packet identifier, where the frame is a message of QoS 1 or 2.
    id: u16,
    /// That of the last frame that was read whole, where it is a message of QoS 2.
    came: Option<u16>,
}

impl<R: Read> Framed<R> {
    /// The frames of a reader, which stands before one.
    pub(super) fn new(reader: R) -> Framed<R> {
        Framed {
            reader,
            head: 0,
            left: 0,
            factor: 1,
            kind: 0,
            body: 0,
            topic: 0,
            high: 0,
            id: 0,
            came: None,
        }
    }

    /// The packet identifier of the frame that was read last, where it is whole and a message of QoS 2; it is told but once.
    pub(super) fn take_came(&mut self) -> Option<u16> {
        self.came.take()
    }

    /// Whether the head of a frame is read, or its end.
    fn is_in_head(&self) -> bool {
        self.left == 0 || self.head > 0
    }

    /// Notes a byte of the head: the packet's type, or one of the length (2.1.4).
    fn note(&mut self, byte: u8) {
        if self.head == 0 {
            self.head = 1;
            self.left = 0;
            self.factor = 1;
            self.kind = byte;
            self.body = 0;
            return;
        }
        let digit = (byte & 127) as usize;
        self.left = self.left.saturating_add(digit.saturating_mul(self.factor));
        self.factor = self.factor.saturating_mul(128);
        if byte < 128 || self.head >= DIGITS {
            self.head = 0;
        } else {
            self.head += 1;
        }
    }

    /// Notes what is read behind the head: the topic's length, the topic, and the packet identifier (3.3.2).
    fn note_body(&mut self, bytes: &[u8]) {
        for byte in bytes {
            self.note_at(*byte);
        }
        if self.left == 0 && self.kind & 0xf6 == 0x34 {
            self.came = Some(self.id);
        }
    }

    fn note_at(&mut self, byte: u8) {
        let number = u16::from_be_bytes([self.high, byte]);
        if self.body == 1 {
            self.topic = number as usize;
        } else if self.body == self.topic.saturating_add(3) {
            self.id = number;
        }
        self.high = byte;
        self.body = self.body.saturating_add(1);
    }

    /// Reads one byte of the head.
    fn read_head(&mut self, buf: &mut [u8]) -> io::Result<usize>
        ensures { ReadsAtMost result buf.new }
    {
        let most = buf.len().min(1);
        let count = self.reader.read(&mut buf[..most])?;
        if count > 0 {
            self.note(buf[0]);
        }
        Ok(count)
    }
}

impl<R: Read> Read for Framed<R> {
    fn read(&mut self, buf: &mut [u8]) -> io::Result<usize> {
        if self.is_in_head() {
            return self.read_head(buf);
        }
        let most = self.left.min(buf.len());
        let count = self.reader.read(&mut buf[..most])?;
        self.left = self.left.saturating_sub(count);
        self.note_body(&buf[..count]);
        Ok(count)
    }
}
