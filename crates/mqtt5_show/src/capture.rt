//! A stream of frames that is shown as it comes, in memory that doesn't grow with it.

ghost use Rattle.std.specs.Prelude.{◌≡◌, ◌<◌, ◌++◌, ℕ, List, [], None, IsTrue, IfOk, OnOk, false, true, IsSome, length, take};
ghost use Rattle.std.specs.Io.{ReadsAtMost};
ghost use Rattle.std.specs.Io.KnownBytes.{Consumes, IsAtEnd};
ghost use Rattle.mqtt5_base.specs.Front.{NeedsMore};
ghost use Rattle.mqtt5_base.specs.FrontAt.{front};
ghost use Rattle.mqtt5_codec.specs.declared.packet.Packet.{Packet};
ghost use Rattle.mqtt5_show.specs.Shown.{ShowsAll, ShowsOne, ShowsFrames};

use crate::digits::Digits;
use crate::ending::Stop;
use crate::screen::Screen;
use crate::words::Asked;
use bytes::BytesMut;
use mqtt5_base::{Error, check};
use mqtt5_codec::Codec;
use std::alloc::Global;
use std::io;
use std::io::{ErrorKind, Read};

/// How many bytes are read at once.
const PIECE: usize = 8192;

/// What is read of a stream and not shown.
#[derive(Drop)]
pub struct Capture {
    codec: Codec,
    /// The bytes behind the last frame that was shown.
    stream: BytesMut,
    /// How many bytes came before them.
    offset: u64,
    /// Of an input of digits, the byte that isn't whole yet.
    digits: Option<Digits>,
}

impl Capture {
    /// One of which nothing is read. Takes no memory.
    pub fn new(alloc: Global, asked: Asked) -> Capture
        ensures empty { result.stream.items ≡ [] }
        ensures limit { result.codec.max_incoming_size ≡ asked.limit }
        ensures digits { asked.hex ≡ false → result.digits ≡ None }
        ensures hex { asked.hex ≡ true → IsSome result.digits }
    {
        Capture {
            codec: Codec {
                max_incoming_size: asked.limit,
                max_outgoing_size: None,
            },
            stream: BytesMut::new(alloc),
            offset: 0,
            digits: if asked.hex { Some(Digits::new()) } else { None },
        }
    }

    /// How many bytes the frames have that were shown, or the greatest `u64` where they are more.
    pub fn offset(&self) -> u64 {
        self.offset
    }

    /// Reads to the end, and shows each packet.
    pub fn show_all<R: Read, S: Screen>(
        &mut self,
        input: &mut R,
        screen: &mut S,
    ) -> Result<(), Stop>
        // After Ok the whole input, where it isn't digits, was frames, and the packet of each was
        // shown, in order.
        ensures { OnOk result (self.old.digits ≡ None → (came : List ℕ) × (ps : List Packet)
            × Consumes (R.remaining input.old) (R.remaining input.new) came
            × IsAtEnd (R.remaining input.new)
            × ShowsAll S.shows self.old.codec.max_incoming_size (self.old.stream.items ++ came)
            screen.old ps [] screen.new) }
    {
        for _ in 0..u64::MAX {
            if !self.show_piece(input, screen)? {
                self.end()?;
                return Ok(());
            }
        }
        Err(Stop::Unread(ErrorKind::TimedOut.into()))
    }

    /// Reads once, and shows the packets of the frames that are whole then. Whether there was
    /// anything to read.
    fn show_piece<R: Read, S: Screen>(
        &mut self,
        input: &mut R,
        screen: &mut S,
    ) -> Result<bool, Stop>
        ensures shown { IfOk result (λ more. self.old.digits ≡ None
            → (came : List ℕ) × (ps : List Packet)
            × Consumes (R.remaining input.old) (R.remaining input.new) came
            × (more ≡ false → IsAtEnd (R.remaining input.new))
            × ShowsAll S.shows self.old.codec.max_incoming_size (self.old.stream.items ++ came)
            screen.old ps self.new.stream.items screen.new) }
        ensures digits { self.old.digits ≡ None → self.new.digits ≡ None }
        ensures waits { OnOk result
            (NeedsMore (front self.new.codec.max_incoming_size self.new.stream.items)) }
        ensures codec { self.new.codec ≡ self.old.codec }
    {
        let mut buffer = [0u8; PIECE];
        let count = match read_once(input, &mut buffer) {
            Ok(count) => count,
            Err(error) => return Err(Stop::Unread(error)),
        };
        let taken = self.take_piece(&buffer[..count]);
        self.show_frames(screen)?;
        taken?;
        Ok(count != 0)
    }

    /// Appends a piece of the input.
    fn take_piece(&mut self, piece: &[u8]) -> Result<(), Stop>
        ensures bytes { OnOk result (self.old.digits ≡ None
            → self.new.stream.items ≡ self.old.stream.items ++ piece.now) }
        ensures digits { self.old.digits ≡ None → self.new.digits ≡ None }
        ensures codec { self.new.codec ≡ self.old.codec }
    {
        match &mut self.digits {
            Some(digits) => digits.append(piece, &mut self.stream),
            None => Ok(self.stream.extend_from_slice(piece)?),
        }
    }

    /// Shows the packets of the whole frames at the front, and lets them go.
    fn show_frames<S: Screen>(&mut self, screen: &mut S) -> Result<(), Stop>
        ensures shown { ShowsFrames S.shows self.old.codec.max_incoming_size result
            self.old.stream.items screen.old self.new.stream.items screen.new }
        ensures codec { self.new.codec ≡ self.old.codec }
        ensures digits { self.new.digits ≡ self.old.digits }
    {
        while self.show_frame(screen)? {}
        Ok(())
    }

    /// The same of the first frame. Whether it is whole.
    fn show_frame<S: Screen>(&mut self, screen: &mut S) -> Result<bool, Stop>
        ensures shown { ShowsOne S.shows self.old.codec.max_incoming_size result
            self.old.stream.items screen.old self.new.stream.items screen.new }
        ensures shorter { IfOk result (λ whole. IsTrue whole
            → length self.new.stream.items < length self.old.stream.items) }
        ensures codec { self.new.codec ≡ self.old.codec }
        ensures digits { self.new.digits ≡ self.old.digits }
    {
        let before = self.stream.len();
        let alloc = *self.stream.allocator();
        match self.codec.decode(alloc, &mut self.stream) {
            Ok(Some(packet)) => {
                let shown = screen.show(&packet);
                drop(packet);
                let length = before.saturating_sub(self.stream.len());
                self.offset = self.offset.saturating_add(length as u64);
                match shown {
                    Ok(()) => Ok(true),
                    Err(error) => Err(Stop::Unprinted(error)),
                }
            }
            Ok(None) => Ok(false),
            Err(error) => Err(Stop::Fault(error)),
        }
    }

    /// Whether the input may end here.
    fn end(&self) -> Result<(), Stop>
        requires { NeedsMore (front self.now.codec.max_incoming_size self.now.stream.items) }
        ensures { OnOk result (self.now.stream.items ≡ []) }
    {
        if let Some(digits) = self.digits
            && !digits.is_even()
        {
            return Err(Stop::OneDigit);
        }
        if self.stream.is_empty() {
            return Ok(());
        }
        match check(self.stream.as_slice(), self.codec.max_incoming_size) {
            Err(Error::InsufficientBytes(missing)) => Err(Stop::Incomplete(missing)),
            Err(fault) => Err(Stop::Fault(fault)),
            Ok(_header) => unreachable!(),
        }
    }
}

/// Reads once, and again after an interruption.
fn read_once<R: Read>(reader: &mut R, buffer: &mut [u8]) -> io::Result<usize>
    ensures bound { ReadsAtMost result buffer.new }
    ensures bytes { IfOk result (λ n.
        Consumes (R.remaining reader.old) (R.remaining reader.new) (take n buffer.new)) }
    ensures end { IfOk result (λ n.
        n ≡ 0 → 0 < length buffer.old → IsAtEnd (R.remaining reader.new)) }
{
    for _ in 0..u64::MAX {
        match reader.read(buffer) {
            Ok(count) => return Ok(count),
            Err(error) if error.kind() == ErrorKind::Interrupted => {}
            Err(error) => return Err(error),
        }
    }
    Err(ErrorKind::TimedOut.into())
}
