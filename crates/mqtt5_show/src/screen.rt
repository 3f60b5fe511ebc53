//! Where packets are shown.

ghost use Rattle.std.specs.Prelude.{OnOk};

use crate::json::write_json;
use crate::packet::write_packet;
use mqtt5_codec::Packet;
use std::alloc::Global;
use std::io;
use std::io::Write;

/// Where packets are shown.
pub trait Screen {
    ghost use Rattle.mqtt5_codec.specs.declared.packet.Packet.{Packet as Shown};

    ghost shows: { Self → Shown → Self → Type 0 };

    /// Shows a packet. Err where that fails.
    fn show(&mut self, packet: &Packet) -> io::Result<()>
        ensures { OnOk result (shows self.old packet.now self.new) };
}

/// Each packet is a line. Proofs don't see what it says.
#[derive(Drop)]
pub struct Lines<W> {
    pub output: W,
}

impl<W: Write> Screen for Lines<W> {
    ghost shows = { λ old p new. Unit {0} };

    fn show(&mut self, packet: &Packet) -> io::Result<()> {
        write_packet(&mut self.output, packet)?;
        self.output.write_all(b"\n")
    }
}

/// Each packet is a line of JSON. Proofs don't see what it says.
#[derive(Drop)]
pub struct JsonLines<W> {
    pub alloc: Global,
    pub output: W,
}

impl<W: Write> Screen for JsonLines<W> {
    ghost shows = { λ old p new. Unit {0} };

    fn show(&mut self, packet: &Packet) -> io::Result<()> {
        write_json(self.alloc, &mut self.output, packet)
    }
}
