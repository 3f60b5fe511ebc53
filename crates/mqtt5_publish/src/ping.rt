//! The packets that ask whether the peer is there, and answer it.

ghost use Rattle.std.specs.Prelude.{◌≡◌, [], length};
ghost use Rattle.mqtt5_base.specs.Puts.{Writes};
ghost use Rattle.mqtt5_base.specs.Layout.{plainly, layout, writing};
ghost use Rattle.mqtt5_publish.specs.Rows.{ping_row};

use bytes::BytesMut;
use mqtt5_base::{Error, start_frame};

/// A PingReq (MQTT 5.0 section 3.12). A body is ignored.
#[derive(Debug, Clone, Copy, PartialEq, Eq)]
pub struct PingReq;

impl PingReq {
    /// Appends a PingReq and answers its length, 2. E21; then the buffer is unchanged.
    pub fn write(buffer: &mut BytesMut) -> Result<usize, Error>
        ensures { Writes length (writing ping_row (plainly 192 [])) result buffer.old.items
            buffer.new.items }
    {
        start_frame(0xC0, 0, buffer)
    }

    /// How many bytes it takes, 2. Takes no memory.
    #[tactic(auto, unfolding(mqtt5_base::specs::VarInt::var_int))]
    pub fn size(&self) -> usize
        ensures { result ≡ length (layout ping_row (plainly 192 [])) }
    {
        2
    }
}

/// A PingResp (MQTT 5.0 section 3.13). A body is ignored.
#[derive(Debug, Clone, Copy, PartialEq, Eq)]
pub struct PingResp;

impl PingResp {
    /// Appends a PingResp and answers its length, 2. E21; then the buffer is unchanged.
    pub fn write(buffer: &mut BytesMut) -> Result<usize, Error>
        ensures { Writes length (writing ping_row (plainly 208 [])) result buffer.old.items
            buffer.new.items }
    {
        start_frame(0xD0, 0, buffer)
    }

    /// How many bytes it takes, 2. Takes no memory.
    #[tactic(auto, unfolding(mqtt5_base::specs::VarInt::var_int))]
    pub fn size(&self) -> usize
        ensures { result ≡ length (layout ping_row (plainly 208 [])) }
    {
        2
    }
}
