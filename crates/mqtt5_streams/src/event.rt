//! What happens on streams of bytes.

use mqtt5_publish::Publish;

/// What happens.
#[derive(Debug, Drop)]
pub enum ByteEvent {
    /// The client asks for a publish.
    Publish(Publish),
    /// So many bytes on their way up arrive at the broker, or all where there are fewer; it takes each whole frame.
    Up(usize),
    /// So many bytes on their way down arrive at the client, or all where there are fewer; it takes each whole frame.
    Down(usize),
    /// The connection is lost with all bytes that were on their way or that waited for the rest of a frame, and the client
    /// takes up its session on a new one; with the receive maximum that the broker says then, if it says one.
    Loss(Option<u16>),
}
