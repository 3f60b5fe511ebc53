//! What a whole frame is of.

ghost use Rattle.mqtt5_codec.specs.Laws.{IsFrames};

/// Of every whole frame exactly one holds: it is a packet's, of one packet, or it has a first fault; and reading
/// answers that.
#[inline(always)]
pub fn frame_laws()
    ensures { IsFrames }
{}
