//! The front of a stream of frames.

ghost use Rattle.std.specs.Prelude.{ℕ, Option};
ghost use Rattle.mqtt5_base.specs.Front.{IsFound, IsFront};
ghost use Rattle.mqtt5_base.specs.FrontAt.{front};
ghost use Rattle.mqtt5_base.specs.Headers.{Checks};

use crate::error::Error;
use crate::fields::varint_in;
use crate::header::FixedHeader;

/// The header of the frame at the front of the stream, once the frame is whole. E19 with the bytes
/// that are missing, at least. E17 where the remaining length's fourth byte says that another
/// follows. E12 where the remaining length is over the limit, also before the frame is whole.
/// Takes no memory.
#[tactic(auto, unfolding(crate::specs::FrontAt::front))]
pub fn check(stream: &[u8], max_packet_size: Option<u32>) -> Result<FixedHeader, Error>
    ensures { Checks result stream.now (front max_packet_size stream.now) }
{
    match stream {
        [] => Err(Error::InsufficientBytes(2)),
        [byte1, rest @ ..] => {
            let (count, n) = varint_in(rest, 4)?;
            if let Some(max) = max_packet_size {
                if n > max as usize {
                    return Err(Error::PayloadSizeLimitExceeded { pkt_size: n, max });
                }
            }
            if rest.len() < count + n {
                return Err(Error::InsufficientBytes(count + n - rest.len()));
            }
            Ok(FixedHeader::new(*byte1, count, n))
        }
    }
}

/// Which front each stream has; and what is decided of a stream stays so when bytes come, and a frame is
/// whole with its last byte.
#[inline(always)]
pub fn front_laws()
    ensures found { (limit : Option ℕ) → IsFound limit (front limit) }
    ensures stays { (limit : Option ℕ) → IsFront (front limit) }
{}
