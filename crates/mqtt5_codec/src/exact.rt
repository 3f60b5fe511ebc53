//! A clone of a packet or of a codec is the same value, and `==` decides equality.

use crate::codec::Codec;
use crate::packet::Packet;
use mqtt5_base::Exact;

impl Exact for Packet {
    ghost use Rattle.std.proofs.Common.{rules};
    ghost use Rattle.mqtt5_codec.specs.Sound.{packet_sound};

    ghost same = { Prim.search rules };

    ghost sound = { packet_sound };
}

impl Exact for Codec {
    ghost use Rattle.std.proofs.Common.{rules};
    ghost use Rattle.mqtt5_codec.specs.Sound.{codec_sound};

    ghost same = { Prim.search rules };

    ghost sound = { codec_sound };
}
