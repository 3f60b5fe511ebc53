//! Types whose clones are the same value, and whose `==` decides equality.

ghost use Rattle.std.specs.Prelude.{◌≡◌, IfOk, true};
ghost use Rattle.std.specs.Bool.{Decides};

use crate::header::{FixedHeader, PacketType};
use crate::quality::QoS;
use crate::sequence::Sequence;
use crate::text::Text;
use bytes::Bytes;
use std::alloc::AllocError;

/// A type whose clone is the same value, and whose `==` holds of equal values alone.
pub trait Exact: Clone + Eq {
    ghost same: { (x copy : Self) → Self.is_clone x copy → copy ≡ x };

    ghost sound: { (x y : Self) → Self.eq x y ≡ true → x ≡ y };
}

impl Exact for u8 {
    ghost use Rattle.std.proofs.lemmas.Bool.{eqb-true};

    ghost same = { λ x copy h. h };

    ghost sound = { eqb-true };
}

impl Exact for u16 {
    ghost use Rattle.std.proofs.lemmas.Bool.{eqb-true};

    ghost same = { λ x copy h. h };

    ghost sound = { eqb-true };
}

impl Exact for u32 {
    ghost use Rattle.std.proofs.lemmas.Bool.{eqb-true};

    ghost same = { λ x copy h. h };

    ghost sound = { eqb-true };
}

impl Exact for usize {
    ghost use Rattle.std.proofs.lemmas.Bool.{eqb-true};

    ghost same = { λ x copy h. h };

    ghost sound = { eqb-true };
}

impl Exact for Bytes {
    ghost use Rattle.mqtt5_base.specs.Sound.{bytes_sound};

    ghost same = { λ x copy h. h };

    ghost sound = { bytes_sound };
}

impl Exact for Text {
    ghost use Rattle.mqtt5_base.specs.Sound.{text_sound};

    ghost same = { λ x copy h. h };

    ghost sound = { text_sound };
}

impl Exact for QoS {
    ghost use Rattle.std.proofs.Common.{rules};

    ghost same = { Prim.search rules };

    ghost sound = { Prim.search rules };
}

impl Exact for PacketType {
    ghost use Rattle.std.proofs.Common.{rules};

    ghost same = { Prim.search rules };

    ghost sound = { Prim.search rules };
}

impl Exact for FixedHeader {
    ghost use Rattle.std.proofs.Common.{rules};
    ghost use Rattle.mqtt5_base.specs.Sound.{header_sound};

    ghost same = { Prim.search rules };

    ghost sound = { header_sound };
}

impl<A: Exact, B: Exact> Exact for (A, B) {
    ghost use Rattle.std.proofs.Common.{rules};

    ghost same = { Prim.search (rules, A.same, B.same) };

    ghost sound = { Prim.search (rules, A.sound, B.sound) };
}

impl<T: Exact> Exact for Option<T> {
    ghost use Rattle.std.proofs.Common.{rules};

    ghost same = { Prim.search (rules, T.same) };

    ghost sound = { Prim.search (rules, T.sound) };
}

impl<T: Exact> Exact for Sequence<T> {
    ghost use Rattle.mqtt5_base.specs.Sound.{list_sound};

    ghost same = { λ x copy h. h };

    ghost sound = { list_sound T.sound };
}

/// A clone, which is the same value. Err where memory is refused.
pub fn copied<T: Exact>(value: &T) -> Result<T, AllocError>
    ensures { IfOk result (λ copy. copy ≡ value.now) }
{
    value.clone()
}

/// Whether two values are the same.
pub fn same<T: Exact>(a: &T, b: &T) -> bool
    ensures { Decides result (a.now ≡ b.now) }
{
    a == b
}
