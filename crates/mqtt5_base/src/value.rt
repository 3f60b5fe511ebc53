//! The values of fields, and how they are written at the end of a buffer that has room for them.

ghost use Rattle.std.specs.Prelude.{◌≡◌, ℕ, ◌+◌, ◌<◌, ◌≤◌, [], ◌∷◌, ◌++◌, length, true, min};
ghost use Rattle.std.specs.Int.{w16, to_be_bytes};
ghost use Rattle.mqtt5_base.specs.VarInt.{var_int};
ghost use Rattle.mqtt5_base.specs.Grammar.{Kind, Atom, number, content, u8, u16, u32, varint, bytes, text, pair};
ghost use Rattle.mqtt5_base.specs.Views.{text_atom, pair_atom};
ghost use Rattle.mqtt5_base.specs.Puts.{Puts};
ghost use Rattle.mqtt5_base.specs.Sets.{AtomIs};
ghost use Rattle.mqtt5_base.specs.Layout.{atom_bytes, atom_fits, with_length};

use crate::text::Text;
use bytes::{Bytes, BytesMut};

/// The most bytes of a text or of binary data.
const LONGEST_CONTENT: usize = 65_535;

/// The greatest variable byte integer.
const LONGEST: usize = 268_435_455;

/// A value of a field.
pub trait FieldValue {
    /// The field's kind.
    ghost kind: { Kind };

    /// The value as the grammar has it.
    ghost atom: { Self → Atom };

    /// Whether it can be written: a text and bytes up to 65,535 bytes, a variable byte integer up to
    /// 268,435,455, every other number.
    fn fits(&self) -> bool
        ensures { result ≡ atom_fits kind (atom self.now) };

    /// How many bytes it takes, or the greatest `usize` where they are more.
    fn field_len(&self) -> usize
        ensures { result ≡ min (length (atom_bytes kind (atom self.now))) usize.MAX };

    /// Appends it, where it can be written, in room that is there.
    fn put_field(&self, out: &mut BytesMut)
        requires fits { atom_fits kind (atom self.now) ≡ true }
        requires room { length (atom_bytes kind (atom self.now)) ≤ out.old.spare }
        ensures { Puts out.old out.new (atom_bytes kind (atom self.now)) };

    /// Says of the value what its type does. A law: it changes nothing.
    fn known(&self)
        ensures { AtomIs kind (atom self.now) };
}

impl FieldValue for u8 {
    ghost kind = { u8 };

    ghost atom = { λ n. number n };

    fn fits(&self) -> bool {
        true
    }

    fn field_len(&self) -> usize {
        1
    }

    fn put_field(&self, out: &mut BytesMut) {
        out.extend_reserved(&[*self]);
    }

    fn known(&self) {}
}

impl FieldValue for u16 {
    ghost kind = { u16 };

    ghost atom = { λ n. number n };

    fn fits(&self) -> bool {
        true
    }

    fn field_len(&self) -> usize {
        2
    }

    fn put_field(&self, out: &mut BytesMut) {
        out.extend_reserved(&self.to_be_bytes());
    }

    fn known(&self) {
        let _value = *self;
    }
}

impl FieldValue for u32 {
    ghost kind = { u32 };

    ghost atom = { λ n. number n };

    fn fits(&self) -> bool {
        true
    }

    fn field_len(&self) -> usize {
        4
    }

    fn put_field(&self, out: &mut BytesMut) {
        out.extend_reserved(&self.to_be_bytes());
    }

    fn known(&self) {
        let _value = *self;
    }
}

/// How many bytes the shortest form of a variable byte integer takes; four where it has none.
#[tactic(auto, unfolding(crate::specs::VarInt::var_int))]
pub fn varint_len(n: usize) -> usize
    ensures value { result ≡ length (var_int n) }
    ensures small { result ≤ 4 }
{
    match n {
        0..=127 => 1,
        128..=16_383 => 2,
        16_384..=2_097_151 => 3,
        _ => 4,
    }
}

/// A `usize` is written as a variable byte integer.
impl FieldValue for usize {
    ghost kind = { varint };

    ghost atom = { λ n. number n };

    fn fits(&self) -> bool {
        *self <= LONGEST
    }

    fn field_len(&self) -> usize {
        varint_len(*self)
    }

    fn put_field(&self, out: &mut BytesMut) {
        put_varint(*self, out);
    }

    fn known(&self) {}
}

#[tactic(auto, unfolding(crate::specs::VarInt::var_int))]
fn put_varint(n: usize, out: &mut BytesMut)
    requires small { n < 268435456 }
    requires room { length (var_int n) ≤ out.old.spare }
    ensures { Puts out.old out.new (var_int n) }
{
    if n < 128 {
        out.extend_reserved(&[n as u8]);
    } else if n < 16_384 {
        out.extend_reserved(&[(n % 128 + 128) as u8, (n / 128) as u8]);
    } else if n < 2_097_152 {
        out.extend_reserved(&[
            (n % 128 + 128) as u8,
            (n / 128 % 128 + 128) as u8,
            (n / 128 / 128) as u8,
        ]);
    } else {
        out.extend_reserved(&[
            (n % 128 + 128) as u8,
            (n / 128 % 128 + 128) as u8,
            (n / 128 / 128 % 128 + 128) as u8,
            (n / 128 / 128 / 128) as u8,
        ]);
    }
}

fn put_with_length(content: &[u8], out: &mut BytesMut)
    requires short { length content.now < 65536 }
    requires room { length content.now + 2 ≤ out.old.spare }
    ensures { Puts out.old out.new (with_length content.now) }
{
    (content.len() as u16).put_field(out);
    out.extend_reserved(content);
}

impl FieldValue for Bytes {
    ghost kind = { bytes };

    ghost atom = { λ c. content c };

    fn fits(&self) -> bool {
        self.len() <= LONGEST_CONTENT
    }

    fn field_len(&self) -> usize {
        self.len().saturating_add(2)
    }

    fn put_field(&self, out: &mut BytesMut) {
        put_with_length(self.as_slice(), out);
    }

    fn known(&self) {}
}

impl FieldValue for Text {
    ghost kind = { text };

    ghost atom = { text_atom };

    fn fits(&self) -> bool {
        self.as_bytes().len() <= LONGEST_CONTENT
    }

    fn field_len(&self) -> usize {
        self.as_bytes().len().saturating_add(2)
    }

    fn put_field(&self, out: &mut BytesMut) {
        put_with_length(self.as_bytes(), out);
    }

    fn known(&self) {}
}

impl FieldValue for (Text, Text) {
    ghost kind = { pair };

    ghost atom = { pair_atom };

    fn fits(&self) -> bool {
        self.0.fits() && self.1.fits()
    }

    fn field_len(&self) -> usize {
        self.0.field_len().saturating_add(self.1.field_len())
    }

    fn put_field(&self, out: &mut BytesMut) {
        self.0.put_field(out);
        self.1.put_field(out);
    }

    fn known(&self) {}
}
