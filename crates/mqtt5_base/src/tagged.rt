//! The values of one property of a set, each written behind its identifier.

ghost use Rattle.std.specs.Prelude.{◌≡◌, ℕ, ◌≤◌, Bool, true, false, List, [], ◌∷◌, map, length, min};
ghost use Rattle.mqtt5_base.specs.Grammar.{Kind, Atom};
ghost use Rattle.mqtt5_base.specs.Views.{atoms_of};
ghost use Rattle.mqtt5_base.specs.Puts.{Puts};
ghost use Rattle.mqtt5_base.specs.Sets.{Adds, AtomsAre};
ghost use Rattle.mqtt5_base.specs.Layout.{all_fit, atom_bytes, atom_fits, tagged};

use crate::sequence::Sequence;
use crate::value::FieldValue;
use bytes::BytesMut;

/// The values of a property of a set: at most one, or a list.
pub trait Tagged {
    /// The kind of each value.
    ghost kind: { Kind };

    /// Whether they are a list.
    ghost many: { Bool };

    /// The values in order.
    ghost atoms: { Self → List Atom };

    /// Whether each can be written.
    fn values_fit(&self) -> bool
        ensures { result ≡ all_fit kind (atoms self.now) };

    /// How many bytes they take, each behind the identifier, or the greatest `usize` where they are
    /// more.
    fn values_len(&self, id: u8) -> usize
        ensures { result ≡ min (length (tagged id kind (atoms self.now))) usize.MAX };

    /// Appends each behind the identifier, where each can be written, in room that is there.
    fn put_values(&self, id: u8, out: &mut BytesMut)
        requires fits { all_fit kind (atoms self.now) ≡ true }
        requires room { length (tagged id kind (atoms self.now)) ≤ out.old.spare }
        ensures { Puts out.old out.new (tagged id kind (atoms self.now)) };

    /// Says of the values what their types do. A law: it changes nothing.
    fn values_known(&self)
        ensures adds { Adds many [] (atoms self.now) }
        ensures are { AtomsAre kind (atoms self.now) };
}

fn put_tagged<T: FieldValue>(value: &T, id: u8, out: &mut BytesMut)
    requires fits { atom_fits T.kind (T.atom value.now) ≡ true }
    requires room { length (id ∷ atom_bytes T.kind (T.atom value.now)) ≤ out.old.spare }
    ensures { Puts out.old out.new (id ∷ atom_bytes T.kind (T.atom value.now)) }
{
    id.put_field(out);
    value.put_field(out);
}

impl<T: FieldValue> Tagged for Option<T> {
    ghost kind = { T.kind };

    ghost many = { false };

    ghost atoms = { atoms_of T.atom };

    fn values_fit(&self) -> bool {
        match self {
            Some(value) => value.fits(),
            None => true,
        }
    }

    fn values_len(&self, id: u8) -> usize {
        match self {
            Some(value) => value.field_len().saturating_add(1),
            None => 0,
        }
    }

    fn put_values(&self, id: u8, out: &mut BytesMut) {
        if let Some(value) = self {
            put_tagged(value, id, out);
        }
    }

    fn values_known(&self) {
        if let Some(value) = self {
            value.known();
        }
    }
}

impl<T: FieldValue> Tagged for Sequence<T> {
    ghost kind = { T.kind };

    ghost many = { true };

    ghost atoms = { map T.atom };

    fn values_fit(&self) -> bool {
        for value in self.as_slice() {
            if !value.fits() {
                return false;
            }
        }
        true
    }

    fn values_len(&self, id: u8) -> usize {
        let mut len: usize = 0;
        for value in self.as_slice() {
            len = len.saturating_add(value.field_len()).saturating_add(1);
        }
        len
    }

    fn put_values(&self, id: u8, out: &mut BytesMut) {
        for value in self.as_slice() {
            put_tagged(value, id, out);
        }
    }

    fn values_known(&self) {
        for value in self.as_slice() {
            value.known();
        }
    }
}
