//! The parts of a Connect that may be absent: its will and its login.

ghost use Rattle.std.specs.Prelude.{◌≡◌, ℕ, ◌≤◌, ◌<◌, List, length, true, min, option_map, unwrap_or};
ghost use Rattle.mqtt5_base.specs.Grammar.{Step, Value};
ghost use Rattle.mqtt5_base.specs.Layout.{just, written_bytes, written_fits, optional_bytes, optional_fits, steps_writing};
ghost use Rattle.mqtt5_base.specs.Puts.{Puts, Writes};

use bytes::BytesMut;
use mqtt5_base::Error;

/// A part of a Connect, which stands under the connect flags.
pub(crate) trait ConnectPart {
    /// Its steps.
    ghost steps: { List Step };

    /// Its values.
    ghost values: { Self → List Value };

    /// Its own flags.
    ghost own_flags: { Self → ℕ };

    /// All flags that it may have.
    ghost most: { ℕ };

    /// What can be written is short.
    ghost short: { (p : Self) (n : ℕ) → written_fits steps (just (values p)) ≡ true → length (written_bytes steps n (just (values p))) < 1073741824 };

    fn own_flags(&self) -> u8
        ensures value { result ≡ own_flags self.now }
        ensures small { result ≤ most };

    /// Whether each of its values can be written.
    fn part_fits(&self) -> bool
        ensures { result ≡ written_fits steps (just (values self.now)) };

    /// How many bytes it takes under these flags, or the greatest `usize` where they are more.
    fn part_len(&self, flags: u8) -> usize
        ensures { result ≡ min (length (written_bytes steps flags (just (values self.now))))
            usize.MAX };

    /// Appends it, under these flags.
    fn put_part(&self, flags: u8, out: &mut BytesMut)
        requires fits { written_fits steps (just (values self.now)) ≡ true }
        requires room { length (written_bytes steps flags (just (values self.now)))
            ≤ out.old.spare }
        ensures { Puts out.old out.new (written_bytes steps flags (just (values self.now))) };
}

/// Appends a part and answers its flags. E11, E21; then the buffer is unchanged.
pub(crate) fn write_part<P: ConnectPart>(part: &P, buffer: &mut BytesMut) -> Result<u8, Error>
    ensures { Writes (λ _. P.own_flags part.now)
        (steps_writing P.steps (P.own_flags part.now) (just (P.values part.now))) result
        buffer.old.items buffer.new.items }
{
    if !part.part_fits() {
        return Err(Error::PayloadTooLong);
    }
    let flags = part.own_flags();
    buffer.reserve(part.part_len(flags))?;
    part.put_part(flags, buffer);
    Ok(flags)
}

/// The flags of a part; none where it is absent.
pub(crate) fn flags_of<P: ConnectPart>(part: &Option<P>) -> u8
    ensures value { result ≡ unwrap_or (option_map P.own_flags part.now) 0 }
    ensures small { result ≤ P.most }
{
    match part {
        Some(part) => part.own_flags(),
        None => 0,
    }
}

/// Whether a part that may be absent can be written.
pub(crate) fn fits<P: ConnectPart>(part: &Option<P>) -> bool
    ensures { result ≡ optional_fits P.steps (option_map (λ p. just (P.values p)) part.now) }
{
    match part {
        Some(part) => part.part_fits(),
        None => true,
    }
}

/// How many bytes such a part takes under these flags, or the greatest `usize` where they are more.
pub(crate) fn len_under<P: ConnectPart>(flags: u8, part: &Option<P>) -> usize
    ensures { result
        ≡ min (length (optional_bytes P.steps flags (option_map (λ p. just (P.values p)) part.now)))
        usize.MAX }
{
    match part {
        Some(part) => part.part_len(flags),
        None => 0,
    }
}

/// Appends such a part, under these flags.
pub(crate) fn put_under<P: ConnectPart>(flags: u8, part: &Option<P>, out: &mut BytesMut)
    requires fits { optional_fits P.steps (option_map (λ p. just (P.values p)) part.now) ≡ true }
    requires room { length (optional_bytes P.steps flags
        (option_map (λ p. just (P.values p)) part.now)) ≤ out.old.spare }
    ensures { Puts out.old out.new
        (optional_bytes P.steps flags (option_map (λ p. just (P.values p)) part.now)) }
{
    if let Some(part) = part {
        part.put_part(flags, out);
    }
}
