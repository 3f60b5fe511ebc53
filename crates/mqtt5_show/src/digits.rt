//! Bytes that come as hexadecimal digits, two each, with white space anywhere between the digits.

ghost use Rattle.std.specs.Prelude.{◌<◌, IfSome};
ghost use Rattle.std.proofs.Props.{props};

use crate::ending::Stop;
use bytes::BytesMut;

/// What is known of the digits so far.
#[derive(Clone, Copy, Debug, PartialEq, Eq)]
pub struct Digits {
    /// The first digit of a byte whose second hasn't come.
    first: Option<u8>,
    /// How many bytes of the input came before.
    place: u64,
    ghost bounded: { IfSome first (λ d. d < 16) } by { Prim.hlevel props },
}

impl Digits {
    /// Those of no input.
    pub fn new() -> Digits {
        Digits {
            first: None,
            place: 0,
        }
    }

    /// Whether no byte lacks its second digit.
    pub fn is_even(&self) -> bool {
        self.first.is_none()
    }

    /// Appends the bytes of a piece's digits. `NoDigit` of a byte that is none and no white space,
    /// with the bytes before it appended; E21.
    pub fn append(&mut self, piece: &[u8], stream: &mut BytesMut) -> Result<(), Stop> {
        for byte in piece {
            self.append_one(*byte, stream)?;
            self.place = self.place.saturating_add(1);
        }
        Ok(())
    }

    fn append_one(&mut self, byte: u8, stream: &mut BytesMut) -> Result<(), Stop> {
        if byte.is_ascii_whitespace() {
            return Ok(());
        }
        let Some(digit) = digit_of(byte) else {
            return Err(Stop::NoDigit(self.place));
        };
        match self.first.take() {
            Some(first) => stream.extend_from_slice(&[first * 16 + digit])?,
            None => self.first = Some(digit),
        }
        Ok(())
    }
}

/// The number of a digit.
fn digit_of(byte: u8) -> Option<u8>
    ensures { IfSome result (λ d. d < 16) }
{
    let digit = char::from(byte).to_digit(16)?;
    Some(digit as u8)
}
