//! Text that contracts see as its bytes.

ghost use Rattle.std.specs.Prelude.{◌≡◌, nat_eq, string_bytes, IfOk};
ghost use Rattle.std.specs.Cmp.Lexicographic.{pointwise, on_texts_equal};
ghost use Rattle.std.specs.Ordering.{on};
ghost use Rattle.std.specs.Cmp.{partial_equiv_from_equiv};

use std::alloc::{AllocError, Global};
use std::fmt;
use std::marker::Model;

/// A UTF-8 text. Contracts see its bytes, and that they are UTF-8.
#[derive(Drop)]
pub struct Text {
    text: String,
}

impl Model for Text {
    ghost use Rattle.std.specs.Prelude.{string_bytes};
    ghost use Rattle.std.proofs.lemmas.Str.{is_utf8-from_IsUtf8, IsUtf8-string_bytes};
    ghost use Rattle.mqtt5_base.specs.Codes.{utf8_code};
    ghost use Rattle.mqtt5_base.specs.Texts.{Utf8};

    ghost Value = { Utf8 };

    ghost coded = { utf8_code };

    ghost view = { λ t. record { bytes = string_bytes t.text; is_text = is_utf8-from_IsUtf8 (string_bytes t.text) (IsUtf8-string_bytes t.text) } };
}

impl Text {
    /// A copy of a text. Err where memory is refused.
    pub fn from_str(alloc: Global, text: &str) -> Result<Text, AllocError>
        ensures { IfOk result (λ copy. copy.bytes ≡ text.now) }
    {
        Ok(Text::from(String::from_str(alloc, text)?))
    }

    /// Whether it is this text.
    pub fn is(&self, text: &str) -> bool
        ensures { result ≡ pointwise nat_eq self.now.bytes text.now }
    {
        self.as_str() == text
    }

    /// The text.
    pub fn as_str(&self) -> &str
        ensures { result.now ≡ self.now.bytes }
    {
        self.text.as_str()
    }

    /// Its bytes.
    pub fn as_bytes(&self) -> &[u8]
        ensures { result.now ≡ self.now.bytes }
    {
        self.text.as_bytes()
    }

    /// The text as a `String`. Takes no memory.
    pub fn into_string(self) -> String
        ensures { string_bytes result ≡ self.bytes }
    {
        let Text { text } = self;
        text
    }
}

impl From<String> for Text {
    ghost from_gives = { λ s t. t.bytes ≡ string_bytes s };

    fn from(text: String) -> Text {
        Text { text }
    }
}

impl Clone for Text {
    ghost is_clone = { λ t copy. copy ≡ t };

    fn clone(&self) -> Result<Text, AllocError> {
        Ok(Text {
            text: self.text.clone()?,
        })
    }
}

impl PartialEq for Text {
    ghost eq = { on (λ t. t.bytes) (pointwise nat_eq) };

    ghost laws = { partial_equiv_from_equiv (on_texts_equal (λ t. t.bytes)) };

    fn eq(&self, other: &Self) -> bool {
        self.as_bytes() == other.as_bytes()
    }
}

impl Eq for Text {
    ghost laws = { on_texts_equal (λ t. t.bytes) };
}

impl fmt::Debug for Text {
    fn fmt<W: fmt::Write>(&self, f: &mut fmt::Formatter<W>) -> fmt::Result {
        fmt::Debug::fmt(&self.text, f)
    }
}
