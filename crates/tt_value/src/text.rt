//! Texts, as columns of the kind VARCHAR hold them.

ghost use Rattle.std.specs.Prelude.{◌≡◌, ◌≤◌, ◌<◌, ◌↔◌, length, All, IsTrue, IfOk, IfErr, IfSome};
ghost use Rattle.std.specs.Str.{bytes_eq};
ghost use Rattle.std.specs.Cmp.{partial_equiv_from_equiv};
ghost use Rattle.std.specs.Cmp.Lexicographic.{nat_list_eq_equiv};
ghost use Rattle.std.specs.List.{position};
ghost use Rattle.tt_value.specs.values.Texts.{IsText, IsPrintableAscii, RefusesText, is_control as control_test};
ghost use Rattle.tt_value.specs.declared.text.BadText.TheVariants.{Memory};

use std::alloc::{AllocError, Global};
use std::marker::Model;

/// The most bytes that a text may have.
pub const LONGEST_TEXT: usize = 65_535;

/// Why a text is no value of a VARCHAR column. A place is a byte offset.
#[derive(Clone, Copy, PartialEq, Eq)]
pub enum BadText {
    TooLong,
    Control(u32),
    Memory,
}

impl From<AllocError> for BadText {
    ghost from_gives = { λ _ e. e ≡ Memory };

    fn from(_error: AllocError) -> BadText {
        BadText::Memory
    }
}

/// A text of at most 65,535 bytes of UTF-8 without the characters U+0000 to U+001F and U+007F.
/// Contracts see its bytes.
#[derive(Clone, Drop)]
pub struct Text {
    text: String,
}

impl Model for Text {
    ghost use Rattle.std.specs.Prelude.{List, ℕ, string_bytes};
    ghost use Rattle.tt_value.specs.values.Texts.{IsText};

    ghost Value = { List ℕ };

    ghost view = { λ t. string_bytes t.text };

    ghost invariant = { λ t. IsText (string_bytes t.text) };
}

fn is_control(byte: u8) -> bool
    ensures { result ≡ control_test byte }
{
    byte < 0x20 || byte == 0x7f
}

fn first_control(bytes: &[u8]) -> Option<usize>
    ensures place { result ≡ position control_test bytes.now }
    ensures within { IfSome result (λ place. place < length bytes.now) }
{
    bytes.iter().position(|byte| is_control(*byte))
}

impl Text {
    /// Makes a text of a copy of these bytes. The length is judged before the characters; the place is
    /// that of the first refused character.
    pub fn from_str(alloc: Global, text: &str) -> Result<Text, BadText>
        ensures ok { IfOk result (λ t. t ≡ text.now) }
        ensures valid { IfOk result (λ _. IsText text.now) }
        ensures refused { IfErr result (RefusesText text.now) }
    {
        if text.len() > LONGEST_TEXT {
            return Err(BadText::TooLong);
        }
        if let Some(place) = first_control(text.as_bytes()) {
            return Err(BadText::Control(place as u32));
        }
        Ok(Text {
            text: String::from_str(alloc, text)?,
        })
    }

    /// Makes a text of a copy of a text that is known to be one.
    pub fn from_valid(alloc: Global, text: &str) -> Result<Text, AllocError>
        requires { IsText text.now }
        ensures { IfOk result (λ t. t ≡ text.now) }
    {
        let copy = String::from_str(alloc, text)?;
        Ok(Text { text: copy })
    }

    /// Makes a text of a copy of these printable ASCII bytes, of which there are few enough.
    pub fn from_ascii(alloc: Global, bytes: &[u8]) -> Result<Text, AllocError>
        requires plain { All IsPrintableAscii bytes.now }
        requires short { length bytes.now ≤ 65535 }
        ensures { IfOk result (λ t. t ≡ bytes.now) }
    {
        let Ok(text) = str::from_utf8(bytes) else {
            unreachable!();
        };
        Ok(Text {
            text: String::from_str(alloc, text)?,
        })
    }

    /// Whether the text has these bytes.
    pub fn is(&self, bytes: &[u8]) -> bool
        ensures { IsTrue result ↔ (self.now ≡ bytes.now) }
    {
        self.text.as_bytes() == bytes
    }

    /// Lends the text. No byte is copied.
    pub fn as_str(&self) -> &str
        ensures value { result.now ≡ self.now }
        ensures valid { IsText self.now }
    {
        self.text.as_str()
    }
}

impl PartialEq for Text {
    ghost eq = { bytes_eq };

    ghost laws = { partial_equiv_from_equiv nat_list_eq_equiv };

    fn eq(&self, other: &Text) -> bool {
        self.text.as_bytes() == other.text.as_bytes()
    }
}

impl Eq for Text {
    ghost laws = { nat_list_eq_equiv };
}
