//! A text that is not copied.

ghost use Rattle.std.specs.Prelude.{◌≡◌, ◌≤◌, length, IfOk};
ghost use Rattle.std.specs.Ordering.{as_partial_cmp, eq_by_cmp};
ghost use Rattle.std.specs.Cmp.Rules.{comparing};
ghost use Rattle.std.proofs.Common.{rules};
ghost use Rattle.tt_value.specs.values.Texts.{IsText};
ghost use Rattle.tt_textcol.specs.TextBody.{text_cmp};
ghost use Rattle.std.specs.Cmp.Lexicographic.{nat_list_cmp_total};

use std::alloc::{AllocError, Global};
use std::cmp::Ordering;
use std::marker::Model;
use tt_value::Text;

/// A text that stands elsewhere: in a row, or in the body of a column. Contracts see its bytes.
#[derive(Drop)]
pub struct TextRef<'a> {
    text: &'a str,
}

impl<'a> Model for TextRef<'a> {
    ghost use Rattle.std.specs.Prelude.{List, ℕ};
    ghost use Rattle.std.specs.Coded.{coded_list, coded_ℕ};
    ghost use Rattle.tt_value.specs.values.Texts.{IsText};

    ghost Value = { List ℕ };

    ghost coded = { coded_list coded_ℕ };

    ghost view = { λ t. t.text.now };

    ghost invariant = { λ t. IsText t.text.now };
}

impl<'a> TextRef<'a> {
    /// Refers to a text that is known to be a value of a VARCHAR column. No byte is copied.
    pub fn new(text: &'a str) -> TextRef<'a>
        requires { IsText text.now }
        ensures { result ≡ text.now }
    {
        TextRef { text }
    }

    /// Refers to the text of a value. No byte is copied.
    pub fn of(text: &'a Text) -> TextRef<'a>
        ensures { result ≡ text.now }
    {
        TextRef {
            text: text.as_str(),
        }
    }

    /// The same text, once more.
    pub fn again(&self) -> TextRef<'a>
        ensures { result ≡ self.now }
    {
        TextRef { text: self.text }
    }

    /// They live as long as the text itself, also when this reference to it is gone.
    pub fn bytes(&self) -> &'a [u8]
        ensures value { result.now ≡ self.now }
        ensures short { length self.now ≤ 65535 }
    {
        self.text.as_bytes()
    }

    /// A copy of the text.
    pub fn to_text(&self, alloc: Global) -> Result<Text, AllocError>
        ensures { IfOk result (λ t. t ≡ self.now) }
    {
        Text::from_valid(alloc, self.text)
    }
}

impl<'a> PartialEq for TextRef<'a> {
    ghost eq = { eq_by_cmp text_cmp };

    ghost laws = { Prim.search (comparing, nat_list_cmp_total, rules) };

    fn eq(&self, other: &TextRef<'a>) -> bool {
        self.text.as_bytes() == other.text.as_bytes()
    }
}

impl<'a> Eq for TextRef<'a> {
    ghost laws = { Prim.search (comparing, nat_list_cmp_total, rules) };
}

impl<'a> PartialOrd for TextRef<'a> {
    ghost partial_cmp = { as_partial_cmp text_cmp };

    ghost laws = { Prim.search (comparing, nat_list_cmp_total, rules) };

    fn partial_cmp(&self, other: &TextRef<'a>) -> Option<Ordering> {
        Some(self.cmp(other))
    }
}

impl<'a> Ord for TextRef<'a> {
    ghost cmp = { text_cmp };

    ghost total = { nat_list_cmp_total };

    ghost matches_partial_cmp = { Prim.search (comparing, rules) };

    ghost matches_eq = { Prim.search (comparing, rules) };

    fn cmp(&self, other: &TextRef<'a>) -> Ordering {
        self.text.as_bytes().cmp(&other.text.as_bytes())
    }
}
