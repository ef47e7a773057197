//! The forms of a body.

ghost use Rattle.std.specs.Prelude.{◌≡◌};
ghost use Rattle.tt_textcol.specs.TextBody.{code as code_of};

/// The three forms of a body of texts, by their codes. There is no frame of texts, whose code would be 1.
#[derive(Clone, Copy, PartialEq, Eq)]
pub enum Encoding {
    Plain,
    Run,
    Dictionary,
}

impl Encoding {
    /// The byte that names the form in a column.
    pub fn code(self) -> u8
        ensures { result ≡ code_of self }
    {
        match self {
            Encoding::Plain => 0,
            Encoding::Run => 2,
            Encoding::Dictionary => 3,
        }
    }
}
