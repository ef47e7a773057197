//! The forms of a body.

ghost use Rattle.std.specs.Prelude.{◌≡◌};
ghost use Rattle.tt_intcol.specs.IntBody.{code as code_of};

/// The four forms of a body, by their codes.
#[derive(Clone, Copy, PartialEq, Eq)]
pub enum Encoding {
    Plain,
    Frame,
    Run,
    Dictionary,
}

impl Encoding {
    /// The byte that names the form in a column.
    pub fn code(self) -> u8
        ensures { result ≡ code_of self }
    {
        match self {
            Encoding::Plain => 0,
            Encoding::Frame => 1,
            Encoding::Run => 2,
            Encoding::Dictionary => 3,
        }
    }
}
