//! A link of the chain of a table's layouts.
ghost use Rattle.std.specs.Prelude.{◌≡◌, true, false};
ghost use Rattle.tt_layout.specs.Chain.{is_full};

use tt_value::Sequence;

/// A layout as the full list of its numbers, or as what is gone and what was added since the layout before it.
/// Each list ascends.
#[derive(Clone, Drop)]
pub enum Piece {
    Full(Sequence<u64>),
    Change {
        gone: Sequence<u64>,
        added: Sequence<u64>,
    },
}

impl Piece {
    /// The numbers of a full piece.
    pub fn full_list(&self) -> &[u64]
        requires { is_full self.now ≡ true }
        ensures { self.now ≡ Piece.Full result.now }
    {
        let Piece::Full(numbers) = self else {
            unreachable!()
        };
        numbers.items()
    }

    /// What is gone and what was added, of a piece that is not full.
    pub fn change_lists(&self) -> (&[u64], &[u64])
        requires { is_full self.now ≡ false }
        ensures { self.now ≡ Piece.Change result.0.now result.1.now }
    {
        let Piece::Change { gone, added } = self else {
            unreachable!()
        };
        (gone.items(), added.items())
    }
}
