//! The settle phase, at the end of a run.

ghost use Rattle.std.specs.Prelude.{◌≡◌};

use tt_state::Catalog;

/// Settles a store whose sessions are done. There is nothing to settle yet: no rounds of reclustering are
/// made and no part is purged, so this leaves the catalog as it is.
pub fn settle(cat: &mut Catalog)
    ensures { cat.new ≡ cat.old }
{
    let _ = cat;
}
