//! What an open UPDATE or DELETE finds of its table when it ends.

ghost use Rattle.tt_target_laws.specs.Targets.{LegalKeepsTargets};

/// After a legal history each open UPDATE or DELETE has its table for itself, and its session sees each part that the
/// statement has pinned.
pub fn legal_histories_keep_targets()
    ensures { LegalKeepsTargets }
{}
