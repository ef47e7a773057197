//! Sets of truth values.

ghost use Rattle.std.specs.Prelude.{◌≡◌};

/// A set of truth values.
#[derive(Clone, Copy, PartialEq, Eq)]
pub struct TruthSet {
    pub has_true: bool,
    pub has_false: bool,
    pub has_unknown: bool,
}

impl TruthSet {
    ghost use Rattle.tt_zone.specs.TruthSets as sets;

    /// Whether it has no truth value.
    #[inline(always)]
    fn is_empty(self) -> bool
        ensures { result ≡ sets.is_empty_set self }
    {
        !(self.has_true || self.has_false || self.has_unknown)
    }

    /// Each truth value through NOT.
    #[inline(always)]
    pub fn negated(self) -> TruthSet
        ensures { result ≡ sets.not_set self }
    {
        TruthSet {
            has_true: self.has_false,
            has_false: self.has_true,
            has_unknown: self.has_unknown,
        }
    }

    /// Each truth value with each of the other set, through AND.
    #[inline(always)]
    pub fn and(self, other: TruthSet) -> TruthSet
        ensures { result ≡ sets.and_set self other }
    {
        TruthSet {
            has_true: self.has_true && other.has_true,
            has_false: self.has_false && !other.is_empty() || other.has_false && !self.is_empty(),
            has_unknown: self.has_unknown && (other.has_unknown || other.has_true)
                || self.has_true && other.has_unknown,
        }
    }

    /// Each truth value with each of the other set, through OR.
    #[inline(always)]
    pub fn or(self, other: TruthSet) -> TruthSet
        ensures { result ≡ sets.or_set self other }
    {
        TruthSet {
            has_true: self.has_true && !other.is_empty() || other.has_true && !self.is_empty(),
            has_false: self.has_false && other.has_false,
            has_unknown: self.has_unknown && (other.has_unknown || other.has_false)
                || self.has_false && other.has_unknown,
        }
    }
}
