//! The leftmost of some places, and refusals at a place.

ghost use Rattle.std.specs.Prelude.{◌≡◌};
ghost use Rattle.tt_plain.specs.Places as spec;

/// The one further to the left, if there is any.
pub fn earlier(a: Option<u32>, b: Option<u32>) -> Option<u32>
    ensures { result ≡ spec.earlier a b }
{
    match (a, b) {
        (None, b) => b,
        (a, None) => a,
        (Some(a), Some(b)) => Some(a.min(b)),
    }
}
