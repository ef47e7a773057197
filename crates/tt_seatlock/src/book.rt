//! What the lock asks of the value that it guards.

ghost use Rattle.std.specs.Prelude.{◌≡◌, ℕ, ◌^◌, ◌<◌, List, length};

/// A value that has a history and a ground. The history is a list of entries, each with the number of the pass that made
/// it, and the ground is what no entry changes.
pub trait Book {
    type Entry;

    type Ground;

    ghost entries: { Self → List Self.Entry };

    ghost number: { Self.Entry → ℕ };

    ghost ground_of: { Self → Self.Ground };

    /// How many entries the history has.
    fn length(&self) -> u64
        ensures exact { result ≡ length (entries self.now) }
        ensures bounded { length (entries self.now) < 2 ^ 63 };
}
