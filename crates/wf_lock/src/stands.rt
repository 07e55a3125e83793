//! Values that stand for histories.
ghost use Rattle.std.specs.Prelude.{List, Bool, ℕ};

/// A value that stands for lists of entries, from a base.
pub trait Stands {
    /// What one turn adds to the history.
    type Entry: Drop;

    /// What the value began from. Contracts alone see it.
    type Base;

    /// The base of this value.
    ghost base: { Self → Self.Base };

    /// Whether this value stands for this history, from its base.
    ghost stands: { Self → List Self.Entry → Type 0 };

    /// Whether only the pass with the drain right may make this entry.
    ghost marked: { Self.Entry → Bool };

    /// The number of the pass that made this entry.
    ghost caller: { Self.Entry → ℕ };
}
