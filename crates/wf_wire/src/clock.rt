//! Where moments come from.

/// Tells moments, in milliseconds since the beginning of 1970. It can't fail.
///
/// `readings` are those to come, where the clock tells them: the first, the second and so on.
pub trait Clock {
    ghost use Rattle.std.specs.Prelude.{Option, ℕ};
    ghost use Rattle.wf_wire.specs.Stream.{Shows};

    ghost readings: { Self → Option (ℕ → ℕ) };

    fn now(&mut self) -> u64
        ensures reading { Shows (readings self.old) (readings self.new) result };
}

/// A clock that gives one moment each time.
#[derive(Clone, Copy, Debug, PartialEq, Eq)]
pub struct FixedClock(pub u64);

impl Clock for FixedClock {
    ghost use Rattle.std.specs.Prelude.{Some};

    ghost readings = { λ clock. Some (λ k. clock.0) };

    fn now(&mut self) -> u64 {
        self.0
    }
}
