ghost use Rattle.std.specs.Prelude.{ℕ};

/// What day it is.
pub trait Clock {
    // the days that the clock may give
    ghost states: { Self → ℕ → Type 0 };

    /// The day, counted from 1970-01-01, which is day 0.
    fn day(&self) -> u32
        ensures { states self.now result };
}
