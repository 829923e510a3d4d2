use crate::clock::Clock;

/// A clock that stands at one day, counted from 1970-01-01.
#[derive(Clone, Copy)]
pub struct FixedDay(pub u32);

impl Clock for FixedDay {
    ghost use Rattle.std.specs.Prelude.{◌≡◌};

    ghost states = { λ clock day. day ≡ clock.0 };

    fn day(&self) -> u32 {
        self.0
    }
}
