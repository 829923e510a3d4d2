ghost use Rattle.std.specs.Prelude.{◌≡◌};

use std::marker::Model;

/// Names a place of the pool that gave it out.
#[derive(Clone, Copy)]
pub struct Slot {
    pub(crate) index: u32,
}

impl Model for Slot {
    ghost use Rattle.std.specs.Prelude.{ℕ};

    ghost Value = { ℕ };

    ghost view = { λ s. s.index };

    ghost inverse = { λ n. record { index = n } };
}

impl Slot {
    /// Which of the pool's places it is, counted from 0.
    pub fn index(&self) -> usize
        ensures { result ≡ self.now }
    {
        self.index as usize
    }
}
