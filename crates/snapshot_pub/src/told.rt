//! What was published, as readers are told.
ghost use Rattle.std.specs.Prelude.{◌≡◌, true, length};
ghost use mathlib.Core.List.{IsPrefix};

use entry_log::Front;
use std::marker::Model;

/// A list that was published. It may go to another thread.
#[derive(Drop)]
pub struct Told {
    front: Front,
}

impl Model for Told {
    ghost use Rattle.entry_log.specs.Front.{PlainFront};

    ghost Value = { PlainFront };

    ghost view = { λ t. t.front };
}

impl Told {
    pub(crate) fn over(front: Front) -> Told
        ensures { result ≡ front }
    {
        Told { front }
    }

    /// How many entries the list has.
    pub fn entries(&self) -> u64
        ensures { result ≡ length self.now.entries }
    {
        self.front.entries()
    }

    /// Whether the list that was told of begins the other's, as far as their counts show.
    pub(crate) fn begins(&self, other: &Front) -> bool
        requires book { other.now.book ≡ self.now.book }
        ensures prefix { result ≡ true → IsPrefix self.now.entries other.now.entries }
    {
        self.front.begins(other)
    }
}
