ghost use Rattle.std.specs.Prelude.{◌≡◌, ◌≤◌, ◌↔◌, IsSome, IfSome};
ghost use Rattle.num_range.specs.Space.{top_of};
ghost use Rattle.num_range.specs.Number.{number_before};

use crate::Space;
use std::marker::Model;

/// One number of a space.
#[derive(Clone, Copy, Debug, PartialEq, Eq)]
pub struct Number {
    space: Space,
    value: u128,
}

impl Model for Number {
    ghost use Rattle.num_range.specs.Number.{PlainNumber, IsNumber};

    ghost Value = { PlainNumber };

    ghost view = { λ n. record { space = n.space; value = n.value } };

    ghost invariant = { λ n. IsNumber (record { space = n.space; value = n.value }) };

    ghost inverse = { λ n. record { space = n.space; value = n.value } };
}

impl Number {
    /// The number, or nothing where the value is above the space's greatest.
    pub fn new(space: Space, value: u128) -> Option<Number>
        ensures fits { IsSome result ↔ (value ≤ top_of space) }
        ensures number { IfSome result (λ n. n ≡ record { space = space; value = value }) }
    {
        if value <= space.top() {
            Some(Number { space, value })
        } else {
            None
        }
    }

    /// The number of a value that is known to be of the space.
    pub fn of(space: Space, value: u128) -> Number
        requires { value ≤ top_of space }
        ensures { result ≡ record { space = space; value = value } }
    {
        Number { space, value }
    }

    pub fn space(&self) -> Space
        ensures { result ≡ self.now.space }
    {
        self.space
    }

    pub fn value(&self) -> u128
        ensures value { result ≡ self.now.value }
        ensures within { result ≤ top_of self.now.space }
    {
        self.value
    }

    /// The number before this one, or 0, which has none before it.
    pub fn before(self) -> Number
        ensures { result ≡ number_before self }
    {
        Number {
            space: self.space,
            value: self.value.saturating_sub(1),
        }
    }
}
