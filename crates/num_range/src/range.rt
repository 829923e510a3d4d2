ghost use Rattle.std.specs.Prelude.{◌≡◌, ◌≤◌, ◌<◌, ◌↔◌, ◌^◌, IsSome, IfSome};
ghost use Rattle.num_range.specs.Space.{top_of};
ghost use Rattle.num_range.specs.Range.{IsRange, size_of, first_number, range_holds, lies_inside, ranges_meet};

use crate::{Number, Space};
use std::marker::Model;

/// A range of numbers of one space, its first and its last number included. Ranges are ordered by space, then by
/// first, then by last number.
#[derive(Clone, Copy, Debug, PartialEq, Eq, PartialOrd, Ord)]
pub struct Range {
    space: Space,
    first: u128,
    last: u128,
}

impl Model for Range {
    ghost use Rattle.num_range.specs.Range.{PlainRange, IsRange};

    ghost Value = { PlainRange };

    ghost view = { λ r. record { space = r.space; first = r.first; last = r.last } };

    ghost invariant = { λ r. IsRange (record { space = r.space; first = r.first; last = r.last }) };

    ghost inverse = { λ r. record { space = r.space; first = r.first; last = r.last } };
}

impl Range {
    /// The range from the first to the last number, or nothing where the first is above the last or the last above
    /// the space's greatest.
    pub fn new(space: Space, first: u128, last: u128) -> Option<Range>
        ensures fits { IsSome result ↔ ((first ≤ last) × (last ≤ top_of space)) }
        ensures range { IfSome result (λ r. r ≡ record { space = space; first = first; last = last }) }
    {
        if first <= last && last <= space.top() {
            Some(Range { space, first, last })
        } else {
            None
        }
    }

    /// The range of two numbers that are known to be in order and of the space.
    pub fn between(space: Space, first: u128, last: u128) -> Range
        requires ordered { first ≤ last }
        requires within { last ≤ top_of space }
        ensures { result ≡ record { space = space; first = first; last = last } }
    {
        Range { space, first, last }
    }

    pub fn space(&self) -> Space
        ensures { result ≡ self.now.space }
    {
        self.space
    }

    pub fn first(&self) -> u128
        ensures first { result ≡ self.now.first }
        ensures valid { IsRange self.now }
    {
        self.first
    }

    pub fn last(&self) -> u128
        ensures last { result ≡ self.now.last }
        ensures valid { IsRange self.now }
    {
        self.last
    }

    /// The first number of the range.
    pub fn first_number(&self) -> Number
        ensures { result ≡ first_number self.now }
    {
        Number::of(self.space, self.first)
    }

    /// Whether the number is one of the range's.
    pub fn holds(&self, n: Number) -> bool
        ensures { result ≡ range_holds self.now n }
    {
        self.space == n.space() && self.first <= n.value() && n.value() <= self.last
    }

    /// Whether each number of this range is one of the outer range's.
    pub fn inside(&self, outer: &Range) -> bool
        ensures { result ≡ lies_inside self.now outer.now }
    {
        self.space == outer.space && outer.first <= self.first && self.last <= outer.last
    }

    /// Whether the two ranges have a number in common.
    pub fn meets(&self, other: &Range) -> bool
        ensures { result ≡ ranges_meet self.now other.now }
    {
        self.space == other.space && self.first <= other.last && other.first <= self.last
    }

    /// How many numbers the range has. The one range with more than a `u128` counts is the whole IPv6 space.
    pub fn size(&self) -> u128
        requires { size_of self.now < 2 ^ 128 }
        ensures { result ≡ size_of self.now }
    {
        self.last - self.first + 1
    }
}
