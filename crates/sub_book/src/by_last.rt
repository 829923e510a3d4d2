ghost use Rattle.std.specs.Prelude.{◌≡◌};
ghost use Rattle.num_range.specs.Range.{IsRange};

use num_range::{Number, Range, Space};
use std::marker::Model;

/// A range in the order of the last numbers, in which the first range that ends at a number or above is one look-up away.
#[derive(Clone, Copy, PartialEq, Eq, PartialOrd, Ord)]
pub(crate) struct ByLast {
    space: Space,
    last: u128,
    first: u128,
}

impl Model for ByLast {
    ghost use Rattle.num_range.specs.Range.{PlainRange, IsRange};

    ghost Value = { PlainRange };

    ghost view = { λ r. record { space = r.space; first = r.first; last = r.last } };

    ghost invariant = { λ r. IsRange (record { space = r.space; first = r.first; last = r.last }) };

    ghost inverse = { λ r. record { space = r.space; last = r.last; first = r.first } };
}

impl ByLast {
    pub(crate) fn of(range: &Range) -> ByLast
        ensures { result ≡ range.now }
    {
        ByLast {
            space: range.space(),
            last: range.last(),
            first: range.first(),
        }
    }

    /// The least that ends at the number.
    pub(crate) fn ending_at(n: Number) -> ByLast
        ensures { result ≡ record { space = n.space; first = 0; last = n.value } }
    {
        ByLast {
            space: n.space(),
            last: n.value(),
            first: 0,
        }
    }

    pub(crate) fn range(&self) -> Range
        ensures range { result ≡ self.now }
        ensures valid { IsRange self.now }
    {
        Range::between(self.space, self.first, self.last)
    }
}
