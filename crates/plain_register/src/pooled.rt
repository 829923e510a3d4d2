//! Whether the numbers of a range are in the pool, or may come into it.
ghost use Rattle.std.specs.Prelude.{◌≡◌, ◌≤◌, IfSome};
ghost use Rattle.num_range.specs.Space.{top_of};
ghost use Rattle.reg_entry.specs.Decision.{least_outside_unicast, outside_unicast, outside_pool};

use crate::PlainRegister;
use crate::pieces::least_missing;
use num_range::{Number, Range, Space};
use reg_entry::Refusal;

/// 2000::, the first number of global unicast (RFC 4291 2.4).
const FIRST_UNICAST: u128 = 1 << 125;

/// 4000::, the first number behind 2000::/3.
const UNICAST_END: u128 = 1 << 126;

/// The least number of an IPv6 range outside global unicast.
fn least_outside_unicast(range: &Range) -> Option<u128>
    ensures value { result ≡ least_outside_unicast range.now.space range.now }
    ensures within { IfSome result (λ value. value ≤ top_of range.now.space) }
{
    if range.space() != Space::Ipv6 {
        return None;
    }
    let (first, last) = (range.first(), range.last());
    if first < FIRST_UNICAST {
        Some(first)
    } else if last < UNICAST_END {
        None
    } else {
        Some(first.max(UNICAST_END))
    }
}

pub(crate) fn outside_unicast(range: &Range) -> Option<Refusal>
    ensures { result ≡ outside_unicast range.now }
{
    let value = least_outside_unicast(range)?;
    let number = Number::of(range.space(), value);
    Some(Refusal::OutsidePool { number })
}

impl PlainRegister {
    /// A number of the range lies in no piece.
    pub(crate) fn outside_pool(&self, range: &Range) -> Option<Refusal>
        ensures { result ≡ outside_pool self.now range.now }
    {
        let (space, first, last) = (range.space(), range.first(), range.last());
        let value = least_missing(self.pieces_in(space), first, last)?;
        let number = Number::of(space, value);
        Some(Refusal::OutsidePool { number })
    }
}
