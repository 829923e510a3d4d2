//! Whether the numbers of a range are in the pool, or may come into it.
ghost use Rattle.std.specs.Prelude.{◌≡◌, ◌≤◌, IfSome, IfNone};
ghost use Rattle.num_range.specs.Space.{top_of};
ghost use Rattle.reg_entry.specs.Decision.{least_outside_unicast, outside_unicast, outside_pool, least_missing};
ghost use Rattle.reg_entry.specs.Covers.{first_number};
ghost use Rattle.reg_entry.specs.Register.{register_pieces, piece_of};

use crate::Board;
use num_range::{Number, Range, Space};
use reg_entry::{Piece, Refusal};

/// 2000::, the first number of global unicast (RFC 4291 2.4).
const FIRST_UNICAST: u128 = 1 << 125;

/// 4000::, the first number behind 2000::/3.
const UNICAST_END: u128 = 1 << 126;

/// The least number of an IPv6 range outside global unicast.
fn least_outside_unicast(range: &Range) -> Option<u128>
    ensures value { result ≡ least_outside_unicast range.now.space range.now }
    ensures within { IfSome result (λ value. value ≤ top_of range.now.space) }
{
    if range.space() != Space::Ipv6 {
        return None;
    }
    let (first, last) = (range.first(), range.last());
    if first < FIRST_UNICAST {
        Some(first)
    } else if last < UNICAST_END {
        None
    } else {
        Some(first.max(UNICAST_END))
    }
}

pub(crate) fn outside_unicast(range: &Range) -> Option<Refusal>
    ensures { result ≡ outside_unicast range.now }
{
    let value = least_outside_unicast(range)?;
    let number = Number::of(range.space(), value);
    Some(Refusal::OutsidePool { number })
}

impl Board {
    /// The least number of the range that no piece holds. Only the pieces that the range meets are looked at.
    #[tactic(auto, using(crate::proofs::Missing::missing_behind, crate::proofs::Missing::missing_here, crate::proofs::Missing::missing_past))]
    fn least_missing(&self, range: &Range) -> Option<u128>
        ensures value { result ≡ least_missing (register_pieces self.now.register range.now.space) range.now.first range.now.last }
        ensures within { IfSome result (λ value. value ≤ top_of range.now.space) }
    {
        let (space, last) = (range.space(), range.last());
        self.pieces().are_pieces();
        let mut value = range.first();
        'pieces: while let Some(piece) = self.piece_of(Number::of(space, value)) {
            let end = piece.range.last();
            if last <= end {
                return None;
            }
            value = end + 1;
        }
        Some(value)
    }

    /// Why the range isn't in the pool, or nothing, where this is the piece that holds its first number: it is the only one
    /// that is looked at where it has the whole range.
    pub(crate) fn outside_pool(&self, range: &Range, piece: Option<Piece>) -> Option<Refusal>
        requires { piece ≡ piece_of self.now.register.pool (first_number range.now) }
        ensures { result ≡ outside_pool self.now.register range.now }
    {
        if let Some(piece) = piece {
            if range.last() <= piece.range.last() {
                self.pieces().are_pieces();
                return None;
            }
        }
        let value = self.least_missing(range)?;
        let number = Number::of(range.space(), value);
        Some(Refusal::OutsidePool { number })
    }
}
