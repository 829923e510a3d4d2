//! The search for the block that a delegation takes.
ghost use Rattle.std.specs.Prelude.{◌≡◌, ◌≤◌, ◌<◌, ◌+◌, ◌^◌, None, Some, true, false, IfSome, MatchOption, ◌-◌};
ghost use Rattle.num_range.specs.Space.{top_of};
ghost use Rattle.reg_entry.specs.Pieces.{ArePieces};
ghost use Rattle.reg_entry.specs.Blocks.{alignment, rounded_up, least_block};
ghost use Rattle.plain_register.specs.Fitting.{has_room};

use num_range::Space;
use reg_entry::Piece;

/// How far the first multiple of the size that is no less than `n` lies above it.
#[tactic(auto, using(crate::proofs::Rounding::gap_none, crate::proofs::Rounding::gap_some))]
fn gap(n: u128, size: u128) -> u128
    requires { 0 < size }
    ensures gap { n + result ≡ rounded_up n size }
    ensures below { result < size }
{
    let past = n % size;
    if past == 0 { 0 } else { size - past }
}

/// A block of addresses starts at a multiple of its size (RFC 4632 3.1); AS numbers start anywhere.
fn alignment(space: Space, size: u128) -> u128
    ensures { result ≡ alignment space size }
{
    match space {
        Space::Asn => 1,
        Space::Ipv4 | Space::Ipv6 => size,
    }
}

/// The first aligned start in an available piece that has room for the block behind it.
fn start_within(piece: &Piece, space: Space, size: u128) -> Option<u128>
    requires least { 0 < size }
    requires most { size ≤ 2 ^ 125 }
    ensures within { IfSome result (λ start. start + (size - 1) ≤ piece.now.range.last) }
    ensures block { MatchOption result (has_room piece.now space size ≡ false)
        (λ start. (has_room piece.now space size ≡ true) × (start ≡ rounded_up piece.now.range.first (alignment space size))) }
{
    if !piece.card.status.is_available() {
        return None;
    }
    let first = piece.range.first();
    let behind = piece.range.last() - first;
    if behind < size - 1 {
        return None;
    }
    let gap = gap(first, alignment(space, size));
    if behind < gap + (size - 1) {
        return None;
    }
    Some(first + gap)
}

/// The start of the least aligned block of a size, all of whose numbers are available. The search goes over the pieces
/// once, up to the one in which the block lies.
#[tactic(auto, using(crate::proofs::Neighbours::within_at))]
pub(crate) fn least_block(pieces: &[Piece], space: Space, size: u128) -> Option<u128>
    requires valid { ArePieces space pieces.now }
    requires least { 0 < size }
    requires most { size ≤ 2 ^ 125 }
    ensures block { result ≡ least_block pieces.now space size }
    ensures within { IfSome result (λ start. start + (size - 1) ≤ top_of space) }
{
    for piece in pieces {
        if let Some(start) = start_within(piece, space, size) {
            return Some(start);
        }
    }
    None
}
