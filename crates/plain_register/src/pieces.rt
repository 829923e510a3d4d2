//! Look-ups in the pieces of a space, each by one walk.
ghost use Rattle.std.specs.Prelude.{◌≡◌, ◌≤◌, IfSome};
ghost use Rattle.reg_entry.specs.Pieces.{piece_holds, piece_meets, piece_at, first_met};
ghost use Rattle.reg_entry.specs.Decision.{least_missing};

use num_range::Range;
use reg_entry::Piece;

fn holds(piece: &Piece, value: u128) -> bool
    ensures { result ≡ piece_holds piece.now value }
{
    piece.range.first() <= value && value <= piece.range.last()
}

fn meets(piece: &Piece, range: &Range) -> bool
    ensures { result ≡ piece_meets range.now piece.now }
{
    piece.range.first() <= range.last() && range.first() <= piece.range.last()
}

/// The piece that holds the value.
pub(crate) fn piece_at(pieces: &[Piece], value: u128) -> Option<Piece>
    ensures { result ≡ piece_at pieces.now value }
{
    for piece in pieces {
        if holds(piece, value) {
            return Some(*piece);
        }
    }
    None
}

/// The first piece that has a number of the range.
pub(crate) fn first_met(pieces: &[Piece], range: &Range) -> Option<Piece>
    ensures first { result ≡ first_met pieces.now range.now }
    ensures begins { IfSome result (λ p. p.range.first ≤ range.now.last) }
{
    for piece in pieces {
        if meets(piece, range) {
            return Some(*piece);
        }
    }
    None
}

/// The least number of those from the first to the last that no piece holds.
pub(crate) fn least_missing(pieces: &[Piece], first: u128, last: u128) -> Option<u128>
    ensures number { result ≡ least_missing pieces.now first last }
    ensures within { IfSome result (λ number. number ≤ last) }
{
    let mut next = first;
    for piece in pieces {
        if holds(piece, next) {
            if last <= piece.range.last() {
                return None;
            }
            next = piece.range.last() + 1;
        }
    }
    if next <= last { Some(next) } else { None }
}
