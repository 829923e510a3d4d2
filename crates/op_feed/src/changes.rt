//! How the pieces of a space change, from those that were touched alone: a DEL for each piece that goes, and then an ADD for
//! each that comes.
ghost use Rattle.std.specs.Prelude.{◌≡◌, option_copied};
ghost use Rattle.op_feed.specs.PieceChanges.{goes, comes, piece_of_range};

use num_range::Range;
use reg_entry::Piece;

/// The piece of exactly this range.
fn piece_of_range<'a>(pieces: &'a [Piece], range: &Range) -> Option<&'a Piece>
    ensures { option_copied result ≡ piece_of_range pieces.now range.now }
{
    let mut left = pieces;
    while let [piece, rest @ ..] = left {
        if piece.range == *range {
            return Some(piece);
        }
        left = rest;
    }
    None
}

/// Whether a piece that was there goes: none of the pieces that stand there now has its range.
pub fn goes(after: &[Piece], piece: &Piece) -> bool
    ensures { result ≡ goes after.now piece.now }
{
    piece_of_range(after, &piece.range).is_none()
}

/// Whether a piece that stands there now comes: none of those before had its range, or the one that had it was another.
pub fn comes(before: &[Piece], piece: &Piece) -> bool
    ensures { result ≡ comes before.now piece.now }
{
    match piece_of_range(before, &piece.range) {
        Some(former) => piece != former,
        None => true,
    }
}
