ghost use Rattle.std.specs.Prelude.{◌≡◌, [], ◌∷◌};

use arrayvec::ArrayVec;
use reg_entry::{Piece, Touched};

/// A change that touched no piece.
pub(crate) fn nothing_touched() -> Touched
    ensures before { result.before.items ≡ [] }
    ensures after { result.after.items ≡ [] }
{
    Touched {
        before: ArrayVec::new(),
        after: ArrayVec::new(),
    }
}

pub(crate) fn one_piece(piece: &Piece) -> ArrayVec<Piece, 3>
    ensures { result.items ≡ piece.now ∷ [] }
{
    let mut pieces = ArrayVec::new();
    pieces.push(*piece);
    pieces
}

pub(crate) fn two_pieces(low: &Piece, high: &Piece) -> ArrayVec<Piece, 3>
    ensures { result.items ≡ low.now ∷ high.now ∷ [] }
{
    let mut pieces = ArrayVec::new();
    pieces.push(*low);
    pieces.push(*high);
    pieces
}
