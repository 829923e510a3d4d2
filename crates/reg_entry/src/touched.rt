use crate::Piece;
use arrayvec::ArrayVec;

/// What a change of the pieces of a space touched, each list rising by range.
#[derive(Drop)]
pub struct Touched {
    /// The pieces that went or changed.
    pub before: ArrayVec<Piece, 3>,
    /// What stands there now.
    pub after: ArrayVec<Piece, 3>,
}
