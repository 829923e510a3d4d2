use crate::{Piece, SubCard};
use num_range::Range;

/// A registration that was looked for.
#[derive(Clone, Copy)]
pub enum Found {
    /// A delegated piece.
    Piece(Piece),
    /// A sub-assignment, with the range of the piece that it lies in.
    Sub {
        range: Range,
        card: SubCard,
        parent: Range,
    },
}
