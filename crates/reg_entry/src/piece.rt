use crate::Card;
use num_range::{Range, Space};

/// A range of numbers that have one card.
#[derive(Clone, Copy, PartialEq, Eq)]
pub struct Piece {
    pub range: Range,
    pub card: Card,
}

/// AS number 0 with the plain card, to fill what has room for pieces.
impl Default for Piece {
    fn default() -> Piece {
        Piece {
            range: Range::between(Space::Asn, 0, 0),
            card: Card::plain(),
        }
    }
}
