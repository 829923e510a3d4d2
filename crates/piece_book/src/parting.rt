//! Parting a piece in two, and making one of two.
ghost use Rattle.std.specs.Prelude.{◌≡◌, ◌+◌, ◌-◌, length};
ghost use Rattle.reg_entry.specs.Pieces.{ArePieces};
ghost use Rattle.reg_entry.specs.Reshaping.{CanJoinAt, joined_at, split_at_number};
ghost use Rattle.piece_book.specs.Cutting.{IsSplitPlace};
ghost use Rattle.piece_book.specs.Exchange.{IsExchange};
ghost use Rattle.piece_book.specs.Touched.{IsTouched};

use crate::space_book::SpaceBook;
use crate::touched::{one_piece, two_pieces};
use num_range::Range;
use reg_entry::laws::{joining_keeps_pieces, splitting_keeps_pieces};
use reg_entry::{Piece, Touched};

/// What parting the piece that holds the number touches.
pub(crate) fn parted(book: &SpaceBook, at: u128) -> Touched
    requires { IsSplitPlace book.now.pieces at }
    ensures exchange { IsExchange result.before.items result.after.items book.now.pieces (split_at_number book.now.pieces at) }
    ensures count { length (split_at_number book.now.pieces at) ≡ length book.now.pieces + 1 }
    ensures pieces { ArePieces book.now.space (split_at_number book.now.pieces at) }
    ensures touched { IsTouched book.now.pieces (split_at_number book.now.pieces at) result.before.items result.after.items }
{
    splitting_keeps_pieces();
    let Some(piece) = book.piece_at(at) else {
        unreachable!()
    };
    let space = piece.range.space();
    let low = Piece {
        range: Range::between(space, piece.range.first(), at - 1),
        card: piece.card,
    };
    let high = Piece {
        range: Range::between(space, at, piece.range.last()),
        card: piece.card,
    };
    Touched {
        before: one_piece(&piece),
        after: two_pieces(&low, &high),
    }
}

/// What making one of the piece that begins at the number and the one before it touches.
pub(crate) fn made_one(book: &SpaceBook, at: u128) -> Touched
    requires { CanJoinAt book.now.pieces at }
    ensures exchange { IsExchange result.before.items result.after.items book.now.pieces (joined_at book.now.pieces at) }
    ensures count { length (joined_at book.now.pieces at) + 1 ≡ length book.now.pieces }
    ensures pieces { ArePieces book.now.space (joined_at book.now.pieces at) }
    ensures touched { IsTouched book.now.pieces (joined_at book.now.pieces at) result.before.items result.after.items }
{
    joining_keeps_pieces();
    let (Some(below), Some(above)) = (book.piece_at(at - 1), book.piece_at(at)) else {
        unreachable!()
    };
    let pair = Piece {
        range: Range::between(below.range.space(), below.range.first(), above.range.last()),
        card: below.card,
    };
    Touched {
        before: two_pieces(&below, &above),
        after: one_piece(&pair),
    }
}
