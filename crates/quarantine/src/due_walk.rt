ghost use Rattle.std.specs.Prelude.{◌≡◌, length};
ghost use Rattle.std.specs.Iterator.{YieldsFirst, item_count};
ghost use Rattle.quarantine.specs.Due.{is_due, due_pieces};

use crate::pool_walk::PoolWalk;
use piece_book::PieceBook;
use reg_entry::{Piece, Status};
use std::marker::Model;

/// The due pieces that are left: AS numbers, IPv4, IPv6, each space rising.
#[derive(Drop)]
pub struct DueWalk<'a> {
    pieces: PoolWalk<'a>,
    day: u32,
}

impl<'a> Model for DueWalk<'a> {
    ghost use Rattle.std.specs.Prelude.{List};
    ghost use Rattle.std.specs.List.{filter};
    ghost use Rattle.reg_entry.specs.declared.piece.Piece.{Piece};
    ghost use Rattle.quarantine.specs.Due.{is_due};

    ghost Value = { List Piece };

    ghost view = { λ w. filter (is_due w.day) w.pieces };
}

fn is_due(piece: &Piece, day: u32) -> bool
    ensures { result ≡ is_due day piece.now }
{
    piece.card.status == Status::Quarantine && piece.card.until <= day
}

/// Walks the pieces in quarantine whose last day is the given one (counted from 1970-01-01) or before it: AS numbers,
/// then IPv4, then IPv6, each space rising. It takes no memory.
pub fn due(pieces: &PieceBook, day: u32) -> DueWalk<'_>
    ensures { result ≡ due_pieces pieces.now.partition day }
{
    DueWalk {
        pieces: PoolWalk::over(pieces),
        day,
    }
}

/// How many pieces the walk of the day gives.
#[tactic(auto, using(crate::proofs::Counts::due_within))]
pub fn due_count(pieces: &PieceBook, day: u32) -> u32
    ensures { result ≡ length (due_pieces pieces.now.partition day) }
{
    // The count of all pieces bounds that of those that are due.
    pieces.are_pieces();
    due(pieces, day).count() as u32
}

impl Iterator for DueWalk<'_> {
    type Item = Piece;

    ghost next_gives = { YieldsFirst (λ left. left) };

    ghost remaining = { item_count (λ left. left) };

    fn next(&mut self) -> Option<Piece> {
        'pieces: while let Some(piece) = self.pieces.next() {
            if is_due(&piece, self.day) {
                return Some(piece);
            }
        }
        None
    }
}
