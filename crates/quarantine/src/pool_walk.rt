ghost use Rattle.std.specs.Prelude.{◌≡◌};
ghost use Rattle.std.specs.Iterator.{YieldsFirst, item_count};
ghost use Rattle.quarantine.specs.Due.{all_pieces};

use num_range::Space;
use piece_book::{PieceBook, PieceWalk};
use reg_entry::Piece;
use std::marker::Model;

/// The pieces of the three spaces that are left: AS numbers, IPv4, IPv6, each space rising.
#[derive(Drop)]
pub(crate) struct PoolWalk<'a> {
    asn: PieceWalk<'a>,
    ipv4: PieceWalk<'a>,
    ipv6: PieceWalk<'a>,
}

impl<'a> Model for PoolWalk<'a> {
    ghost use Rattle.std.specs.Prelude.{List, ◌++◌};
    ghost use Rattle.reg_entry.specs.declared.piece.Piece.{Piece};

    ghost Value = { List Piece };

    ghost view = { λ w. w.asn ++ (w.ipv4 ++ w.ipv6) };
}

impl PoolWalk<'_> {
    pub(crate) fn over(pieces: &PieceBook) -> PoolWalk<'_>
        ensures { result ≡ all_pieces pieces.now.partition }
    {
        PoolWalk {
            asn: pieces.walk(Space::Asn),
            ipv4: pieces.walk(Space::Ipv4),
            ipv6: pieces.walk(Space::Ipv6),
        }
    }
}

impl Iterator for PoolWalk<'_> {
    type Item = Piece;

    ghost next_gives = { YieldsFirst (λ left. left) };

    ghost remaining = { item_count (λ left. left) };

    fn next(&mut self) -> Option<Piece> {
        if let Some(piece) = self.asn.next() {
            return Some(piece);
        }
        if let Some(piece) = self.ipv4.next() {
            return Some(piece);
        }
        self.ipv6.next()
    }
}
