use crate::Part;
use crate::space_book::piece_of_pair;
use num_range::Space;
use page_dir::PageWalk;
use reg_entry::Piece;
use std::marker::Model;

/// Goes over pieces, rising.
#[derive(Drop)]
pub struct PieceWalk<'a> {
    space: Space,
    rest: PageWalk<'a, u128, Part>,
}

impl<'a> Model for PieceWalk<'a> {
    ghost use Rattle.std.specs.Prelude.{List};
    ghost use Rattle.reg_entry.specs.declared.piece.Piece.{Piece};
    ghost use Rattle.piece_book.specs.Pairs.{AreOfRanges, pieces_of_pairs};

    ghost Value = { List Piece };

    ghost view = { λ w. pieces_of_pairs w.space w.rest };

    ghost invariant = { λ w. AreOfRanges w.space w.rest };
}

impl PieceWalk<'_> {
    ghost use Rattle.std.specs.Prelude.{◌≡◌, ℕ, List};
    ghost use Rattle.piece_book.specs.declared.part.Part.{Part};
    ghost use Rattle.piece_book.specs.Pairs.{AreOfRanges, pieces_of_pairs};

    pub(crate) fn over(space: Space, rest: PageWalk<'_, u128, Part>) -> PieceWalk<'_>
        requires { AreOfRanges space rest }
        ensures { result ≡ pieces_of_pairs space rest.entry }
    {
        PieceWalk { space, rest }
    }
}

impl Iterator for PieceWalk<'_> {
    ghost use Rattle.std.specs.Iterator.{YieldsFirst, item_count};

    type Item = Piece;

    ghost next_gives = { YieldsFirst (λ w. w) };

    ghost remaining = { item_count (λ w. w) };

    fn next(&mut self) -> Option<Piece> {
        let pair = self.rest.next()?;
        Some(piece_of_pair(self.space, &pair))
    }
}
