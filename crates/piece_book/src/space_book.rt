ghost use Rattle.std.specs.Prelude.{◌≡◌, ◌+◌, ◌-◌, ◌^◌, ◌<◌, ◌≤◌, ◌&&◌, nat_le, [], length, drop, find, map, IfOk, IfSome};
ghost use Rattle.std.specs.List.{slice_get};
ghost use Rattle.std.specs.Ordering.{nat_cmp};
ghost use Rattle.num_range.specs.declared.space.Space.{Space};
ghost use Rattle.num_range.specs.Space.{top_of};
ghost use Rattle.num_range.specs.Range.{PlainRange};
ghost use Rattle.reg_entry.specs.declared.card.Status.{Status};
ghost use Rattle.reg_entry.specs.declared.piece.Piece.{Piece};
ghost use Rattle.reg_entry.specs.Pieces.{ArePieces, piece_at};
ghost use Rattle.reg_entry.specs.Sums.{status_sum};
ghost use Rattle.page_dir.specs.Sorted.{last_at_most};
ghost use Rattle.piece_book.specs.declared.part.Part.{Part};
ghost use Rattle.piece_book.specs.Exchange.{begun_below, exchanged, place_of, start_of};
ghost use Rattle.piece_book.specs.GivesWay.{giving_way};
ghost use Rattle.piece_book.specs.Pairs.{pair_of_piece, piece_of_pair, pieces_of_pairs};
ghost use Rattle.piece_book.specs.SpaceBook.{last_begun};

use crate::sums::status_sum;
use crate::{Part, PieceWalk};
use arrayvec::ArrayVec;
use num_range::{Range, Space};
use page_dir::{PageDir, Steps};
use reg_entry::{Piece, Status, Touched};
use std::alloc::{AllocError, Global};
use std::marker::{Brand, Model};
use std::sync::ledger::{Blank, Ledger};

/// The pieces of one space.
#[derive(Drop)]
pub(crate) struct SpaceBook {
    space: Space,
    /// Each piece under its first number.
    parts: PageDir<u128, Part>,
}

impl Model for SpaceBook {
    ghost use Rattle.reg_entry.specs.Pieces.{ArePieces};
    ghost use Rattle.piece_book.specs.Pairs.{pieces_of_pairs};
    ghost use Rattle.piece_book.specs.SpaceBook.{PlainSpace};

    ghost Value = { PlainSpace };

    ghost view = { λ b. record { space = b.space; pieces = pieces_of_pairs b.space b.parts.pairs; room = b.parts.room } };

    ghost invariant = { λ b. ArePieces b.space (pieces_of_pairs b.space b.parts.pairs) };
}

impl SpaceBook {
    pub(crate) fn with_room(alloc: Global, space: Space, room: u32) -> Result<SpaceBook, AllocError>
        requires least { 1 ≤ room }
        requires most { room ≤ 2 ^ 30 }
        ensures { IfOk result (λ book. book ≡ record { space = space; pieces = []; room = room }) }
    {
        Ok(SpaceBook {
            space,
            parts: PageDir::with_room(alloc, room)?,
        })
    }

    pub(crate) fn directory(&self) -> &PageDir<u128, Part>
        ensures { pieces_of_pairs self.now.space result.now.pairs ≡ self.now.pieces }
    {
        &self.parts
    }

    /// How many pieces there are.
    pub(crate) fn len(&self) -> u32
        ensures count { result ≡ length self.now.pieces }
        ensures most { length self.now.pieces ≤ 2 ^ 30 }
        ensures valid { ArePieces self.now.space self.now.pieces }
    {
        let _ = &self.space;
        let _room = self.parts.room();
        self.parts.len()
    }

    /// The last piece that begins at the value or below.
    fn last_begun(&self, value: u128) -> Option<Piece>
        ensures found { result ≡ last_begun value self.now.pieces }
        ensures valid { ArePieces self.now.space self.now.pieces }
    {
        let pair = found::<Brand>(&self.parts, value, Blank::new(1))?;
        Some(piece_of_pair(self.space, &pair))
    }

    /// The first piece that begins at the value or above.
    fn next_begun(&self, value: u128) -> Option<Piece>
        ensures { result ≡ slice_get self.now.pieces (begun_below value self.now.pieces) }
    {
        let pair = self.parts.from(&value)?;
        Some(piece_of_pair(self.space, &pair))
    }

    /// The piece that holds the value.
    pub(crate) fn piece_at(&self, value: u128) -> Option<Piece>
        ensures found { result ≡ piece_at self.now.pieces value }
        ensures valid { ArePieces self.now.space self.now.pieces }
    {
        let piece = self.last_begun(value)?;
        if value <= piece.range.last() {
            Some(piece)
        } else {
            None
        }
    }

    /// The first piece that has one of the numbers from the first to the last.
    pub(crate) fn first_between(&self, first: u128, last: u128) -> Option<Piece>
        requires { first ≤ last }
        ensures first { result ≡ find (λ p. nat_le p.range.first last && nat_le first p.range.last) self.now.pieces }
        ensures begins { IfSome result (λ p. p.range.first ≤ last) }
    {
        if let Some(piece) = self.piece_at(first) {
            return Some(piece);
        }
        let piece = self.next_begun(first)?;
        if piece.range.first() <= last {
            Some(piece)
        } else {
            None
        }
    }

    /// From where on pieces may give way to one that begins at the value.
    pub(crate) fn start(&self, value: u128) -> u128
        ensures { (range : PlainRange) (status : Status) → range.first ≡ value → range.first ≤ range.last
            → giving_way range status (drop (begun_below result self.now.pieces) self.now.pieces) ≡ giving_way range status self.now.pieces }
    {
        if value == 0 {
            return 0;
        }
        match self.last_begun(value - 1) {
            Some(piece) => piece.range.first(),
            None => value,
        }
    }

    /// The pieces that begin at the value or above, rising.
    pub(crate) fn walk_from(&self, value: u128) -> PieceWalk<'_>
        ensures pieces { result ≡ drop (begun_below value self.now.pieces) self.now.pieces }
        ensures most { length self.now.pieces ≤ 2 ^ 30 }
        ensures valid { ArePieces self.now.space self.now.pieces }
    {
        let _room = self.parts.room();
        let _len = self.parts.len();
        PieceWalk::over(self.space, self.parts.walk_from(&value))
    }

    /// The pieces, rising.
    pub(crate) fn walk(&self) -> PieceWalk<'_>
        ensures pieces { result ≡ self.now.pieces }
        ensures valid { ArePieces self.now.space self.now.pieces }
    {
        self.walk_from(0)
    }

    /// How many numbers have the status.
    pub(crate) fn sum(&self, status: Status) -> u128
        ensures { result ≡ status_sum self.now.pieces status }
    {
        status_sum(self.walk(), status)
    }

    /// Says that what stands near this value is asked for next. It changes nothing.
    pub(crate) fn approach(&mut self, value: u128)
        ensures { self.new ≡ self.old }
    {
        self.parts.approach(&value);
    }

    /// The pieces that go give way to those that come. Each change of the pieces is one such exchange.
    pub(crate) fn exchange(&mut self, change: &Touched)
        requires there { place_of change.now.after.items self.old.pieces + length change.now.before.items ≤ length self.old.pieces }
        requires pieces { ArePieces self.old.space (exchanged change.now.before.items change.now.after.items self.old.pieces) }
        requires room { length (exchanged change.now.before.items change.now.after.items self.old.pieces) ≤ self.old.room }
        ensures { self.new ≡ record self.old { pieces = exchanged change.now.before.items change.now.after.items self.old.pieces } }
    {
        let pairs = pairs_of_pieces(&change.after);
        let start = start_of(&change.after);
        let gone = change.before.len() as u32;
        self.parts.replace_run(&start, gone, &pairs);
    }
}

/// The pair with the greatest key that is at most this one; nobody counts the comparisons.
fn found<L: Ledger>(parts: &PageDir<u128, Part>, value: u128, blank: Blank) -> Option<(u128, Part)>
    requires name { blank.name ≡ L.name }
    requires parts { blank.parts ≡ L.parts }
    requires some { 0 < blank.parts }
    ensures { result ≡ last_at_most nat_cmp value parts.now.pairs }
{
    let mut steps = Steps::<L>::new(blank);
    parts.find(&value, &mut steps)
}

pub(crate) fn piece_of_pair(space: Space, pair: &(u128, Part)) -> Piece
    requires ordered { pair.now.0 ≤ pair.now.1.last }
    requires within { pair.now.1.last ≤ top_of space }
    ensures { result ≡ piece_of_pair space pair.now }
{
    let (first, part) = pair;
    Piece {
        range: Range::between(space, *first, part.last),
        card: part.card,
    }
}

fn pairs_of_pieces(pieces: &[Piece]) -> ArrayVec<(u128, Part), 3>
    requires { length pieces.now ≤ 3 }
    ensures { result.items ≡ map pair_of_piece pieces.now }
{
    let mut pairs = ArrayVec::new();
    for piece in pieces {
        let part = Part {
            last: piece.range.last(),
            card: piece.card,
        };
        pairs.push((piece.range.first(), part));
    }
    pairs
}

/// Where the first of the pieces begins.
fn start_of(pieces: &[Piece]) -> u128
    ensures { result ≡ start_of pieces.now }
{
    match pieces {
        [first, ..] => first.range.first(),
        [] => 0,
    }
}
