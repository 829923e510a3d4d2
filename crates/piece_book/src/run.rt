//! The pieces that give way to a new one over a range: those that the range meets, and available neighbours where the new
//! one is available too.
ghost use Rattle.std.specs.Prelude.{◌≡◌, ◌+◌, ◌^◌, ◌<◌, List, [], ◌∷◌, ◌++◌, None, nat_le, take, IfSome};
ghost use Rattle.num_range.specs.Range.{IsRange};
ghost use Rattle.reg_entry.specs.declared.piece.Piece.{Piece};
ghost use Rattle.reg_entry.specs.Pieces.{ArePieces};
ghost use Rattle.piece_book.specs.GivesWay.{both_available, gives_way, giving_way};
ghost use Rattle.piece_book.specs.Run.{IsRun};

use crate::space_book::SpaceBook;
use arrayvec::ArrayVec;
use num_range::Range;
use reg_entry::{Piece, Status};

/// What is noted of a run of pieces.
#[derive(Drop)]
pub(crate) struct Run {
    pub(crate) first: Option<Piece>,
    pub(crate) last: Option<Piece>,
    pub(crate) count: u32,
    /// The first three.
    pub(crate) few: ArrayVec<Piece, 3>,
}

impl Run {
    fn new() -> Run
        ensures { IsRun [] result.first result.last result.count result.few.items }
    {
        Run {
            first: None,
            last: None,
            count: 0,
            few: ArrayVec::new(),
        }
    }

    /// Notes one piece more.
    fn add(&mut self, piece: &Piece)
        requires { self.old.count < 2 ^ 31 }
        ensures { (ps : List Piece) → IsRun ps self.old.first self.old.last self.old.count self.old.few.items
            → IsRun (ps ++ piece.now ∷ []) self.new.first self.new.last self.new.count self.new.few.items }
    {
        self.first = Some(self.first.unwrap_or(*piece));
        self.last = Some(*piece);
        self.count += 1;
        keep_few(&mut self.few, piece);
    }
}

/// Keeps the piece where it is one of the first three.
fn keep_few(few: &mut ArrayVec<Piece, 3>, piece: &Piece)
    ensures { few.new.items ≡ take 3 (few.old.items ++ piece.now ∷ []) }
{
    if few.len() == 3 {
        return;
    }
    few.push(*piece);
}

/// Whether a piece that ends at the one number meets one that begins at the other, or the two touch.
fn touches(last: u128, first: u128) -> bool
    ensures { result ≡ nat_le first (last + 1) }
{
    first <= last || first - 1 == last
}

/// Whether the piece and a new one of the status become one where they touch.
pub(crate) fn both_available(piece: &Piece, status: Status) -> bool
    ensures { result ≡ both_available status piece.now }
{
    piece.card.status.is_available() && status.is_available()
}

/// Whether the piece gives way to a new one of the status over the range.
fn gives_way(piece: &Piece, range: &Range, status: Status) -> bool
    ensures { result ≡ gives_way range.now status piece.now }
{
    let (first, last) = (piece.range.first(), piece.range.last());
    if both_available(piece, status) {
        return touches(last, range.first()) && touches(range.last(), first);
    }
    range.first() <= last && first <= range.last()
}

/// The piece that alone gives way, where it has the whole range and doesn't become one with a new piece of the status. One
/// look-up finds it.
pub(crate) fn piece_around(book: &SpaceBook, range: &Range, status: Status) -> Option<Piece>
    ensures alone { IfSome result (λ p. giving_way range.now status book.now.pieces ≡ p ∷ []) }
    ensures pieces { IfSome result (λ _. ArePieces book.now.space book.now.pieces) }
    ensures valid { IfSome result (λ _. IsRange range.now) }
{
    if status.is_available() {
        return None;
    }
    let first = range.first();
    let piece = book.piece_at(first)?;
    if range.last() <= piece.range.last() {
        Some(piece)
    } else {
        None
    }
}

/// The pieces of the space that give way. They stand behind one another, so only they and their neighbours are looked at.
pub(crate) fn giving_way(book: &SpaceBook, range: &Range, status: Status) -> Run
    ensures run { IsRun (giving_way range.now status book.now.pieces) result.first result.last result.count result.few.items }
    ensures pieces { ArePieces book.now.space book.now.pieces }
    ensures valid { IsRange range.now }
{
    let mut run = Run::new();
    let last = range.last();
    for piece in book.walk_from(book.start(range.first())) {
        if gives_way(&piece, range, status) {
            run.add(&piece);
        } else if last < piece.range.first() {
            return run;
        }
    }
    run
}
