//! Painting a card over a range of a space: which pieces give way, and what comes in their place.
ghost use Rattle.std.specs.Prelude.{[], ◌∷◌, IsTrue, ◌≡◌, ◌+◌, ◌≤◌, length, option_to_list};
ghost use Rattle.std.specs.Option.{ForSome};
ghost use Rattle.num_range.specs.Range.{IsRange};
ghost use Rattle.num_range.specs.Space.{top_of};
ghost use Rattle.reg_entry.specs.Pieces.{ArePieces, IsCard, IsInOnePieceOrNone, IsPoolRange, laid};
ghost use Rattle.reg_entry.specs.declared.card.Card.{Card};
ghost use Rattle.reg_entry.specs.declared.piece.Piece.{Piece};
ghost use Rattle.piece_book.specs.Exchange.{IsExchange};
ghost use Rattle.piece_book.specs.GivesWay.{giving_way, new_first, new_last, rest_above, rest_below};
ghost use Rattle.piece_book.specs.Run.{AreSeams, IsBuilt, line_from};
ghost use Rattle.piece_book.specs.Touched.{IsTouched};

use crate::run::{both_available, giving_way, piece_around};
use crate::space_book::SpaceBook;
use arrayvec::ArrayVec;
use num_range::Range;
use reg_entry::laws::painting_keeps_pieces;
use reg_entry::{Card, Piece, Status, Touched};

/// What is at one end of the range.
#[derive(Drop)]
struct End {
    /// What is left of a piece that is cut there.
    rest: Option<Piece>,
    /// Where the new piece ends on that side.
    value: u128,
}

/// The lower end, where this is the first piece that gives way.
fn low_end(piece: &Option<Piece>, range: &Range, status: Status) -> End
    requires near { ForSome piece.now (λ p. range.now.first ≤ p.range.last + 1) }
    ensures rest { result.rest ≡ rest_below range.now status piece.now }
    ensures value { result.value ≡ new_first range.now status piece.now }
    ensures within { result.value ≤ range.now.first }
{
    let first = range.first();
    let apart = End {
        rest: None,
        value: first,
    };
    let Some(piece) = piece else {
        return apart;
    };
    if first <= piece.range.first() {
        return apart;
    }
    if both_available(piece, status) {
        return End {
            rest: None,
            value: piece.range.first(),
        };
    }
    End {
        rest: Some(Piece {
            range: Range::between(piece.range.space(), piece.range.first(), first - 1),
            card: piece.card,
        }),
        value: first,
    }
}

/// The upper end, where this is the last piece that gives way.
fn high_end(piece: &Option<Piece>, range: &Range, status: Status) -> End
    requires near { ForSome piece.now (λ p. p.range.first ≤ range.now.last + 1) }
    requires space { ForSome piece.now (λ p. p.range.space ≡ range.now.space) }
    ensures rest { result.rest ≡ rest_above range.now status piece.now }
    ensures value { result.value ≡ new_last range.now status piece.now }
    ensures within { range.now.last ≤ result.value }
    ensures top { result.value ≤ top_of range.now.space }
{
    let last = range.last();
    let apart = End {
        rest: None,
        value: last,
    };
    let Some(piece) = piece else {
        return apart;
    };
    if piece.range.last() <= last {
        return apart;
    }
    if both_available(piece, status) {
        return End {
            rest: None,
            value: piece.range.last(),
        };
    }
    End {
        rest: Some(Piece {
            range: Range::between(piece.range.space(), last + 1, piece.range.last()),
            card: piece.card,
        }),
        value: last,
    }
}

/// The pieces that give way, and what is at the two ends of the range.
#[derive(Drop)]
struct Seams {
    low: End,
    high: End,
    /// How many pieces give way.
    count: u32,
    /// The first three of them.
    few: ArrayVec<Piece, 3>,
}

fn seams_of(book: &SpaceBook, range: &Range, status: Status) -> Seams
    requires { book.now.space ≡ range.now.space }
    ensures seams { AreSeams range.now status (giving_way range.now status book.now.pieces) result.low.rest result.low.value
        result.high.rest result.high.value result.count result.few.items }
    ensures low { result.low.value ≤ range.now.first }
    ensures high { range.now.last ≤ result.high.value }
    ensures top { result.high.value ≤ top_of range.now.space }
    ensures pieces { ArePieces range.now.space book.now.pieces }
    ensures valid { IsRange range.now }
{
    let run = giving_way(book, range, status);
    Seams {
        low: low_end(&run.first, range, status),
        high: high_end(&run.last, range, status),
        count: run.count,
        few: run.few,
    }
}

/// How many pieces are left of one.
fn rest_count(rest: &Option<Piece>) -> u32
    ensures { result ≡ length (option_to_list rest.now) }
{
    match rest {
        Some(_) => 1,
        None => 0,
    }
}

/// How many pieces there are once a card of the status was laid over the range.
pub(crate) fn count_after(book: &SpaceBook, range: &Range, status: Status) -> u32
    requires { book.now.space ≡ range.now.space }
    ensures count { (c : Card) → c.status ≡ status → result ≡ length (laid book.now.pieces range.now c) }
    ensures bound { result ≤ length book.now.pieces + 3 }
{
    let seams = seams_of(book, range, status);
    let new = rest_count(&seams.low.rest) + 1 + rest_count(&seams.high.rest);
    book.len() - seams.count + new
}

/// Lines up what comes: the new piece between what is left of those that it cuts.
fn line_up(low: &End, high: &End, range: &Range, card: &Card, line: &mut ArrayVec<Piece, 3>)
    requires empty { line.old.items ≡ [] }
    requires ordered { low.now.value ≤ high.now.value }
    requires top { high.now.value ≤ top_of range.now.space }
    ensures { line.new.items ≡ line_from range.now card.now low.now.rest low.now.value high.now.rest high.now.value }
{
    let new = Piece {
        range: Range::between(range.space(), low.value, high.value),
        card: *card,
    };
    if let Some(rest) = &low.rest {
        line.push(*rest);
    }
    line.push(new);
    if let Some(rest) = &high.rest {
        line.push(*rest);
    }
}

/// Whether one piece alone stands there before and after.
fn is_one_for_one(run: &[Piece], line: &[Piece]) -> bool
    ensures same { IsTrue result → run.now ≡ line.now }
    ensures one { (p : Piece) → run.now ≡ p ∷ [] → line.now ≡ p ∷ [] → IsTrue result }
{
    run.len() == 1 && line.len() == 1 && run[0] == line[0]
}

/// Notes the pieces that give way and what comes in their place. One look-up finds the piece that alone gives way, inside which
/// most entries paint.
fn note_painting(book: &SpaceBook, range: &Range, card: &Card, touched: &mut Touched)
    requires space { book.now.space ≡ range.now.space }
    requires one { IsInOnePieceOrNone book.now.pieces range.now }
    requires plain { IsCard card.now }
    requires before { touched.old.before.items ≡ [] }
    requires after { touched.old.after.items ≡ [] }
    ensures built { IsBuilt range.now card.now book.now.pieces touched.new.before.items touched.new.after.items }
    ensures pieces { ArePieces range.now.space book.now.pieces }
    ensures valid { IsRange range.now }
{
    let around = piece_around(book, range, card.status);
    match &around {
        Some(piece) => {
            let low = low_end(&around, range, card.status);
            let high = high_end(&around, range, card.status);
            touched.before.push(*piece);
            line_up(&low, &high, range, card, &mut touched.after);
        }
        None => note_seams(book, range, card, touched),
    }
}

/// The same by going over the pieces that give way. It isn't inlined, since a function makes room for all its values when it is
/// entered.
#[inline(never)]
fn note_seams(book: &SpaceBook, range: &Range, card: &Card, touched: &mut Touched)
    requires space { book.now.space ≡ range.now.space }
    requires one { IsInOnePieceOrNone book.now.pieces range.now }
    requires plain { IsCard card.now }
    requires after { touched.old.after.items ≡ [] }
    ensures built { IsBuilt range.now card.now book.now.pieces touched.new.before.items touched.new.after.items }
    ensures pieces { ArePieces range.now.space book.now.pieces }
    ensures valid { IsRange range.now }
{
    let seams = seams_of(book, range, card.status);
    line_up(&seams.low, &seams.high, range, card, &mut touched.after);
    touched.before = seams.few;
}

/// Notes what laying the card over the range touches.
pub(crate) fn paint(book: &SpaceBook, range: &Range, card: &Card, touched: &mut Touched)
    requires space { book.now.space ≡ range.now.space }
    requires one { IsInOnePieceOrNone book.now.pieces range.now }
    requires pooled { IsPoolRange range.now }
    requires plain { IsCard card.now }
    requires before { touched.old.before.items ≡ [] }
    requires after { touched.old.after.items ≡ [] }
    ensures exchange { IsExchange touched.new.before.items touched.new.after.items book.now.pieces (laid book.now.pieces range.now card.now) }
    ensures pieces { ArePieces range.now.space (laid book.now.pieces range.now card.now) }
    ensures touched { IsTouched book.now.pieces (laid book.now.pieces range.now card.now) touched.new.before.items touched.new.after.items }
{
    painting_keeps_pieces();
    note_painting(book, range, card, touched);
    if is_one_for_one(&touched.before, &touched.after) {
        touched.before.clear();
        touched.after.clear();
    }
}
