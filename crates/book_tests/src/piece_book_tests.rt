ghost use Rattle.std.specs.Prelude.{◌≡◌, ◌^◌, ◌<◌, ◌≤◌, IsTrue, find};
ghost use Rattle.reg_entry.specs.Card.{is_available};
ghost use Rattle.reg_entry.specs.Partition.{pieces_in};
ghost use Rattle.reg_entry.specs.Pieces.{IsCard, IsPoolRange};

mod numbers;

use num_range::Space::{Asn, Ipv4, Ipv6};
use num_range::{Number, Range, Space};
use numbers::Numbers;
use piece_book::{PieceBook, Touched};
use reg_entry::Status::{Allocated, Assigned, Available, Reserved};
use reg_entry::{Card, Piece, Status};
use std::alloc::{AllocError, Global};
use std::test::Fail;

const GLOBAL_UNICAST: u128 = 0x2000_0000_0000_0000_0000_0000_0000_0000; // RFC 4291 2.4

const DOCUMENTATION6: u128 = 0x2001_0db8_0000_0000_0000_0000_0000_0000; // RFC 3849

const LAST_64: u128 = 0x3fff_ffff_ffff_ffff_0000_0000_0000_0000;

const BEFORE_LAST: u128 = 0x3fff_ffff_ffff_ffff_ffff_ffff_ffff_fffe;

const LAST_UNICAST: u128 = 0x3fff_ffff_ffff_ffff_ffff_ffff_ffff_ffff;

const PAST_UNICAST: u128 = 0x4000_0000_0000_0000_0000_0000_0000_0000;

fn is_pool_range(range: &Range) -> bool
    ensures { IsTrue result → IsPoolRange range.now }
{
    range.space() != Space::Ipv6 || GLOBAL_UNICAST <= range.first() && range.last() <= LAST_UNICAST
}

fn card_of(status: Status) -> Card
    ensures status { result.status ≡ status }
    ensures plain { IsCard result }
{
    if status.is_available() {
        Card::plain()
    } else {
        Card {
            status,
            holder: None,
            day: 19783,
            until: 0,
        }
    }
}

/// Lays a card where that may be done, and says how many pieces there are then, and how many went and came.
fn laid(book: &mut PieceBook, range: &Range, status: Status) -> Option<(u32, usize, usize)> {
    if let Some(piece) = book.first_met(range) {
        if !range.inside(&piece.range) {
            return None;
        }
    }
    let count = book.pieces_after(range, status);
    if !is_pool_range(range) || count > book.room() {
        return None;
    }
    let card = card_of(status);
    let touched = book.lay(range, &card);
    Some((count, touched.before.len(), touched.after.len()))
}

/// Parts a piece where that may be done.
fn parted(book: &mut PieceBook, at: Number) -> Option<Touched> {
    let piece = book.piece_at(at)?;
    let held = !piece.card.status.is_available() && piece.range.first() < at.value();
    if !held || book.pieces() >= book.room() {
        return None;
    }
    Some(book.split(at))
}

/// Makes one piece of two where that may be done.
fn made_one(book: &mut PieceBook, at: Number) -> Option<Touched> {
    let above = book.piece_at(at)?;
    if above.card.status.is_available() || above.range.first() != at.value() || at.value() == 0 {
        return None;
    }
    let below = book.piece_at(Number::of(at.space(), at.value() - 1))?;
    if below.card != above.card {
        return None;
    }
    Some(book.join(at))
}

fn ipv4_piece(first: u128, last: u128, status: Status) -> Piece
    requires ordered { first ≤ last }
    requires within { last < 2 ^ 32 }
{
    Piece {
        range: Range::between(Space::Ipv4, first, last),
        card: card_of(status),
    }
}

/// The first available piece, as a caller's loop finds it.
fn first_available(book: &PieceBook, space: Space) -> Option<Piece>
    ensures { result ≡ find (λ p. is_available p.card.status) (pieces_in book.now.partition space) }
{
    for piece in book.walk(space) {
        if piece.card.status.is_available() {
            return Some(piece);
        }
    }
    None
}

/// The pieces of the three spaces as their ends and statuses, in the order in which the walks have them.
fn walked(alloc: Global, book: &PieceBook) -> Result<Vec<(u128, u128, Status)>, AllocError> {
    let mut all = Vec::new(alloc);
    for space in [Space::Asn, Space::Ipv4, Space::Ipv6] {
        for piece in book.walk(space) {
            all.push((piece.range.first(), piece.range.last(), piece.card.status))?;
        }
    }
    Ok(all)
}

/// A card's space, first and last number and status; and the count of pieces after, how many went or changed, and how many
/// came.
type Laid = (Space, u128, u128, Status, Option<(u32, usize, usize)>);

/// The first number of the first row that isn't as it says.
fn first_wrong(book: &mut PieceBook, rows: &[Laid]) -> Option<u128> {
    for (space, first, last, status, wanted) in rows {
        let Some(range) = Range::new(*space, *first, *last) else {
            return Some(*first);
        };
        if laid(book, &range, *status) != *wanted {
            return Some(*first);
        }
        if let Some((count, _, _)) = *wanted {
            if book.pieces() != count {
                return Some(*first);
            }
        }
    }
    None
}

/// Whether there is room for ten pieces, which are there, and one more isn't laid.
fn is_full(book: &mut PieceBook) -> bool {
    let more = Range::between(Space::Asn, 0, 0);
    book.room() == 10
        && book.pieces_after(&more, Status::Reserved) == 11
        && laid(book, &more, Status::Reserved).is_none()
}

const ROWS: [Laid; 18] = [
    (Ipv4, 0xc000_0200, 0xc000_02ff, Available, Some((1, 0, 1))),
    // The block behind it joins it, and one that only lies near doesn't.
    (Ipv4, 0xc000_0300, 0xc000_03ff, Available, Some((1, 1, 1))),
    (Ipv4, 0xc000_0401, 0xc000_0401, Available, Some((2, 0, 1))),
    // A delegate inside cuts the piece on both sides, and one at its low end on one side.
    (Ipv4, 0xc000_0240, 0xc000_027f, Allocated, Some((4, 1, 3))),
    (Ipv4, 0xc000_0200, 0xc000_021f, Assigned, Some((5, 1, 2))),
    // Over two pieces nothing is laid.
    (Ipv4, 0xc000_0200, 0xc000_0220, Reserved, None),
    // What comes back joins what is available on both sides.
    (Ipv4, 0xc000_0240, 0xc000_027f, Available, Some((3, 3, 1))),
    (Ipv4, 0xc000_0400, 0xc000_0400, Available, Some((2, 2, 1))),
    (Ipv4, 0xffff_ffff, 0xffff_ffff, Available, Some((3, 0, 1))),
    // Touching pieces that aren't both available stay two (RFC 5398).
    (Asn, 64496, 64511, Reserved, Some((4, 0, 1))),
    (Asn, 64512, 64512, Reserved, Some((5, 0, 1))),
    (Asn, 64495, 64495, Available, Some((6, 0, 1))),
    (Asn, 0xffff_ffff, 0xffff_ffff, Available, Some((7, 0, 1))),
    (
        Ipv6,
        DOCUMENTATION6,
        DOCUMENTATION6,
        Available,
        Some((8, 0, 1)),
    ),
    (Ipv6, LAST_64, LAST_UNICAST, Available, Some((9, 0, 1))),
    (
        Ipv6,
        LAST_UNICAST,
        LAST_UNICAST,
        Allocated,
        Some((10, 1, 2)),
    ),
    (Ipv6, PAST_UNICAST, PAST_UNICAST, Available, None),
    // A piece that gets the card that it has is as it was.
    (Asn, 64512, 64512, Reserved, Some((10, 0, 0))),
];

/// The pieces behind them.
const PIECES: [(u128, u128, Status); 10] = [
    (64495, 64495, Available),
    (64496, 64511, Reserved),
    (64512, 64512, Reserved),
    (0xffff_ffff, 0xffff_ffff, Available),
    (0xc000_0200, 0xc000_021f, Assigned),
    (0xc000_0220, 0xc000_0401, Available),
    (0xffff_ffff, 0xffff_ffff, Available),
    (DOCUMENTATION6, DOCUMENTATION6, Available),
    (LAST_64, BEFORE_LAST, Available),
    (LAST_UNICAST, LAST_UNICAST, Allocated),
];

/// Whether the book has room for ten pieces, and they are laid as the rows say and then walked.
fn has_three_spaces(alloc: Global, book: &mut PieceBook) -> Result<bool, AllocError> {
    if first_wrong(book, &ROWS).is_some() || !is_full(book) {
        return Ok(false);
    }
    Ok(walked(alloc, book)?.as_slice() == PIECES.as_slice())
}

/// The ends of the piece that holds an IPv4 address.
fn ends_at(book: &PieceBook, value: u128) -> Option<(u128, u128)> {
    let piece = book.piece_at(Number::new(Space::Ipv4, value)?)?;
    Some((piece.range.first(), piece.range.last()))
}

/// Whether what is laid at both ends of all addresses is found, and nothing of another space.
fn finds_both_ends(book: &mut PieceBook) -> bool {
    let top = 0xffff_ffff;
    let whole = Range::between(Space::Ipv4, 0, top);
    let first = Range::between(Space::Ipv4, 0, 0);
    let last = Range::between(Space::Ipv4, top, top);
    let middle = Range::between(Space::Ipv4, 1, top - 1);
    laid(book, &whole, Status::Available) == Some((1, 0, 1))
        && laid(book, &last, Status::Allocated) == Some((2, 1, 2))
        && laid(book, &first, Status::Allocated) == Some((3, 1, 2))
        && first_available(book, Space::Ipv4).map(|p| p.range) == Some(middle)
        && ends_at(book, 0) == Some((0, 0))
        && ends_at(book, 1) == Some((1, top - 1))
        && ends_at(book, top - 1) == Some((1, top - 1))
        && ends_at(book, top) == Some((top, top))
        && book.piece_at(Number::of(Space::Asn, 0)).is_none()
        && book.overlap(&last) == Some(Number::of(Space::Ipv4, top))
        && book.overlap(&Range::between(Space::Asn, 0, top)).is_none()
        && book.sum(Space::Ipv4, Status::Allocated) == 2
        && book.sum(Space::Ipv4, Status::Available) == top - 1
        && book.sum(Space::Asn, Status::Available) == 0
}

/// Whether a piece is parted and made one again where that may be, and what went and came is told.
fn parts_and_joins(book: &mut PieceBook) -> Option<bool> {
    let whole = ipv4_piece(0xc000_0200, 0xc000_027f, Status::Allocated);
    let low = ipv4_piece(0xc000_0200, 0xc000_023f, Status::Allocated);
    let high = ipv4_piece(0xc000_0240, 0xc000_027f, Status::Allocated);
    let behind = Range::between(Space::Ipv4, 0xc000_0280, 0xc000_02ff);
    laid(book, &whole.range, Status::Allocated);
    laid(book, &behind, Status::Available);

    // Not before its first number, not where it is available, and not with a piece of another card.
    for value in [0xc000_0200, 0xc000_02c0] {
        if parted(book, Number::of(Space::Ipv4, value)).is_some() {
            return Some(false);
        }
    }
    if made_one(book, Number::of(Space::Ipv4, 0xc000_0280)).is_some() {
        return Some(false);
    }

    let middle = Number::of(Space::Ipv4, 0xc000_0240);
    let split = parted(book, middle)?;
    let split_sum = book.sum(Space::Ipv4, Status::Allocated);
    let joined = made_one(book, middle)?;
    Some(
        split.before.as_slice() == [whole].as_slice()
            && split.after.as_slice() == [low, high].as_slice()
            && split_sum == 128
            && joined.before.as_slice() == [low, high].as_slice()
            && joined.after.as_slice() == [whole].as_slice()
            && book.pieces() == 2,
    )
}

/// Numbers that look like chance, the same in each run.
#[derive(Drop)]
struct Dice {
    state: u64,
}

impl Dice {
    fn below(&mut self, count: u64) -> u64
        requires { 0 < count }
        ensures { result < count }
    {
        self.state = self
            .state
            .wrapping_mul(6364136223846793005)
            .wrapping_add(1442695040888963407);
        (self.state >> 33) % count
    }
}

fn some_status(dice: &mut Dice) -> Status {
    match dice.below(4) {
        0 => Status::Reserved,
        1 => Status::Allocated,
        _ => Status::Available,
    }
}

/// A card laid by chance, in the book and then in the numbers, where the book allows it.
fn lay_some(book: &mut PieceBook, numbers: &mut Numbers, first: u128, dice: &mut Dice)
    requires { first < 2 ^ 20 }
{
    let near = first + u128::from(dice.below(12));
    let last = match book.piece_at(Number::of(Space::Asn, first)) {
        Some(piece) if dice.below(4) == 0 => piece.range.last(),
        Some(piece) => piece.range.last().min(near),
        None => near,
    };
    let Some(range) = Range::new(Space::Asn, first, last) else {
        return;
    };
    let status = some_status(dice);
    if laid(book, &range, status).is_some() {
        numbers.lay(first, last, status);
    }
}

/// One change by chance.
fn change(book: &mut PieceBook, numbers: &mut Numbers, dice: &mut Dice) {
    let first = u128::from(dice.below(9000));
    let at = Number::of(Space::Asn, first);
    match dice.below(6) {
        0 => {
            if parted(book, at).is_some() {
                numbers.mark(first, true);
            }
        }
        1 => {
            if made_one(book, at).is_some() {
                numbers.mark(first, false);
            }
        }
        _ => lay_some(book, numbers, first, dice),
    }
}

/// Whether the book and the numbers say the same after each fifty of 3,000 changes, which fill more pages than one.
fn agrees_with(book: &mut PieceBook, numbers: &mut Numbers) -> bool {
    let mut dice = Dice { state: 1 };
    let whole = Range::between(Space::Asn, 0, 8999);
    laid(book, &whole, Status::Available);
    numbers.lay(0, 8999, Status::Available);
    for _ in 0..60 {
        for _ in 0..50 {
            change(book, numbers, &mut dice);
        }
        if !numbers.agree(book) {
            return false;
        }
    }
    book.pieces() > 500
}

fn agrees_with_numbers(alloc: Global, book: &mut PieceBook) -> Result<bool, AllocError> {
    let mut numbers = Numbers::with_count(alloc, 9100)?;
    Ok(agrees_with(book, &mut numbers))
}

/// What is tried on a book of its own.
#[derive(Clone, Copy)]
enum Trial {
    ThreeSpaces,
    WholeSpace,
    Parting,
    ByChance,
}

fn holds_in(alloc: Global, book: &mut PieceBook, trial: Trial) -> Result<bool, AllocError> {
    match trial {
        Trial::ThreeSpaces => has_three_spaces(alloc, book),
        Trial::WholeSpace => Ok(finds_both_ends(book)),
        Trial::Parting => Ok(parts_and_joins(book) == Some(true)),
        Trial::ByChance => agrees_with_numbers(alloc, book),
    }
}

/// Whether it holds in a book with room for so many pieces. No other function of the tests owns a book, and this one has one
/// end behind it, since each end proves again that all of the book is dropped.
fn holds(alloc: Global, room: u32, trial: Trial) -> Result<bool, AllocError>
    requires least { 1 ≤ room }
    requires most { room ≤ 2 ^ 30 }
{
    let mut book = PieceBook::with_room(alloc, room)?;
    holds_in(alloc, &mut book, trial)
}

#[test]
fn pieces_of_three_spaces(rt: HostRuntime) -> Result<(), Fail> {
    assert!(rt; holds(rt.alloc(), 10, Trial::ThreeSpaces)?);
    Ok(())
}

#[test]
fn the_whole_of_ipv4(rt: HostRuntime) -> Result<(), Fail> {
    assert!(rt; holds(rt.alloc(), 3, Trial::WholeSpace)?);
    Ok(())
}

#[test]
fn a_piece_is_parted_and_made_one_again(rt: HostRuntime) -> Result<(), Fail> {
    assert!(rt; holds(rt.alloc(), 4, Trial::Parting)?);
    Ok(())
}

#[test]
fn random_changes_agree_with_the_numbers_one_by_one(rt: HostRuntime) -> Result<(), Fail> {
    assert!(rt; holds(rt.alloc(), 4096, Trial::ByChance)?);
    Ok(())
}
