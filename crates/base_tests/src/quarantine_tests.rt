ghost use Rattle.std.specs.Prelude.{◌≡◌, IsTrue};
ghost use Rattle.reg_entry.specs.Pieces.{IsCard, IsPoolRange};

use num_range::Space::{Asn, Ipv4, Ipv6};
use num_range::{Range, Space};
use piece_book::PieceBook;
use quarantine::{due, due_count};
use reg_entry::Status::{Allocated, Assigned, Available, Quarantine, Reserved};
use reg_entry::{Card, Status};
use std::alloc::{AllocError, Global};
use std::test::Fail;

const GLOBAL_UNICAST: u128 = 0x2000_0000_0000_0000_0000_0000_0000_0000; // RFC 4291 2.4

const LAST_UNICAST: u128 = 0x3fff_ffff_ffff_ffff_ffff_ffff_ffff_ffff;

const DOCUMENTATION6: u128 = 0x2001_0db8_0000_0000_0000_0000_0000_0000; // RFC 3849

fn is_pool_range(range: &Range) -> bool
    ensures { IsTrue result → IsPoolRange range.now }
{
    range.space() != Space::Ipv6 || GLOBAL_UNICAST <= range.first() && range.last() <= LAST_UNICAST
}

fn card_until(status: Status, until: u32) -> Card
    ensures { IsCard result }
{
    if status.is_available() {
        Card::plain()
    } else {
        Card {
            status,
            holder: None,
            day: 19000,
            until,
        }
    }
}

/// Lays a card where that may be done, and says whether it was.
fn laid(book: &mut PieceBook, range: &Range, card: &Card) -> bool
    requires { IsCard card.now }
{
    if let Some(piece) = book.first_met(range) {
        if !range.inside(&piece.range) {
            return false;
        }
    }
    if !is_pool_range(range) || book.pieces_after(range, card.status) > book.room() {
        return false;
    }
    book.lay(range, card);
    true
}

/// The first numbers and the last days of the pieces that are due, in the order in which the walk has them.
fn walked(
    alloc: Global,
    book: &PieceBook,
    day: u32,
) -> Result<Vec<(Space, u128, u32)>, AllocError> {
    let mut all = Vec::new(alloc);
    for piece in due(book, day) {
        all.push((piece.range.space(), piece.range.first(), piece.card.until))?;
    }
    Ok(all)
}

/// A piece's space, first and last number, status and until.
type Laid = (Space, u128, u128, Status, u32);

/// The first number of the first piece that can't be laid, or 0 where there are then other than 13.
fn first_not_laid(book: &mut PieceBook, rows: &[Laid]) -> Option<u128> {
    for (space, first, last, status, until) in rows {
        let Some(range) = Range::new(*space, *first, *last) else {
            return Some(*first);
        };
        if !laid(book, &range, &card_until(*status, *until)) {
            return Some(*first);
        }
    }
    if book.pieces() == 13 { None } else { Some(0) }
}

/// The first day on which another count of pieces is due, or another number of pieces is walked.
fn first_miscounted(book: &PieceBook, counts: &[(u32, u32)]) -> Option<u32> {
    for (day, count) in counts {
        let mut walked: u32 = 0;
        for _ in due(book, *day) {
            walked = walked.saturating_add(1);
        }
        if due_count(book, *day) != *count || walked != *count {
            return Some(*day);
        }
    }
    None
}

/// In each space some are in quarantine up to the day before 20000, that day and the day after it; and other pieces have
/// such days too.
const LAID: [Laid; 13] = [
    (
        Ipv6,
        DOCUMENTATION6,
        DOCUMENTATION6 + 0xffff,
        Quarantine,
        20000,
    ),
    (
        Ipv6,
        DOCUMENTATION6 + 0x1_0000,
        DOCUMENTATION6 + 0x1_ffff,
        Reserved,
        20000,
    ),
    (
        Ipv6,
        DOCUMENTATION6 + 0x2_0000,
        DOCUMENTATION6 + 0x2_ffff,
        Quarantine,
        20001,
    ),
    (
        Ipv6,
        DOCUMENTATION6 + 0x3_0000,
        DOCUMENTATION6 + 0x3_ffff,
        Quarantine,
        19999,
    ),
    (Ipv4, 0xc633_6400, 0xc633_64ff, Quarantine, 20000),
    (Ipv4, 0xc000_0200, 0xc000_027f, Assigned, 19999),
    (Ipv4, 0xc000_0280, 0xc000_02ff, Quarantine, 19999),
    (Ipv4, 0xcb00_7100, 0xcb00_71ff, Quarantine, 20001),
    (Asn, 64500, 64503, Quarantine, 20001),
    (Asn, 64496, 64499, Quarantine, 20000),
    (Asn, 64504, 64504, Quarantine, 19999),
    (Asn, 64505, 64505, Available, 0),
    (Asn, 64506, 64506, Allocated, 20000),
];

/// What is due on day 20000.
const DUE: [(Space, u128, u32); 6] = [
    (Asn, 64496, 20000),
    (Asn, 64504, 19999),
    (Ipv4, 0xc000_0280, 19999),
    (Ipv4, 0xc633_6400, 20000),
    (Ipv6, DOCUMENTATION6, 20000),
    (Ipv6, DOCUMENTATION6 + 0x3_0000, 19999),
];

/// How many pieces are due by a day.
const COUNTS: [(u32, u32); 6] = [
    (0, 0),
    (19998, 0),
    (19999, 3),
    (20000, 6),
    (20001, 9),
    (u32::MAX, 9),
];

/// Whether the pieces are due that should be, in a book that has room for them.
fn is_due(alloc: Global, book: &mut PieceBook) -> Result<bool, AllocError> {
    if first_not_laid(book, &LAID).is_some() {
        return Ok(false);
    }
    let walked = walked(alloc, book, 20000)?;
    Ok(walked.as_slice() == DUE.as_slice() && first_miscounted(book, &COUNTS).is_none())
}

/// The same of a book of its own. No other function of the tests owns one, and this one has one end behind it, since each
/// end proves again that all of the book is dropped.
fn is_due_in_a_book(alloc: Global) -> Result<bool, AllocError> {
    let mut book = PieceBook::with_room(alloc, 13)?;
    is_due(alloc, &mut book)
}

#[test]
fn quarantines_that_end_by_a_day(rt: HostRuntime) -> Result<(), Fail> {
    assert!(rt; is_due_in_a_book(rt.alloc())?);
    Ok(())
}
