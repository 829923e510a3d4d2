ghost use Rattle.std.specs.Prelude.{◌≡◌, true, IsTrue};
ghost use Rattle.num_range.specs.Amount.{has_size};
ghost use Rattle.reg_entry.specs.Card.{is_available};
ghost use Rattle.reg_entry.specs.Pieces.{IsCard};

use fit_search::{amounts_are_sought, least_block};
use num_range::{Range, Space};
use piece_book::PieceBook;
use reg_entry::{Card, Status};
use std::alloc::{AllocError, Global};
use std::test::Fail;

/// Lays a card over IPv4 addresses or AS numbers, where that may be done.
fn laid(book: &mut PieceBook, space: Space, first: u128, last: u128, status: Status) -> bool {
    let Some(range) = Range::new(space, first, last) else {
        return false;
    };
    if let Some(piece) = book.first_met(&range) {
        if !range.inside(&piece.range) {
            return false;
        }
    }
    if space == Space::Ipv6 || book.pieces_after(&range, status) > book.room() {
        return false;
    }
    let card = card_of(status);
    let _ = book.lay(&range, &card);
    true
}

fn card_of(status: Status) -> Card
    ensures status { result.status ≡ status }
    ensures plain { IsCard result }
{
    if status.is_available() {
        Card::plain()
    } else {
        Card {
            status,
            holder: None,
            day: 19783,
            until: 0,
        }
    }
}

/// The first and the last number of the least block.
fn found(book: &PieceBook, space: Space, amount: u32) -> Option<(u128, u128)>
    requires { has_size space amount ≡ true }
{
    amounts_are_sought();
    let block = least_block(book, space, space.amount_size(amount))?;
    Some((block.first(), block.last()))
}

// Each of these asks a book of its own; a test that has one does little else, since each of its ends drops the book.

/// 192.0.2.0/24 (RFC 5737), of which 0 to 16 and 32 to 63 are taken; then 0 to 16 go back.
fn finds_addresses(book: &mut PieceBook) -> bool {
    let base = 0xc000_0200;
    let (from, to) = (base + 32, base + 63);
    laid(book, Space::Ipv4, base, base + 255, Status::Available)
        && laid(book, Space::Ipv4, base, base + 16, Status::Allocated)
        && laid(book, Space::Ipv4, from, to, Status::Assigned)
        && found(book, Space::Ipv4, 32) == Some((base + 17, base + 17))
        && found(book, Space::Ipv4, 30) == Some((base + 20, base + 23))
        && found(book, Space::Ipv4, 29) == Some((base + 24, base + 31))
        && found(book, Space::Ipv4, 28) == Some((base + 64, base + 79))
        && found(book, Space::Ipv4, 25) == Some((base + 128, base + 255))
        && found(book, Space::Ipv4, 24).is_none()
        && laid(book, Space::Ipv4, base, base + 16, Status::Available)
        && found(book, Space::Ipv4, 27) == Some((base, base + 31))
}

/// AS 64496 to 64511 and 65536 to 65551 (RFC 5398), of which 64500 is taken, and the private ones of RFC 6996.
fn finds_as_numbers(book: &mut PieceBook) -> bool {
    let (from, to) = (4200000000, 4294967294);
    laid(book, Space::Asn, 64496, 64511, Status::Available)
        && laid(book, Space::Asn, 65536, 65551, Status::Available)
        && laid(book, Space::Asn, 64500, 64500, Status::Assigned)
        && laid(book, Space::Asn, from, to, Status::Available)
        && found(book, Space::Asn, 4) == Some((64496, 64499))
        && found(book, Space::Asn, 5) == Some((64501, 64505))
        && found(book, Space::Asn, 16) == Some((65536, 65551))
        && found(book, Space::Asn, 1024) == Some((from, from + 1023))
        && least_block(book, Space::Asn, 100_000).map(|block| block.last()) == Some(from + 99_999)
}

/// Whether both are found in a book of its own. No other function of the tests owns one, and this one has one end behind
/// it, since each end proves again that all of the book is dropped.
fn finds_in_a_book(alloc: Global) -> Result<bool, AllocError> {
    let mut book = PieceBook::with_room(alloc, 20)?;
    Ok(finds_addresses(&mut book) && finds_as_numbers(&mut book))
}

#[test]
fn least_blocks_are_found(rt: HostRuntime) -> Result<(), Fail> {
    assert!(rt; finds_in_a_book(rt.alloc())?);
    Ok(())
}
