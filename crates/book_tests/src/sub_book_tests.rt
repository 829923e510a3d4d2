ghost use Rattle.std.specs.Bool.{OnTrue};
ghost use Rattle.sub_book.specs.Book.{NoneStraddles};

use num_range::{Number, Range, Space};
use std::test::Fail;
use sub_book::RangeBook;

/// Where IPv6 numbers are pooled from.
const UNICAST: u128 = 1 << 125;

/// Gives the range the value, where it is there, or meets none and there is room.
fn put(book: &mut RangeBook<u8>, range: &Range, value: u8) -> bool {
    if book.exact(range).is_some() {
        book.put(*range, value);
        return true;
    }
    if book.first_met(range).is_some() || book.len() >= book.room() {
        return false;
    }
    book.put(*range, value);
    true
}

/// Takes out the range where it is there.
fn take_out(book: &mut RangeBook<u8>, range: &Range) -> bool {
    if book.exact(range).is_none() {
        return false;
    }
    book.take_out(range);
    true
}

/// Whether each range that meets this one lies inside it.
fn none_straddles(book: &RangeBook<u8>, r: &Range) -> bool
    ensures { OnTrue result (NoneStraddles book.now.ranges r.now) }
{
    for (range, _) in book.walk(r) {
        if !range.inside(r) {
            return false;
        }
    }
    true
}

/// Takes out the ranges inside this one where none straddles it.
fn drop_inside(book: &mut RangeBook<u8>, range: &Range) -> bool {
    if !none_straddles(book, range) {
        return false;
    }
    book.drop_inside(range);
    true
}

/// The value, or 0 where there is none.
fn value(found: Option<(Range, u8)>) -> u8 {
    match found {
        Some((_, value)) => value,
        None => 0,
    }
}

/// The values of the ranges that meet this one, as the digits of a number.
fn walked(book: &RangeBook<u8>, range: &Range) -> u32 {
    let mut digits = 0u32;
    for (_, value) in book.walk(range) {
        digits = digits.wrapping_mul(10).wrapping_add(u32::from(value));
    }
    digits
}

/// How many numbers the ranges inside this one have, where it is one of the pool.
fn numbers(book: &RangeBook<u8>, range: &Range) -> Option<u128> {
    let (first, last) = (range.first(), range.last());
    if range.space() == Space::Ipv6 && (first < UNICAST || last >= 2 * UNICAST) {
        return None;
    }
    Some(book.numbers_inside(range))
}

/// Whether the answers are these: the values of the first range that is met, of this very one and of the one round it, the
/// values of all that are met, how many lie inside and how many numbers those have.
fn answers(
    book: &RangeBook<u8>,
    range: &Range,
    found: (u8, u8, u8, u32),
    inside: (u32, u128),
) -> bool {
    let (met, exact, encloses, all) = found;
    let (count, size) = inside;
    value(book.first_met(range)) == met
        && book.exact(range).unwrap_or(0) == exact
        && value(book.enclosing(range)) == encloses
        && walked(book, range) == all
        && book.count_inside(range) == count
        && numbers(book, range) == Some(size)
}

fn fills(book: &mut RangeBook<u8>) -> bool {
    let rows = [
        (Space::Ipv4, 30, 39, 2, true),
        (Space::Asn, 5, 5, 7, true),
        (Space::Ipv4, 10, 19, 1, true),
        (Space::Ipv6, UNICAST, UNICAST + 7, 9, true),
        (Space::Ipv4, 39, 40, 3, false),
        (Space::Ipv4, 20, 29, 3, true),
        (Space::Ipv4, 50, 59, 3, false),
        (Space::Ipv4, 20, 29, 4, true),
    ];
    for (space, first, last, value, right) in rows {
        let Some(range) = Range::new(space, first, last) else {
            return false;
        };
        if put(book, &range, value) != right {
            return false;
        }
    }
    book.len() == 5
}

fn finds(book: &RangeBook<u8>) -> bool {
    let rows = [
        (Space::Ipv4, 0, 9, (0, 0, 0, 0), (0, 0)),
        (Space::Ipv4, 5, 5, (0, 0, 0, 0), (0, 0)),
        (Space::Ipv4, 10, 19, (1, 1, 1, 1), (1, 10)),
        (Space::Ipv4, 12, 12, (1, 0, 1, 1), (0, 0)),
        (Space::Ipv4, 19, 20, (1, 0, 0, 14), (0, 0)),
        (Space::Ipv4, 15, 34, (1, 0, 0, 142), (1, 10)),
        (Space::Ipv4, 10, 39, (1, 0, 0, 142), (3, 30)),
        (Space::Ipv4, 39, 39, (2, 0, 2, 2), (0, 0)),
        (Space::Ipv4, 40, 4294967295, (0, 0, 0, 0), (0, 0)),
        (Space::Asn, 0, 4294967295, (7, 0, 0, 7), (1, 1)),
        (Space::Ipv6, UNICAST, 2 * UNICAST - 1, (9, 0, 0, 9), (1, 8)),
        (Space::Ipv6, UNICAST + 7, UNICAST + 8, (9, 0, 0, 9), (0, 0)),
    ];
    for (space, first, last, found, inside) in rows {
        let Some(range) = Range::new(space, first, last) else {
            return false;
        };
        if !answers(book, &range, found, inside) {
            return false;
        }
    }
    true
}

fn finds_what_parting_cuts(book: &RangeBook<u8>) -> bool {
    let rows = [
        (Space::Ipv4, 10, None),
        (Space::Ipv4, 19, Some((10, 19))),
        (Space::Ipv4, 20, None),
        (Space::Ipv4, 40, None),
        (Space::Asn, 5, None),
        (Space::Ipv6, UNICAST + 1, Some((UNICAST, UNICAST + 7))),
    ];
    for (space, at, expected) in rows {
        let Some(number) = Number::new(space, at) else {
            return false;
        };
        let cut = book.straddling(number);
        if cut.map(|range| (range.first(), range.last())) != expected {
            return false;
        }
    }
    true
}

fn empties(book: &mut RangeBook<u8>) -> bool {
    let (Some(middle), Some(part), Some(most), Some(all)) = (
        Range::new(Space::Ipv4, 20, 29),
        Range::new(Space::Ipv4, 0, 35),
        Range::new(Space::Ipv4, 5, 39),
        Range::new(Space::Asn, 0, 4294967295),
    ) else {
        return false;
    };
    take_out(book, &middle)
        && !take_out(book, &middle)
        && walked(book, &most) == 12
        && !drop_inside(book, &part)
        && drop_inside(book, &most)
        && book.len() == 2
        && walked(book, &most) == 0
        && walked(book, &all) == 7
}

#[test]
fn ranges_are_kept_and_found(rt: HostRuntime) -> Result<(), Fail> {
    let mut book = RangeBook::with_room(rt.alloc(), 5)?;
    let right = fills(&mut book)
        && finds(&book)
        && finds_what_parting_cuts(&book)
        && empties(&mut book);
    drop(book);
    assert!(rt; right);
    Ok(())
}
