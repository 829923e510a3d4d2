ghost use Rattle.std.specs.Prelude.{◌≡◌};

use holder_book::HoldingBook;
use num_range::{Range, Space};
use reg_entry::{Card, Status};
use std::test::Fail;

fn card(status: Status, holder: Option<u32>) -> Card
    ensures { result ≡ record { status = status; holder = holder; day = 19783; until = 0 } }
{
    Card {
        status,
        holder,
        day: 19783,
        until: 0,
    }
}

/// Whether each holder holds so many numbers of the space, and has so many allocated.
fn stand(book: &HoldingBook, rows: &[(u32, Space, u128, u128)]) -> bool {
    for (holder, space, held, allocated) in rows {
        if book.held(*holder, *space) != *held || book.allocated(*holder, *space) != *allocated {
            return false;
        }
    }
    true
}

/// Whether each holder uses so many of the numbers of the space that are allocated to it.
fn uses(book: &HoldingBook, rows: &[(u32, Space, u128)]) -> bool {
    for (holder, space, used) in rows {
        if book.used(*holder, *space) != *used {
            return false;
        }
    }
    true
}

#[test]
fn holdings_follow_the_cards(rt: HostRuntime) -> Result<(), Fail> {
    let mut book = HoldingBook::with_room(rt.alloc(), 2)?;
    assert!(rt; stand(&book, &[(0, Space::Asn, 0, 0), (7, Space::Ipv6, 0, 0)]));
    book.add();
    book.add();

    let allocated = card(Status::Allocated, Some(0));
    let assigned = card(Status::Assigned, Some(1));
    let reserved = card(Status::Reserved, None);
    // 2001:db8::/32, 192.0.2.0/24 and AS64496-AS64511, set aside for examples.
    let wide = Range::between(Space::Ipv6, 0x2001_0db8 << 96, (0x2001_0db9 << 96) - 1);
    let net = Range::between(Space::Ipv4, 3221225984, 3221226239);
    let numbers = Range::between(Space::Asn, 64496, 64511);

    book.give(&allocated, &wide);
    book.give(&allocated, &net);
    book.give(&assigned, &numbers);
    book.give(&reserved, &numbers);
    assert!(rt;
        stand(
            &book,
            &[
                (
                    0,
                    Space::Ipv6,
                    79228162514264337593543950336,
                    79228162514264337593543950336
                ),
                (0, Space::Ipv4, 256, 256),
                (0, Space::Asn, 0, 0),
                (1, Space::Ipv6, 0, 0),
                (1, Space::Ipv4, 0, 0),
                (1, Space::Asn, 16, 0),
            ]
        )
    );

    // The net goes from the one holder to the other.
    book.take(&allocated, &net);
    book.give(&assigned, &net);
    book.take(&reserved, &numbers);
    assert!(rt;
        stand(
            &book,
            &[
                (
                    0,
                    Space::Ipv6,
                    79228162514264337593543950336,
                    79228162514264337593543950336
                ),
                (0, Space::Ipv4, 0, 0),
                (1, Space::Ipv4, 256, 0),
                (1, Space::Asn, 16, 0),
                (2, Space::Ipv4, 0, 0),
            ]
        )
    );
    Ok(())
}

#[test]
fn uses_are_counted(rt: HostRuntime) -> Result<(), Fail> {
    let mut book = HoldingBook::with_room(rt.alloc(), 1)?;
    book.add();
    let allocated = card(Status::Allocated, Some(0));
    let net = Range::between(Space::Ipv4, 3221225984, 3221226239);
    book.use_more(&allocated, &net, 128);
    assert!(rt; uses(&book, &[(0, Space::Ipv4, 128), (0, Space::Ipv6, 0)]));
    book.use_less(&allocated, &net, 128);
    assert!(rt; uses(&book, &[(0, Space::Ipv4, 0)]));
    Ok(())
}
