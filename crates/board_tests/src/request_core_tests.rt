ghost use Rattle.reg_entry.specs.Rooms.{AreRooms};

use crate::policies::POLICY;
use board::Board;
use num_range::{Number, Range, Space};
use policy_table::Policy;
use reg_entry::{
    Card, Cc, Delegation, Entry, Handle, Holder, Kind, Name, Refusal, Reply, Request, Rooms, Text,
};
use request_core::decide;
use std::test::Fail;

const ROOMS: Rooms = Rooms {
    pieces: 10,
    holders: 2,
    subs: 2,
    reverse: 2,
    entries: 10,
    window: 1,
};

const FEW: Rooms = Rooms {
    pieces: 2,
    holders: 1,
    entries: 4,
    ..ROOMS
};

/// 2024-03-01.
const TODAY: u32 = 19783;

fn holder_of(handle: &Handle) -> Option<Holder> {
    Some(Holder {
        handle: *handle,
        kind: Kind::Lir,
        cc: Cc::read(b"NL")?,
        name: Text::read(b"First Name")?,
        email: Text::read(b"noc@example.net")?,
    })
}

/// The first entry, of a request that paints what it receives if it receives anything.
fn first_entry(day: u32, who: &Name, request: &Request, received: Option<Range>) -> Entry {
    Entry {
        seq: 1,
        day,
        who: *who,
        request: *request,
        cover: received,
        card: if received.is_some() {
            Some(Card::plain())
        } else {
            None
        },
    }
}

/// Whether the request on a day becomes this entry.
fn accepts(board: &Board, policy: &Policy, day: u32, entry: &Entry) -> bool {
    decide(board, policy, day, &entry.who, &entry.request) == Reply::Accepted(*entry)
}

/// Whether the request is refused so.
fn refuses(board: &Board, policy: &Policy, who: &Name, request: &Request, why: Refusal) -> bool {
    decide(board, policy, TODAY, who, request) == Reply::Refused(why)
}

/// Requests that an empty register refuses, and why: for want of the holder, of the range, and of the IPv6 number in
/// any pool.
fn refused_requests(range: &Range, handle: &Handle) -> [(Request, Refusal); 3] {
    let unpooled = Number::of(Space::Ipv6, 1 << 127);
    [
        (
            Request::Delegate {
                space: Space::Ipv4,
                amount: 24,
                status: Delegation::Allocate,
                handle: *handle,
            },
            Refusal::UnknownHolder { handle: *handle },
        ),
        (
            Request::Transfer {
                range: *range,
                from: *handle,
                to: *handle,
            },
            Refusal::OutsidePool {
                number: Number::of(range.space(), range.first()),
            },
        ),
        (
            Request::Receive {
                range: Range::between(Space::Ipv6, 1 << 127, 1 << 127),
            },
            Refusal::OutsidePool { number: unpooled },
        ),
    ]
}

/// Whether an empty register answers a few requests as it should (blocks of RFC 5737 and RFC 3849).
fn answers_when_empty(board: &Board, policy: &Policy) -> Option<bool> {
    let local = Name::read(b"local")?;
    let other = Name::read(b"other")?;
    let handle = Handle::read(b"ORG-A")?;
    let add = Request::AddHolder {
        holder: holder_of(&handle)?,
    };
    let range = Range::between(Space::Ipv4, 0xc000_0200, 0xc000_02ff);
    let receive = Request::Receive { range };

    // No day before 1970-01-02 and none after 9999-12-31.
    for (clock, day) in [(TODAY, TODAY), (0, 1), (u32::MAX, 2_932_896)] {
        let entry = first_entry(day, &local, &receive, Some(range));
        if !accepts(board, policy, clock, &entry) {
            return Some(false);
        }
    }
    for (request, refusal) in refused_requests(&range, &handle).iter() {
        if !refuses(board, policy, &local, request, *refusal) {
            return Some(false);
        }
    }
    let entry = first_entry(TODAY, &local, &add, None);
    let unknown = Refusal::UnknownHostmaster;
    Some(accepts(board, policy, TODAY, &entry) && refuses(board, policy, &other, &receive, unknown))
}

/// Why the request is refused, or nothing where it is accepted and taken in.
fn taken(board: &mut Board, policy: &Policy, who: &Name, request: &Request) -> Option<Refusal> {
    match decide(board, policy, TODAY, who, request) {
        Reply::Accepted(entry) => {
            board.apply(&entry);
            None
        }
        Reply::Refused(refusal) => Some(refusal),
    }
}

fn added(handle: &[u8]) -> Option<Request> {
    let holder = holder_of(&Handle::read(handle)?)?;
    Some(Request::AddHolder { holder })
}

fn delegated(amount: u32) -> Option<Request> {
    Some(Request::Delegate {
        space: Space::Ipv4,
        amount,
        status: Delegation::Allocate,
        handle: Handle::read(b"ORG-A")?,
    })
}

/// What fills a register of two pieces, one holder and four entries, and what then has no room.
fn filling() -> Option<[(Request, Option<Refusal>); 8]> {
    let range = Range::new(Space::Ipv4, 0xc000_0200, 0xc000_02ff)?;
    let full = Refusal::RegisterFull { pieces: 3, room: 2 };
    Some([
        (Request::Receive { range }, None),
        (added(b"ORG-A")?, None),
        (added(b"ORG-B")?, Some(Refusal::HoldersFull { room: 1 })),
        (delegated(25)?, None),
        (delegated(26)?, Some(full)),
        (delegated(25)?, None),
        (delegated(25)?, Some(Refusal::NoBlock)),
        (
            Request::EditHolder {
                holder: holder_of(&Handle::read(b"ORG-A")?)?,
            },
            Some(Refusal::JournalFull { entries: 4 }),
        ),
    ])
}

/// The place of the first request that isn't answered as its row says, or how many rows there are.
fn first_wrong(board: &mut Board, policy: &Policy) -> Option<usize> {
    let local = Name::read(b"local")?;
    let rows = filling()?;
    for (i, (request, refusal)) in rows.iter().enumerate() {
        if taken(board, policy, &local, request) != *refusal {
            return Some(i);
        }
    }
    Some(rows.len())
}

/// What is tried on a register of its own.
#[derive(Clone, Copy)]
enum Trial {
    Empty,
    Filling,
}

fn holds_in(board: &mut Board, policy: &Policy, trial: Trial) -> bool {
    match trial {
        Trial::Empty => answers_when_empty(board, policy) == Some(true),
        Trial::Filling => first_wrong(board, policy) == Some(8),
    }
}

/// Whether it holds in a register with these rooms. No other function of the tests owns a board, and this one has one end
/// behind it, since each end proves again that all of the board is dropped.
fn holds(rt: &HostRuntime, rooms: Rooms, trial: Trial) -> Result<bool, Fail>
    requires { AreRooms rooms }
{
    let policy = Policy::read(rt.alloc(), POLICY.as_bytes())?;
    let mut board = Board::with_room(rt.alloc(), rooms)?;
    Ok(holds_in(&mut board, &policy, trial))
}

#[test]
fn requests_of_an_empty_register(rt: HostRuntime) -> Result<(), Fail> {
    assert!(rt; holds(&rt, ROOMS, Trial::Empty)?);
    Ok(())
}

#[test]
fn requests_that_have_no_room(rt: HostRuntime) -> Result<(), Fail> {
    assert!(rt; holds(&rt, FEW, Trial::Filling)?);
    Ok(())
}
