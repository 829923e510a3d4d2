//! Registers that entries build one by one, each of them only where it may come next. The ranges are of 192.0.2.0/24
//! (RFC 5737), by their last octets.
ghost use Rattle.reg_entry.specs.Rooms.{AreRooms};

use board::{Board, Found};
use num_range::{Number, Range, Space};
use reg_entry::{
    Act, Card, Cc, Delegation, Entry, Handle, Holder, Host, Kind, Name, Object, Refusal, Request,
    Rooms, Servers, Status, Text,
};
use std::alloc::{AllocError, Global};
use std::test::Fail;

/// 2024-03-01, a day a year before it, and the day when a quarantine of 30 days ends.
const DAY: u32 = 19783;

const EARLIER: u32 = 19417;

const DUE: u32 = 19813;

/// 2025-03-01, a hold time of 365 days later.
const HELD: u32 = 20148;

/// Two name servers.
const ONE: &[u8] = b"ns1.alpha.example";

const OTHER: &[u8] = b"ns2.alpha.example";

const NET: u128 = 0xc000_0200;

const ROOMS: Rooms = Rooms {
    pieces: 20,
    holders: 3,
    subs: 1,
    reverse: 1,
    entries: 40,
    window: 1,
};

const FEW: Rooms = Rooms {
    pieces: 2,
    holders: 2,
    subs: 1,
    reverse: 1,
    entries: 6,
    window: 1,
};

/// All operations are kept.
const WIDE: Rooms = Rooms {
    window: 20,
    ..ROOMS
};

/// An entry, but for its number and who asked.
#[derive(Clone, Copy)]
struct Step {
    day: u32,
    request: Request,
    cover: Option<Range>,
    card: Option<Card>,
}

fn range(first: u128, last: u128) -> Option<Range> {
    if first > 255 || last > 255 {
        return None;
    }
    Range::new(Space::Ipv4, NET + first, NET + last)
}

fn number(octet: u128) -> Option<Number> {
    if octet > 255 {
        return None;
    }
    Number::new(Space::Ipv4, NET + octet)
}

fn holder(handle: &[u8], name: &[u8]) -> Option<Holder> {
    Some(Holder {
        handle: Handle::read(handle)?,
        kind: Kind::Lir,
        cc: Cc::read(b"DE")?,
        name: Text::read(name)?,
        email: Text::read(b"noc@alpha.example")?,
    })
}

fn card(status: Status, holder: Option<u32>, day: u32, until: u32) -> Option<Card> {
    Some(Card {
        status,
        holder,
        day,
        until,
    })
}

fn received(first: u128, last: u128) -> Option<Step> {
    Some(Step {
        day: DAY,
        request: Request::Receive {
            range: range(first, last)?,
        },
        cover: range(first, last),
        card: Some(Card::plain()),
    })
}

/// A holder is added, or the one of this handle has another name.
fn added(handle: &[u8], name: &[u8]) -> Option<Step> {
    Some(Step {
        day: DAY,
        request: Request::AddHolder {
            holder: holder(handle, name)?,
        },
        cover: None,
        card: None,
    })
}

fn edited(handle: &[u8], name: &[u8]) -> Option<Step> {
    Some(Step {
        day: DAY,
        request: Request::EditHolder {
            holder: holder(handle, name)?,
        },
        cover: None,
        card: None,
    })
}

/// A range is kept back, or no longer.
fn reserved(first: u128, last: u128) -> Option<Step> {
    Some(Step {
        day: DAY,
        request: Request::Reserve {
            range: range(first, last)?,
        },
        cover: range(first, last),
        card: card(Status::Reserved, None, DAY, 0),
    })
}

fn unreserved(first: u128, last: u128) -> Option<Step> {
    Some(Step {
        day: DAY,
        request: Request::Unreserve {
            range: range(first, last)?,
        },
        cover: range(first, last),
        card: Some(Card::plain()),
    })
}

/// A block is delegated to ORG-A, from the octet on.
fn delegated(day: u32, amount: u32, first: u128, last: u128) -> Option<Step> {
    Some(Step {
        day,
        request: Request::Delegate {
            space: Space::Ipv4,
            amount,
            status: Delegation::Allocate,
            handle: Handle::read(b"ORG-A")?,
        },
        cover: range(first, last),
        card: card(Status::Allocated, Some(0), day, 0),
    })
}

fn returned(first: u128, last: u128, until: u32) -> Option<Step> {
    Some(Step {
        day: DAY,
        request: Request::Return {
            range: range(first, last)?,
            handle: Handle::read(b"ORG-A")?,
        },
        cover: range(first, last),
        card: card(Status::Quarantine, None, DAY, until),
    })
}

fn released(day: u32, first: u128, last: u128) -> Option<Step> {
    Some(Step {
        day,
        request: Request::Release {
            range: range(first, last)?,
        },
        cover: range(first, last),
        card: Some(Card::plain()),
    })
}

/// The piece of the first 128 numbers is split before the octet, or its two pieces are joined there.
fn split(at: u128) -> Option<Step> {
    Some(Step {
        day: DAY,
        request: Request::Split { at: number(at)? },
        cover: range(0, 127),
        card: None,
    })
}

fn joined(at: u128) -> Option<Step> {
    Some(Step {
        day: DAY,
        request: Request::Join { at: number(at)? },
        cover: range(0, 127),
        card: None,
    })
}

/// The first 64 numbers go from one holder to the other, which has the number.
fn transferred(day: u32, from: &[u8], to: &[u8], holder: u32, until: u32) -> Option<Step> {
    Some(Step {
        day,
        request: Request::Transfer {
            range: range(0, 63)?,
            from: Handle::read(from)?,
            to: Handle::read(to)?,
        },
        cover: range(0, 63),
        card: card(Status::Allocated, Some(holder), day, until),
    })
}

/// A range is sub-assigned to ORG-A, or taken back.
fn sub_assigned(first: u128, last: u128) -> Option<Step> {
    Some(Step {
        day: DAY,
        request: Request::SubAssign {
            range: range(first, last)?,
            handle: Handle::read(b"ORG-A")?,
        },
        cover: range(first, last),
        card: None,
    })
}

fn sub_returned(first: u128, last: u128) -> Option<Step> {
    Some(Step {
        day: DAY,
        request: Request::SubReturn {
            range: range(first, last)?,
        },
        cover: range(first, last),
        card: None,
    })
}

/// A range gets the one name server, or has none any longer.
fn reversed(first: u128, last: u128, host: &[u8]) -> Option<Step> {
    Some(Step {
        day: DAY,
        request: Request::SetReverse {
            range: range(first, last)?,
            servers: Servers::new(&[Host::read(host)?])?,
        },
        cover: None,
        card: None,
    })
}

fn unreversed(first: u128, last: u128) -> Option<Step> {
    Some(Step {
        day: DAY,
        request: Request::ClearReverse {
            range: range(first, last)?,
        },
        cover: None,
        card: None,
    })
}

/// Takes an entry in where it may come next, and says whether it was.
fn taken(board: &mut Board, step: &Option<Step>) -> Option<bool> {
    let step = step.as_ref()?;
    let entry = Entry {
        seq: board.entries() + 1,
        day: step.day,
        who: Name::read(b"local")?,
        request: step.request,
        cover: step.cover,
        card: step.card,
    };
    if !board.is_next(&entry) {
        return Some(false);
    }
    board.apply(&entry);
    Some(true)
}

/// The first step for which it isn't as the row says whether it is taken, counted from 0.
fn first_wrong(board: &mut Board, rows: &[(Option<Step>, bool)]) -> Option<usize> {
    for (i, (step, is_taken)) in rows.iter().enumerate() {
        if taken(board, step) != Some(*is_taken) {
            return Some(i);
        }
    }
    None
}

/// A network comes in, and the first holder, which is number 0.
fn begun() -> [(Option<Step>, bool); 2] {
    [
        (received(0, 255), true),
        (added(b"ORG-A", b"Alpha Net"), true),
    ]
}

/// One address is kept back, so that no aligned block of 64 is free from it on but those of the upper half. What was
/// returned is kept back too, up to the day that its entry says.
fn blocks() -> [(Option<Step>, bool); 16] {
    [
        (delegated(DAY, 26, 0, 63), true),
        (reserved(64, 64), true),
        (delegated(DAY, 26, 64, 127), false),
        (delegated(DAY, 26, 65, 128), false),
        (delegated(DAY, 26, 128, 190), false),
        (delegated(DAY, 26, 128, 191), true),
        (delegated(DAY, 26, 192, 255), true),
        (delegated(DAY, 26, 64, 127), false),
        (returned(0, 63, DAY - 1), false),
        (returned(0, 62, DUE), false),
        (returned(0, 63, DUE), true),
        (delegated(DAY, 26, 0, 63), false),
        (released(DUE - 1, 0, 63), false),
        (released(DUE, 0, 63), true),
        // No entry is older than the one before it.
        (delegated(DUE - 1, 26, 0, 63), false),
        (delegated(DUE, 26, 0, 63), true),
    ]
}

/// What is released joins what is available on either side.
fn releases() -> [(Option<Step>, bool); 5] {
    [
        (reserved(0, 63), true),
        (delegated(DAY, 26, 64, 127), true),
        (unreserved(0, 63), true),
        (returned(64, 127, DUE), true),
        (released(DUE, 64, 127), true),
    ]
}

fn all_at_once() -> [(Option<Step>, bool); 2] {
    [
        (delegated(DAY, 23, 0, 255), false),
        (delegated(DAY, 24, 0, 255), true),
    ]
}

fn splits() -> [(Option<Step>, bool); 4] {
    [
        (delegated(DAY, 25, 0, 127), true),
        (joined(64), false),
        (split(64), true),
        (split(64), false),
    ]
}

/// A transferred piece is held for the time that its entry says, whatever day it is said to be.
fn transfers() -> [(Option<Step>, bool); 7] {
    [
        (added(b"ORG-B", b"Beta Net"), true),
        (delegated(DAY, 26, 0, 63), true),
        (transferred(DAY, b"ORG-B", b"ORG-A", 0, HELD), false),
        (transferred(DAY, b"ORG-A", b"ORG-B", 1, HELD), true),
        (transferred(DAY, b"ORG-B", b"ORG-A", 0, HELD), false),
        (transferred(EARLIER, b"ORG-B", b"ORG-A", 0, HELD), false),
        (transferred(HELD - 1, b"ORG-B", b"ORG-A", 0, HELD), false),
    ]
}

/// One sub takes all the room, and no split cuts it. The half of the allocation that has it goes to another holder.
fn subs() -> [(Option<Step>, bool); 11] {
    [
        (added(b"ORG-B", b"Beta Net"), true),
        (delegated(DAY, 25, 0, 127), true),
        (sub_assigned(120, 130), false),
        (sub_assigned(200, 200), false),
        (sub_assigned(32, 63), true),
        (sub_assigned(64, 95), false),
        (sub_returned(0, 127), false),
        (returned(0, 127, DUE), false),
        (split(48), false),
        (split(64), true),
        (transferred(DAY, b"ORG-A", b"ORG-B", 1, HELD), true),
    ]
}

/// One reverse entry takes all the room, and other servers of its range need none.
fn reverses() -> [(Option<Step>, bool); 6] {
    [
        (delegated(DAY, 25, 0, 127), true),
        (reversed(120, 130, ONE), false),
        (reversed(200, 207, ONE), false),
        (reversed(64, 127, ONE), true),
        (reversed(32, 95, ONE), false),
        (reversed(64, 127, OTHER), true),
    ]
}

/// A piece that goes back takes its reverse entries along, and no others.
fn reverses_taken_out() -> [(Option<Step>, bool); 5] {
    [
        (unreversed(64, 127), true),
        (reversed(0, 31, ONE), true),
        (split(64), true),
        (returned(64, 127, DUE), true),
        (unreversed(0, 63), false),
    ]
}

/// What fills a register of two pieces, two holders and six entries. The edit of a holder needs no room but an entry's.
fn filling() -> [(Option<Step>, bool); 10] {
    [
        (added(b"ORG-B", b"Beta Net"), true),
        (added(b"ORG-C", b"Gamma Net"), false),
        (edited(b"ORG-C", b"Gamma Net"), false),
        (added(b"ORG-A", b"Alpha"), false),
        (edited(b"ORG-A", b"Alpha"), true),
        // A third piece has no room, and the other half as a whole needs none.
        (delegated(DAY, 25, 0, 127), true),
        (delegated(DAY, 26, 128, 191), false),
        (delegated(DAY, 25, 128, 255), true),
        // The journal is full.
        (returned(0, 127, DUE), false),
        (edited(b"ORG-A", b"Alpha Net"), false),
    ]
}

/// All is delegated, and gets name servers that are set twice, a sub that goes back, and a holder with another name: what
/// is as it was before has no operation.
fn changes() -> [(Option<Step>, bool); 9] {
    [
        (delegated(DAY, 24, 0, 255), true),
        (reversed(0, 255, ONE), true),
        (reversed(0, 255, OTHER), true),
        (reversed(0, 255, OTHER), true),
        (edited(b"ORG-A", b"Alpha Net"), true),
        (edited(b"ORG-A", b"Alpha"), true),
        (sub_assigned(32, 63), true),
        (sub_returned(32, 63), true),
        (returned(0, 255, DUE), true),
    ]
}

/// The first step that isn't as its row says, behind those with which each register begins.
fn wrong_after(board: &mut Board, rows: &[(Option<Step>, bool)]) -> Option<usize> {
    first_wrong(board, &begun()).or_else(|| first_wrong(board, rows))
}

/// The octets between which the piece lies that holds this one, and its status.
fn piece_at(board: &Board, octet: u128) -> Option<(u128, u128, Status)> {
    let piece = board.pieces().piece_at(number(octet)?)?;
    Some((
        piece.range.first().checked_sub(NET)?,
        piece.range.last().checked_sub(NET)?,
        piece.card.status,
    ))
}

fn has_taken_blocks(board: &Board) -> bool {
    (board.first_day(), board.last_day(), board.entries()) == (DAY, DUE, 9)
        && (board.held(0, Space::Ipv4), board.allocated(0, Space::Ipv4)) == (192, 192)
        && (board.held(0, Space::Asn), board.held(1, Space::Ipv4)) == (0, 0)
}

/// A split and a join leave each card as it is.
fn is_split_and_joined(board: &mut Board) -> bool {
    piece_at(board, 63) == Some((0, 63, Status::Allocated))
        && piece_at(board, 64) == Some((64, 127, Status::Allocated))
        && taken(board, &joined(64)) == Some(true)
        && piece_at(board, 64) == Some((0, 127, Status::Allocated))
}

/// The hold time is over on its day, and then the numbers go back.
fn goes_back(board: &mut Board) -> bool {
    let back = transferred(HELD, b"ORG-B", b"ORG-A", 0, HELD);
    (board.held(0, Space::Ipv4), board.held(1, Space::Ipv4)) == (0, 64)
        && taken(board, &back) == Some(true)
        && (board.held(0, Space::Ipv4), board.held(1, Space::Ipv4)) == (64, 0)
}

fn is_full(board: &Board) -> bool {
    Handle::read(b"ORG-A").and_then(|handle| board.holders().by_handle(&handle)) == Some(0)
        && board.entries() == 6
        && board.rooms() == FEW
}

/// The first and the last octet of a range.
type Octets = (u128, u128);

fn octets(range: &Range) -> Option<Octets> {
    Some((
        range.first().checked_sub(NET)?,
        range.last().checked_sub(NET)?,
    ))
}

/// An operation by its serial, with the octets of its piece, sub or cut.
type Noted = (u64, Act, Option<Octets>);

fn object_octets(object: &Object) -> Option<Octets> {
    match object {
        Object::Org { .. } => None,
        Object::Block { range, .. } | Object::Sub { range, .. } => octets(range),
        Object::Cut { block, .. } => octets(block),
    }
}

fn has_noted(board: &Board, row: &Noted) -> bool {
    let (serial, act, octets) = *row;
    match board.op(serial) {
        Some(op) => op.act == act && object_octets(&op.object) == octets,
        None => false,
    }
}

fn have_noted(board: &Board, rows: &[Noted]) -> bool {
    for row in rows {
        if !has_noted(board, row) {
            return false;
        }
    }
    true
}

const BLOCK_OPERATIONS: [Noted; 14] = [
    (1, Act::Add, Some((0, 255))),
    (2, Act::Add, None),
    (3, Act::Del, Some((0, 255))),
    (4, Act::Add, Some((0, 63))),
    (5, Act::Add, Some((64, 255))),
    (6, Act::Del, Some((64, 255))),
    (7, Act::Add, Some((64, 127))),
    (8, Act::Add, Some((128, 255))),
    (9, Act::Add, Some((0, 63))),
    (10, Act::Add, Some((64, 127))),
    (11, Act::Del, Some((0, 63))),
    (12, Act::Del, Some((64, 127))),
    (13, Act::Del, Some((128, 255))),
    (14, Act::Add, Some((0, 255))),
];

/// The key of a piece stays where all of it is delegated. The cuts of what is returned go before the piece is there anew.
const OTHER_OPERATIONS: [Noted; 8] = [
    (3, Act::Add, Some((0, 255))),
    (4, Act::Add, Some((0, 255))),
    (5, Act::Add, Some((0, 255))),
    (6, Act::Add, None),
    (7, Act::Add, Some((32, 63))),
    (8, Act::Del, Some((32, 63))),
    (9, Act::Del, Some((0, 255))),
    (10, Act::Add, Some((0, 255))),
];

fn notes_blocks(board: &mut Board) -> bool {
    board.kept() == (1, 0)
        && wrong_after(board, &releases()).is_none()
        && board.kept() == (1, 14)
        && have_noted(board, &BLOCK_OPERATIONS)
        && board.op(0).is_none()
        && board.op(15).is_none()
}

fn notes_others(board: &mut Board) -> bool {
    wrong_after(board, &changes()).is_none()
        && board.kept() == (1, 10)
        && have_noted(board, &OTHER_OPERATIONS)
}

/// The registration that is found round a range, and the piece that a sub lies in.
fn found(board: &Board, first: u128, last: u128) -> Option<(Octets, Option<Octets>)> {
    match board.narrow(&range(first, last)?)? {
        Found::Piece(piece) => Some((octets(&piece.range)?, None)),
        Found::Sub { range, parent, .. } => Some((octets(&range)?, Some(octets(&parent)?))),
    }
}

/// The sub is found where it has all of a range, and else the piece. Its numbers are used of what the piece's holder has,
/// and no longer once it is taken back.
fn has_subs(board: &mut Board) -> bool {
    found(board, 40, 41) == Some(((32, 63), Some((0, 63))))
        && found(board, 31, 41) == Some(((0, 63), None))
        && found(board, 63, 64).is_none()
        && found(board, 200, 200).is_none()
        && (board.used(0, Space::Ipv4), board.used(1, Space::Ipv4)) == (0, 32)
        && taken(board, &sub_returned(32, 63)) == Some(true)
        && (board.used(1, Space::Ipv4), board.subs().len()) == (0, 0)
        && taken(board, &sub_assigned(0, 63)) == Some(true)
        && found(board, 0, 63) == Some(((0, 63), Some((0, 63))))
}

/// Why a step that paints nothing is refused, or nothing.
fn refusal(board: &Board, step: &Option<Step>) -> Option<Refusal> {
    let step = step.as_ref()?;
    let subject = board.subject(&step.request);
    let early = board.early_refusal(&step.request, &subject);
    if early.is_some() {
        return early;
    }
    board.late_refusal(&step.request, &subject, step.day, &None, &None)
}

/// AS numbers get no name servers.
fn refuses_numbers(board: &Board) -> Option<bool> {
    let request = Request::SetReverse {
        range: Range::new(Space::Asn, 64496, 64496)?,
        servers: Servers::new(&[Host::read(ONE)?])?,
    };
    let subject = board.subject(&request);
    let late = board.late_refusal(&request, &subject, DAY, &None, &None);
    Some(late == Some(Refusal::NoReverseSpace))
}

/// The reasons that the reverse entry of the upper half gives, and what there is room for.
fn refuses_by_reverse(board: &Board) -> Option<bool> {
    let range = range(64, 127)?;
    Some(
        refusal(board, &reversed(32, 95, ONE))
            == Some(Refusal::Overlap {
                number: number(64)?,
            })
            && refusal(board, &reversed(96, 127, ONE))
                == Some(Refusal::Overlap {
                    number: number(96)?,
                })
            && refusal(board, &reversed(0, 63, ONE)) == Some(Refusal::ReverseFull { room: 1 })
            && refusal(board, &reversed(64, 127, ONE)).is_none()
            && refusal(board, &unreversed(64, 95)) == Some(Refusal::NoReverse)
            && refusal(board, &split(96)) == Some(Refusal::Straddled { range })
            && board.reverse().exact(&range) == Servers::new(&[Host::read(OTHER)?]),
    )
}

fn reverses_go(board: &mut Board) -> bool {
    first_wrong(board, &reverses_taken_out()).is_none()
        && board.reverse().len() == 1
        && taken(board, &returned(0, 63, DUE)) == Some(true)
        && board.reverse().len() == 0
}

fn keeps_reverses(board: &mut Board) -> Option<bool> {
    let set = wrong_after(board, &reverses()).is_none();
    Some(set && refuses_by_reverse(board)? && refuses_numbers(board)? && reverses_go(board))
}

fn blocks_go(board: &mut Board) -> bool {
    wrong_after(board, &blocks()).is_none() && has_taken_blocks(board)
}

fn releases_go(board: &mut Board) -> bool {
    wrong_after(board, &releases()).is_none()
        && piece_at(board, 64) == Some((0, 255, Status::Available))
        && board.kept() == (14, 14)
        && board.op(13).is_none()
        && has_noted(board, &BLOCK_OPERATIONS[13])
}

fn all_goes_at_once(board: &mut Board) -> bool {
    wrong_after(board, &all_at_once()).is_none()
        && piece_at(board, 255) == Some((0, 255, Status::Allocated))
}

fn splits_go(board: &mut Board) -> bool {
    wrong_after(board, &splits()).is_none() && is_split_and_joined(board)
}

fn transfers_go(board: &mut Board) -> bool {
    wrong_after(board, &transfers()).is_none() && goes_back(board)
}

fn filling_goes(board: &mut Board) -> bool {
    wrong_after(board, &filling()).is_none() && is_full(board)
}

fn subs_go(board: &mut Board) -> bool {
    wrong_after(board, &subs()).is_none() && has_subs(board)
}

/// What is tried on a register of its own.
#[derive(Clone, Copy)]
enum Trial {
    Blocks,
    Releases,
    AllAtOnce,
    Splits,
    Transfers,
    Filling,
    Subs,
    Reverses,
    BlockOperations,
    OtherOperations,
}

fn holds_in(board: &mut Board, trial: Trial) -> bool {
    match trial {
        Trial::Blocks => blocks_go(board),
        Trial::Releases => releases_go(board),
        Trial::AllAtOnce => all_goes_at_once(board),
        Trial::Splits => splits_go(board),
        Trial::Transfers => transfers_go(board),
        Trial::Filling => filling_goes(board),
        Trial::Subs => subs_go(board),
        Trial::Reverses => keeps_reverses(board) == Some(true),
        Trial::BlockOperations => notes_blocks(board),
        Trial::OtherOperations => notes_others(board),
    }
}

/// Whether it holds in a register with these rooms. No other function of the tests owns a board, and this one has one end
/// behind it, since each end proves again that all of the board is dropped.
fn holds(alloc: Global, rooms: Rooms, trial: Trial) -> Result<bool, AllocError>
    requires { AreRooms rooms }
{
    let mut board = Board::with_room(alloc, rooms)?;
    Ok(holds_in(&mut board, trial))
}

#[test]
fn blocks_are_taken_returned_and_released(rt: HostRuntime) -> Result<(), Fail> {
    assert!(rt; holds(rt.alloc(), ROOMS, Trial::Blocks)?);
    Ok(())
}

#[test]
fn what_is_released_joins_its_neighbours(rt: HostRuntime) -> Result<(), Fail> {
    assert!(rt; holds(rt.alloc(), ROOMS, Trial::Releases)?);
    Ok(())
}

#[test]
fn all_is_delegated_at_once(rt: HostRuntime) -> Result<(), Fail> {
    assert!(rt; holds(rt.alloc(), ROOMS, Trial::AllAtOnce)?);
    Ok(())
}

#[test]
fn pieces_are_split_and_joined(rt: HostRuntime) -> Result<(), Fail> {
    assert!(rt; holds(rt.alloc(), ROOMS, Trial::Splits)?);
    Ok(())
}

#[test]
fn pieces_are_transferred(rt: HostRuntime) -> Result<(), Fail> {
    assert!(rt; holds(rt.alloc(), ROOMS, Trial::Transfers)?);
    Ok(())
}

#[test]
fn rooms_are_kept(rt: HostRuntime) -> Result<(), Fail> {
    assert!(rt; holds(rt.alloc(), FEW, Trial::Filling)?);
    Ok(())
}

#[test]
fn subs_are_assigned_found_and_taken_back(rt: HostRuntime) -> Result<(), Fail> {
    assert!(rt; holds(rt.alloc(), ROOMS, Trial::Subs)?);
    Ok(())
}

#[test]
fn reverse_entries_are_set_and_taken_out(rt: HostRuntime) -> Result<(), Fail> {
    assert!(rt; holds(rt.alloc(), ROOMS, Trial::Reverses)?);
    Ok(())
}

#[test]
fn operations_of_pieces_are_kept(rt: HostRuntime) -> Result<(), Fail> {
    assert!(rt; holds(rt.alloc(), WIDE, Trial::BlockOperations)?);
    Ok(())
}

#[test]
fn operations_of_what_an_entry_names_are_kept(rt: HostRuntime) -> Result<(), Fail> {
    assert!(rt; holds(rt.alloc(), WIDE, Trial::OtherOperations)?);
    Ok(())
}
