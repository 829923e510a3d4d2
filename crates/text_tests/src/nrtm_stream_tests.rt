//! Lines for the change stream of a register that keeps its last two operations. The range is 192.0.2.0/24 (RFC 5737). Lines of
//! all kinds, and a stream of all operations, are rows of the built program's.
use board::{Answer, Board, Lens, Media};
use nrtm_stream::{NrtmLens, read_ask};
use num_range::{Range, Space};
use reg_entry::{
    Card, Cc, Delegation, Entry, Handle, Holder, Kind, Name, Request, Rooms, Status, Text,
};
use std::alloc::{AllocError, Global};
use std::test::Fail;

/// 2024-03-01.
const DAY: u32 = 19783;

const NET: u128 = 0xc000_0200;

const ROOMS: Rooms = Rooms {
    pieces: 4,
    holders: 1,
    subs: 1,
    reverse: 1,
    entries: 4,
    window: 2,
};

// Each row is a line, and what is answered to it.
const ANSWERS: &str = "-g EXREG:3:1-5=>%ERROR: serials 1-5 are not inside 4-5
|-g EXREG:3:3-LAST=>%ERROR: serials 3-5 are not inside 4-5
|-g EXREG:3:5-LAST=>%START Version: 3 EXREG 5-5

ADD 5

inetnum: 192.0.2.64 - 192.0.2.255
status: available
source: EXREG

%END EXREG
|-g EXREG:3:6-LAST=>% no newer operations
";

/// 192.0.2.0 up to this octet.
fn front(last: u8) -> Option<Range> {
    Range::new(Space::Ipv4, NET, NET + u128::from(last))
}

fn holder() -> Option<Holder> {
    Some(Holder {
        handle: Handle::read(b"ORG-A")?,
        kind: Kind::Lir,
        cc: Cc::read(b"DE")?,
        name: Text::read(b"Alpha Net")?,
        email: Text::read(b"noc@alpha.example")?,
    })
}

/// The /24 is received, a holder comes, and gets the least /26.
fn request(seq: u64) -> Option<Request> {
    match seq {
        1 => Some(Request::Receive { range: front(255)? }),
        2 => Some(Request::AddHolder { holder: holder()? }),
        3 => Some(Request::Delegate {
            space: Space::Ipv4,
            amount: 26,
            status: Delegation::Allocate,
            handle: Handle::read(b"ORG-A")?,
        }),
        _ => None,
    }
}

fn cover(seq: u64) -> Option<Range> {
    match seq {
        1 => front(255),
        3 => front(63),
        _ => None,
    }
}

fn card(seq: u64) -> Option<Card> {
    match seq {
        1 => Some(Card::plain()),
        3 => Some(Card {
            status: Status::Allocated,
            holder: Some(0),
            day: DAY,
            until: 0,
        }),
        _ => None,
    }
}

/// Takes the entry of this number in where it may come next, and says whether it was.
fn taken(board: &mut Board, seq: u64) -> Option<()> {
    let entry = Entry {
        seq,
        day: DAY,
        who: Name::read(b"local")?,
        request: request(seq)?,
        cover: cover(seq),
        card: card(seq),
    };
    if !board.is_next(&entry) {
        return None;
    }
    board.apply(&entry);
    Some(())
}

/// Asks a question that is known by its bound alone.
fn looked<L: Lens>(lens: &L, alloc: Global, board: &Board) -> Result<Answer, AllocError> {
    lens.read(alloc, board)
}

/// Whether this is answered to the line.
fn is_answered(
    alloc: Global,
    board: &Board,
    registry: &Name,
    line: &str,
    text: &str,
) -> Result<bool, AllocError> {
    let Ok(ask) = read_ask(line.as_bytes(), b"EXREG") else {
        return Ok(false);
    };
    let lens = NrtmLens {
        ask,
        registry: *registry,
    };
    let answer = looked(&lens, alloc, board)?;
    Ok(
        answer.body.bytes() == text.as_bytes()
            && (answer.status, answer.media, answer.entries)
                == (200, Media::Plain, board.entries()),
    )
}

/// The first line that isn't answered as the table says, once the entries have come.
fn first_wrong(alloc: Global, board: &mut Board) -> Result<Option<&'static str>, AllocError> {
    let Some(registry) = Name::read(b"exreg") else {
        return Ok(Some("registry"));
    };
    for seq in 1..=3 {
        if taken(board, seq).is_none() {
            return Ok(Some("entry"));
        }
    }
    for row in ANSWERS.split('|') {
        if let Some((line, text)) = row.split_once("=>") {
            if !is_answered(alloc, board, &registry, line, text)? {
                return Ok(Some(line));
            }
        }
    }
    Ok(None)
}

/// The same of a register of its own. No other function of these tests owns a board, and this one has one end behind it, since
/// each end proves again that all of the board is dropped.
fn first_unanswered(alloc: Global) -> Result<Option<&'static str>, AllocError> {
    let mut board = Board::with_room(alloc, ROOMS)?;
    first_wrong(alloc, &mut board)
}

#[test]
fn last_operations_are_streamed(rt: HostRuntime) -> Result<(), Fail> {
    assert_eq!(rt; first_unanswered(rt.alloc())?, None);
    Ok(())
}
