//! Connections over a desk in single bytes, with messages and with lines for the change stream, where calls of the link fail.
ghost use Rattle.std.specs.Prelude.{◌≡◌};

use super::{DAY, POLICY, ROOMS, joined};
use desk_book::{Book, Desk, Naming};
use hall::{serve_conn, serve_line};
use link_face::{FailingSink, FailingSource, FixedDay, Joined, MemSink, MemSource};
use policy_table::Policy;
use reg_entry::Name;
use snapshot_pub::Pass;
use std::alloc::{AllocError, Global};
use std::marker::{Brand, PhantomData};
use std::sync::Wait;
use std::test::Fail;
use wire_http::{ConnEnd, Framer};

// Two messages, and what is answered to each by a register without entries.
const TWO_LOOKUPS: &str = "GET /help HTTP/1.1\r\n\
    Host: r\r\n\
    \r\n\x1f\
    HTTP/1.1 200 OK\r\n\
    Content-Type: application/rdap+json\r\n\
    Content-Length: 113\r\n\
    Register-Serial: 0\r\n\
    \r\n\
    {\"notices\":[{\"description\":[\"RDAP lookups of this registry\"],\"title\":\"Help\"}],\"rdapConformance\":[\"rdap_level_0\"]}\x1e\
    HEAD /help HTTP/1.1\r\n\
    Host: r\r\n\
    \r\n\x1f\
    HTTP/1.1 200 OK\r\n\
    Content-Type: application/rdap+json\r\n\
    Content-Length: 113\r\n\
    Register-Serial: 0\r\n\
    \r\n";

/// A pass of the snapshots that are named.
#[derive(Drop)]
struct Seat<N: Naming> {
    pass: Pass,
    of: PhantomData<N>,
    ghost named: { (pass.book ≡ N.book) × (pass.rooms ≡ N.rooms) },
}

/// How a line was answered: how the connection ended, over how many entries, and how many bytes of the answer were written, if
/// what was written is a front of it.
type Told = (ConnEnd, Option<u64>, Option<usize>);

/// Asks by a line in single bytes, over a link of which these calls fail.
fn asked<N: Naming>(
    alloc: Global,
    seat: &mut Seat<N>,
    registry: &Name,
    line: &[u8],
    answer: &[u8],
    calls: (&[u64], &[u64]),
) -> Told {
    let mut link = Joined {
        source: FailingSource::new(MemSource::in_pieces(line, 1), calls.0),
        sink: FailingSink::new(MemSink::new(alloc), calls.1, 10),
    };
    let (end, entries) = serve_line(alloc, &mut link, &mut seat.pass, registry);
    let written = link.sink.bytes();
    let front = if answer.starts_with(written) {
        Some(written.len())
    } else {
        None
    };
    (end, entries, front)
}

/// Whether lines that are too long ask for nothing, and a link that fails has a front of what a register without entries answers.
fn ends_early<N: Naming>(alloc: Global, seat: &mut Seat<N>, registry: &Name) -> bool {
    let malformed = b"%ERROR: malformed query\n";
    let long = [b'x'; 1100];
    let line = b"-g EXREG:3:1-LAST\n";
    let none_newer = b"% no newer operations\n";
    asked(alloc, seat, registry, &long, malformed, (&[], &[])) == (ConnEnd::Closed, None, Some(24))
        && asked(alloc, seat, registry, line, none_newer, (&[], &[]))
            == (ConnEnd::Closed, Some(0), Some(22))
        && asked(alloc, seat, registry, line, none_newer, (&[4], &[]))
            == (ConnEnd::ReadFault, None, Some(0))
        && asked(alloc, seat, registry, line, none_newer, (&[], &[0]))
            == (ConnEnd::WriteFault, Some(0), Some(10))
}

/// How a conversation over a desk ended, and whether what was written is all or a front of what is to be answered, over a link
/// of which these calls fail.
fn conversed<N: Naming, R: Wait + Drop, W: Wait>(
    rt: &W,
    alloc: Global,
    desk: &Desk<N, R>,
    seat: &mut Seat<N>,
    messages: &str,
    calls: (&[u64], &[u64]),
) -> Result<Option<(ConnEnd, bool)>, AllocError> {
    let talk = joined(alloc, messages)?;
    let Ok(policy) = Policy::read(alloc, POLICY) else {
        return Ok(None);
    };
    let mut framer = Framer::new(alloc)?;
    let mut link = Joined {
        source: FailingSource::new(MemSource::in_pieces(&talk.input, 1), calls.0),
        sink: FailingSink::new(MemSink::new(alloc), calls.1, 10),
    };
    let clock = FixedDay(DAY);
    let end = serve_conn(
        rt,
        alloc,
        &mut link,
        &mut framer,
        desk,
        &mut seat.pass,
        &policy,
        &clock,
    );
    let written = link.sink.bytes();
    let is_all = written.len() == talk.output.len();
    let is_front = talk.output.as_slice().starts_with(written);
    Ok(Some((end, is_front && (is_all || end != ConnEnd::Closed))))
}

/// The same of the lines of the policy's registry.
fn lines_end_early<N: Naming>(alloc: Global, seat: &mut Seat<N>) -> bool {
    match Policy::read(alloc, POLICY) {
        Ok(policy) => ends_early(alloc, seat, policy.registry()),
        Err(_) => false,
    }
}

/// Whether all is answered, and a front of it where any one of the link's calls fails.
fn fronts_are_written<N: Naming, R: Wait + Drop, W: Wait>(
    rt: &W,
    alloc: Global,
    desk: &Desk<N, R>,
    seat: &mut Seat<N>,
) -> Result<bool, AllocError> {
    if conversed(rt, alloc, desk, seat, TWO_LOOKUPS, (&[], &[]))? != Some((ConnEnd::Closed, true)) {
        return Ok(false);
    }
    // Each byte of the two messages is a read, and so is their end.
    for call in 0..64 {
        let told = conversed(rt, alloc, desk, seat, TWO_LOOKUPS, (&[call], &[]))?;
        if told != Some((ConnEnd::ReadFault, true)) {
            return Ok(false);
        }
    }
    for call in 0..2 {
        let told = conversed(rt, alloc, desk, seat, TWO_LOOKUPS, (&[], &[call]))?;
        if told != Some((ConnEnd::WriteFault, true)) {
            return Ok(false);
        }
    }
    Ok(true)
}

/// What is tried over a desk.
#[derive(Clone, Copy)]
enum Tried {
    Lines,
    Messages,
}

fn goes_well<N: Naming, R: Wait + Drop, W: Wait>(
    rt: &W,
    own: R,
    alloc: Global,
    book: Book,
    pass: Pass,
    tried: Tried,
) -> Result<bool, AllocError>
    requires book { (book.book ≡ N.book) × (book.rooms ≡ N.rooms) }
    requires pass { (pass.book ≡ N.book) × (pass.rooms ≡ N.rooms) }
{
    let desk = Desk::<N, R>::new(book, own);
    let mut seat = Seat {
        pass,
        of: PhantomData,
    };
    let well = match tried {
        Tried::Lines => Ok(lines_end_early(alloc, &mut seat)),
        Tried::Messages => fronts_are_written(rt, alloc, &desk, &mut seat),
    };
    desk.end().close(rt);
    well
}

fn goes_well_from_the_start<R: Wait + Drop, W: Wait>(
    rt: &W,
    own: R,
    alloc: Global,
    tried: Tried,
) -> Result<bool, AllocError> {
    let (book, mut passes) = Book::open(rt, alloc, ROOMS, 1)?;
    match passes.pop() {
        Some(pass) => goes_well::<Brand, R, W>(rt, own, alloc, book, pass, tried),
        None => {
            book.close(rt);
            Ok(false)
        }
    }
}

#[test]
fn desks_serve_failing_links(rt: HostRuntime) -> Result<(), Fail> {
    assert!(rt; goes_well_from_the_start(&rt, &rt, rt.alloc(), Tried::Lines)?);
    assert!(rt; goes_well_from_the_start(&rt, &rt, rt.alloc(), Tried::Messages)?);
    Ok(())
}
