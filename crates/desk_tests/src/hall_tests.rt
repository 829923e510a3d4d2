//! Connections over links of which calls fail, and over a register that has a fault. Messages of all kinds, and connections that
//! end in each way, are rows of the built program's.
ghost use Rattle.std.specs.Prelude.{◌≡◌};

mod desks;

use board::{Answer, Board, Lens};
use hall::{Backend, Fault, serve};
use link_face::{FailingLink, FailingSink, FailingSource, FixedDay, Joined, MemSink, MemSource};
use policy_table::Policy;
use reg_entry::{Name, Reply, Request, Rooms};
use std::alloc::{AllocError, Global};
use std::test::Fail;
use wire_http::{ConnEnd, Framer};

const POLICY: &[u8] = b"registry = \"exreg\"\nquarantine_days = 30\nhold_days = 365\n\
    hostmasters = { local = \"k-local-0001\" }\n[zone]\nmname = \"ns1.exreg.example\"\nrname = \"hostmaster.exreg.example\"\n\
    ttl = 172800\nrefresh = 7200\nretry = 1800\nexpire = 604800\nminimum = 3600\nservers = [\"ns1.exreg.example\"]\n[ipv4]\n\
    allocated = { least = 20, most = 32, cap = 4294967296, percent = 0, kinds = [\"lir\"] }\n\
    assigned = { least = 20, most = 32, cap = 4294967296, kinds = [\"lir\", \"enduser\"] }\n[ipv6]\n\
    allocated = { least = 20, most = 64, cap = 2305843009213693952, percent = 0, kinds = [\"lir\"] }\n\
    assigned = { least = 32, most = 64, cap = 2305843009213693952, kinds = [\"lir\", \"enduser\"] }\n[asn]\n\
    allocated = { least = 1, most = 1024, cap = 4294967296, percent = 0, kinds = [\"lir\"] }\n\
    assigned = { least = 1, most = 1024, cap = 4294967296, kinds = [\"lir\", \"enduser\"] }\n";

const NO_MEMORY: &[u8] = b"HTTP/1.1 503 Service Unavailable\r\n\
    Content-Type: application/rdap+json\r\n\
    Content-Length: 110\r\n\
    \r\n\
    {\"description\":[\"no memory\"],\"errorCode\":503,\"rdapConformance\":[\"rdap_level_0\"],\"title\":\"Service Unavailable\"}";

const NO_SNAPSHOT: &[u8] = b"HTTP/1.1 503 Service Unavailable\r\n\
    Content-Type: application/rdap+json\r\n\
    Content-Length: 112\r\n\
    \r\n\
    {\"description\":[\"no snapshot\"],\"errorCode\":503,\"rdapConformance\":[\"rdap_level_0\"],\"title\":\"Service Unavailable\"}";

const DISK_FAILED: &[u8] = b"HTTP/1.1 500 Internal Server Error\r\n\
    Content-Type: application/rdap+json\r\n\
    Content-Length: 118\r\n\
    \r\n\
    {\"description\":[\"the disk failed\"],\"errorCode\":500,\"rdapConformance\":[\"rdap_level_0\"],\"title\":\"Internal Server Error\"}";

/// Two requests, and what is answered to each by a register without entries.
const TWO_REQUESTS: &str = "POST /desk HTTP/1.1\r\n\
    Host: r\r\n\
    Authorization: Bearer k-local-0001\r\n\
    Content-Length: 20\r\n\
    \r\n\
    receive 192.0.2.0/24\x1f\
    HTTP/1.1 200 OK\r\n\
    Content-Type: text/plain\r\n\
    Content-Length: 29\r\n\
    Register-Serial: 1\r\n\
    \r\n\
    ok 1 192.0.2.0 - 192.0.2.255\n\x1e\
    POST /desk HTTP/1.1\r\n\
    Host: r\r\n\
    Authorization: Bearer k-local-0001\r\n\
    Content-Length: 51\r\n\
    \r\n\
    holder ORG-A lir DE \"Alpha Net\" \"noc@alpha.example\"\x1f\
    HTTP/1.1 200 OK\r\n\
    Content-Type: text/plain\r\n\
    Content-Length: 7\r\n\
    Register-Serial: 2\r\n\
    \r\n\
    ok 2 -\n";

const ROOMS: Rooms = Rooms {
    pieces: 16,
    holders: 4,
    subs: 4,
    reverse: 4,
    entries: 16,
    window: 4,
};

/// 2024-03-01.
const DAY: u32 = 19783;

/// What comes and what is written on one connection.
#[derive(Drop)]
struct Talk {
    input: Vec<u8>,
    output: Vec<u8>,
}

/// The messages of a table, one behind the other, and the replies to them.
fn joined(alloc: Global, table: &str) -> Result<Talk, AllocError> {
    let mut input = Vec::new(alloc);
    let mut output = Vec::new(alloc);
    for row in table.split('\x1e') {
        if let Some((message, reply)) = row.split_once('\x1f') {
            input.extend_from_slice(message.as_bytes())?;
            output.extend_from_slice(reply.as_bytes())?;
        }
    }
    Ok(Talk { input, output })
}

/// How a connection ended, and what was written.
#[derive(Drop)]
struct Outcome {
    end: ConnEnd,
    written: Vec<u8>,
}

fn written_of(alloc: Global, bytes: &[u8], end: ConnEnd) -> Result<Outcome, AllocError> {
    let mut written = Vec::new(alloc);
    written.extend_from_slice(bytes)?;
    Ok(Outcome { end, written })
}

/// Serves a connection over an empty register. No other function of these tests owns a board, and this one has one end behind
/// it.
fn end_of(
    alloc: Global,
    link: &mut FailingLink<'_>,
    framer: &mut Framer,
    policy: &Policy,
) -> Result<ConnEnd, AllocError> {
    let mut board = Board::with_room(alloc, ROOMS)?;
    let clock = FixedDay(DAY);
    Ok(serve(alloc, link, framer, &mut board, policy, &clock))
}

/// Serves a connection that comes in pieces of a hundred bytes, over a link of which these calls fail.
fn served(
    alloc: Global,
    input: &[u8],
    reads: &[u64],
    writes: &[u64],
) -> Result<Option<Outcome>, AllocError> {
    let mut framer = Framer::new(alloc)?;
    let Ok(policy) = Policy::read(alloc, POLICY) else {
        return Ok(None);
    };
    let mut link: FailingLink<'_> = Joined {
        source: FailingSource::new(MemSource::in_pieces(input, 100), reads),
        sink: FailingSink::new(MemSink::new(alloc), writes, 10),
    };
    let end = end_of(alloc, &mut link, &mut framer, &policy)?;
    written_of(alloc, link.sink.bytes(), end).map(Some)
}

/// How the connection ends where these calls of the link fail, and how many bytes of the replies are written before.
fn written_before(
    alloc: Global,
    reads: &[u64],
    writes: &[u64],
) -> Result<Option<(ConnEnd, usize)>, AllocError> {
    let talk = joined(alloc, TWO_REQUESTS)?;
    let Some(outcome) = served(alloc, &talk.input, reads, writes)? else {
        return Ok(None);
    };
    if !talk.output.starts_with(&outcome.written) {
        return Ok(None);
    }
    Ok(Some((outcome.end, outcome.written.len())))
}

#[test]
fn failed_link_has_a_front_of_the_replies(rt: HostRuntime) -> Result<(), Fail> {
    let alloc = rt.alloc();
    assert_eq!(rt;
        written_before(alloc, &[], &[])?,
        Some((ConnEnd::Closed, 205))
    );
    assert_eq!(rt;
        written_before(alloc, &[0], &[])?,
        Some((ConnEnd::ReadFault, 0))
    );
    assert_eq!(rt;
        written_before(alloc, &[2], &[])?,
        Some((ConnEnd::ReadFault, 114))
    );
    assert_eq!(rt;
        written_before(alloc, &[], &[0])?,
        Some((ConnEnd::WriteFault, 10))
    );
    assert_eq!(rt;
        written_before(alloc, &[], &[1])?,
        Some((ConnEnd::WriteFault, 124))
    );
    Ok(())
}

/// A register of which every call has this fault.
#[derive(Drop)]
struct Broken(Fault);

impl Backend for Broken {
    ghost use Rattle.std.specs.Prelude.{◌≡◌, ⊤, []};
    ghost use Rattle.std.proofs.Common.{◌∙◌, sym, append-nil};
    ghost use Rattle.reg_entry.specs.Operations.{empty_board};

    ghost rooms = { λ _. record { pieces = 1; holders = 1; subs = 1; reverse = 1; entries = 1; window = 1 } };

    ghost stands = { λ _ _. ⊤ };

    ghost goes_on = { λ es fs. fs ≡ es };

    ghost keeps_entries = { λ es fs same. ([], same ∙ sym (append-nil es)) };

    ghost may_fail = { λ _. ⊤ };

    fn look<L: Lens>(&mut self, _alloc: Global, _lens: &L) -> Result<Answer, Fault> {
        Err(self.0)
    }

    fn submit(
        &mut self,
        _policy: &Policy,
        _day: u32,
        _who: &Name,
        _request: &Request,
    ) -> Result<(Reply, u64), Fault> {
        Err(self.0)
    }
}

const ASKED: &[u8] = b"GET /stats HTTP/1.1\r\nHost: r\r\n\r\n\
    POST /desk HTTP/1.1\r\nAuthorization: Bearer k-local-0001\r\nContent-Length: 20\r\n\r\nreceive 192.0.2.0/24";

/// Whether a lookup and a request are both answered by this reply.
fn is_told(alloc: Global, fault: Fault, reply: &[u8]) -> Result<bool, AllocError> {
    let mut backend = Broken(fault);
    let mut framer = Framer::new(alloc)?;
    let Ok(policy) = Policy::read(alloc, POLICY) else {
        return Ok(false);
    };
    let mut link = Joined {
        source: MemSource::new(ASKED),
        sink: MemSink::new(alloc),
    };
    let clock = FixedDay(DAY);
    let end = serve(alloc, &mut link, &mut framer, &mut backend, &policy, &clock);
    let mut twice = Vec::new(alloc);
    twice.extend_from_slice(reply)?;
    twice.extend_from_slice(reply)?;
    Ok(end == ConnEnd::Closed && link.sink.bytes() == twice.as_slice())
}

#[test]
fn faults_are_told(rt: HostRuntime) -> Result<(), Fail> {
    let alloc = rt.alloc();
    assert!(rt; is_told(alloc, Fault::NoMemory, NO_MEMORY)?);
    assert!(rt; is_told(alloc, Fault::Shut, NO_SNAPSHOT)?);
    assert!(rt; is_told(alloc, Fault::DiskFailed, DISK_FAILED)?);
    Ok(())
}
