//! Both doors over connections in memory, with one worker each.
ghost use Rattle.std.specs.Prelude.{◌≡◌, [], IfOk};
ghost use Rattle.door_face.specs.MemGate.{IsUnused};

use door_face::{
    Door, FailingGate, FailingInTurn, Gate, InTurn, MemGate, MemWay, Spawner, ThreadSpawner,
};
use link_face::{FixedDay, Joined, MemLink, MemSink, MemSource};
use policy_table::Policy;
use reg_entry::Rooms;
use serve_run::{Doors, ServeFault, serve};
use std::alloc::{AllocError, Global};
use std::sync::Wait;
use std::test::Fail;
use std::thread::Threads;

const POLICY: &[u8] = b"registry = \"exreg\"\nquarantine_days = 30\nhold_days = 365\n\
    hostmasters = { local = \"k-local-0001\" }\n[zone]\nmname = \"ns1.exreg.example\"\nrname = \"hostmaster.exreg.example\"\n\
    ttl = 172800\nrefresh = 7200\nretry = 1800\nexpire = 604800\nminimum = 3600\nservers = [\"ns1.exreg.example\"]\n[ipv4]\n\
    allocated = { least = 20, most = 32, cap = 4294967296, percent = 0, kinds = [\"lir\"] }\n\
    assigned = { least = 20, most = 32, cap = 4294967296, kinds = [\"lir\", \"enduser\"] }\n[ipv6]\n\
    allocated = { least = 20, most = 64, cap = 2305843009213693952, percent = 0, kinds = [\"lir\"] }\n\
    assigned = { least = 32, most = 64, cap = 2305843009213693952, kinds = [\"lir\", \"enduser\"] }\n[asn]\n\
    allocated = { least = 1, most = 1024, cap = 4294967296, percent = 0, kinds = [\"lir\"] }\n\
    assigned = { least = 1, most = 1024, cap = 4294967296, kinds = [\"lir\", \"enduser\"] }\n";

const ROOMS: Rooms = Rooms {
    pieces: 16,
    holders: 4,
    subs: 4,
    reverse: 4,
    entries: 16,
    window: 4,
};

/// 2024-03-01.
const DAY: FixedDay = FixedDay(19783);

const DOORS: Doors = Doors {
    http: 8080,
    line: 4343,
    workers: 1,
};

const RECEIVE: &[u8] = b"POST /desk HTTP/1.1\r\n\
    Host: r\r\n\
    Authorization: Bearer k-local-0001\r\n\
    Content-Length: 20\r\n\
    \r\n\
    receive 192.0.2.0/24";

const RECEIVED: &[u8] = b"HTTP/1.1 200 OK\r\n\
    Content-Type: text/plain\r\n\
    Content-Length: 29\r\n\
    Register-Serial: 1\r\n\
    \r\n\
    ok 1 192.0.2.0 - 192.0.2.255\n";

const HELP: &[u8] = b"HEAD /help HTTP/1.1\r\n\
    Host: r\r\n\
    \r\n";

const HELPED: &[u8] = b"HTTP/1.1 200 OK\r\n\
    Content-Type: application/rdap+json\r\n\
    Content-Length: 113\r\n\
    Register-Serial: 1\r\n\
    \r\n";

const QUERY: &[u8] = b"-g OTHER:3:1-LAST\n";

const ANSWER: &[u8] = b"%ERROR: unknown source\n";

// A connection on which the text comes.
fn link_of(alloc: Global, text: &[u8]) -> MemLink<'_>
    ensures taken { result.source.taken ≡ [] }
    ensures written { result.sink.written ≡ [] }
    ensures faults { result.sink.faults ≡ 0 }
{
    Joined {
        source: MemSource::new(text),
        sink: MemSink::new(alloc),
    }
}

// A way with two connections over HTTP.
fn http_way(alloc: Global) -> Result<MemWay<MemLink<'static>>, AllocError>
    ensures { IfOk result IsUnused }
{
    let mut way = MemWay::new(alloc);
    way.add(link_of(alloc, RECEIVE))?;
    way.add(link_of(alloc, HELP))?;
    Ok(way)
}

// A way with the connection of one line.
fn line_way(alloc: Global) -> Result<MemWay<MemLink<'static>>, AllocError>
    ensures { IfOk result IsUnused }
{
    let mut way = MemWay::new(alloc);
    way.add(link_of(alloc, QUERY))?;
    Ok(way)
}

// A gate with a way at each door: two connections over HTTP, and one of a line.
fn gate_of(alloc: Global) -> Result<MemGate<MemLink<'static>>, AllocError>
    ensures { IfOk result (λ gate. gate.lent ≡ 0) }
{
    let mut gate = MemGate::new(alloc);
    gate.add(Door::Http, http_way(alloc)?)?;
    gate.add(Door::Line, line_way(alloc)?)?;
    Ok(gate)
}

// Serves both doors of an empty register.
fn serves<R: Threads + Wait + Sync, G: Gate, P: Spawner>(
    rt: &R,
    alloc: Global,
    gate: &mut G,
    spawner: &mut P,
) -> Option<Result<u64, ServeFault>> {
    match Policy::read(alloc, POLICY) {
        Ok(policy) => Some(serve(rt, alloc, ROOMS, &policy, DOORS, &DAY, gate, spawner)),
        Err(_) => None,
    }
}

// What was written to the connections that came back, one behind the other.
fn written(alloc: Global, ways: &[MemWay<MemLink<'_>>]) -> Result<Vec<u8>, AllocError> {
    let mut text = Vec::new(alloc);
    for way in ways {
        for link in way.returned() {
            text.extend_from_slice(link.sink.bytes())?;
        }
    }
    Ok(text)
}

// Whether these are the texts, one behind the other.
fn is_joined(text: &[u8], wanted: &[&[u8]]) -> bool {
    let mut rest = text;
    for one in wanted {
        match rest.strip_prefix(*one) {
            Some(behind) => rest = behind,
            None => return false,
        }
    }
    rest.is_empty()
}

// Whether a service ends so, and this was written to the connections that came back.
fn is_served<R: Threads + Wait + Sync, P: Spawner>(
    rt: &R,
    alloc: Global,
    gate: &mut MemGate<MemLink<'static>>,
    spawner: &mut P,
    ends: Result<u64, ServeFault>,
    wanted: &[&[u8]],
) -> Result<bool, AllocError> {
    let ended = serves(rt, alloc, gate, spawner) == Some(ends);
    let text = written(alloc, gate.returned())?;
    Ok(ended && is_joined(&text, wanted))
}

// The same through a gate of its own.
fn is_served_through_one<R: Threads + Wait + Sync, P: Spawner>(
    rt: &R,
    alloc: Global,
    spawner: &mut P,
    ends: Result<u64, ServeFault>,
    wanted: &[&[u8]],
) -> Result<bool, AllocError> {
    let mut gate = gate_of(alloc)?;
    is_served(rt, alloc, &mut gate, spawner, ends, wanted)
}

#[test]
fn serves_both_doors(rt: HostRuntime) -> Result<(), Fail> {
    let wanted = [RECEIVED, HELPED, ANSWER];
    assert!(rt; is_served_through_one(&rt, rt.alloc(), &mut InTurn, Ok(3), &wanted)?);
    let mut threads = ThreadSpawner::new();
    assert!(rt; is_served_through_one(&rt, rt.alloc(), &mut threads, Ok(3), &wanted)?);
    Ok(())
}

// Whether the gate fails so often, and this was written to the connections that came back.
fn is_failed<R: Threads + Wait + Sync>(
    rt: &R,
    alloc: Global,
    gate: &mut FailingGate<'_, MemLink<'static>>,
    faults: u64,
    wanted: &[&[u8]],
) -> Result<bool, AllocError> {
    let ended = serves(rt, alloc, gate, &mut InTurn) == Some(Err(ServeFault::Gate));
    let text = written(alloc, gate.returned())?;
    Ok(ended && gate.faults() == faults && is_joined(&text, wanted))
}

// The same of a gate that fails at these calls, whose ways fail at those.
fn fails_at<R: Threads + Wait + Sync>(
    rt: &R,
    alloc: Global,
    calls: &[u64],
    accepts: &[u64],
    faults: u64,
    wanted: &[&[u8]],
) -> Result<bool, AllocError> {
    let mut gate = FailingGate::new(gate_of(alloc)?, calls, accepts);
    is_failed(rt, alloc, &mut gate, faults, wanted)
}

// The gate gives no way at its second door; then each way fails at its second accept.
#[test]
fn gates_fail(rt: HostRuntime) -> Result<(), Fail> {
    assert!(rt; fails_at(&rt, rt.alloc(), &[1], &[], 1, &[])?);
    assert!(rt; fails_at(&rt, rt.alloc(), &[], &[1], 2, &[RECEIVED, ANSWER])?);
    Ok(())
}

// The duty of lines comes back.
#[test]
fn spawners_fail(rt: HostRuntime) -> Result<(), Fail> {
    let mut spawner = FailingInTurn::new(&[1]);
    let ends = Err(ServeFault::Spawn);
    let served = is_served_through_one(&rt, rt.alloc(), &mut spawner, ends, &[RECEIVED, HELPED])?;
    assert!(rt; served && spawner.faults() == 1);
    Ok(())
}
