ghost use Rattle.std.specs.Prelude.{◌⊎◌, IfSome, OnOk, OnErr};
ghost use Rattle.std.specs.Io.KnownBytes.{Appends, IsAtEnd};
ghost use Rattle.link_face.specs.Faults.{HasRisen};

use link_face::{
    Clock, Failed, FixedDay, InSource, MemSink, MemSource, OutSink, Sink, Source, SystemDay,
};
use std::alloc::Global;
use std::time::Duration;
use std::{io, rt};

mod links;

// The loop that a caller writes: the traits' clauses alone say what it copies, and why it fails.
fn copy<S: Source, T: Sink>(source: &mut S, sink: &mut T) -> Result<(), Failed>
    ensures ok { OnOk result (IfSome (S.left source.old)
        (Appends (T.written sink.old) (T.written sink.new))) }
    ensures end { OnOk result (IsAtEnd (S.left source.new)) }
    ensures cause { OnErr result (HasRisen (S.faults source.old) (S.faults source.new)
        ⊎ HasRisen (T.faults sink.old) (T.faults sink.new)) }
{
    let mut buf = [0; 4];
    loop {
        match source.read(&mut buf) {
            Err(failed) => return Err(failed),
            Ok(0) => return Ok(()),
            Ok(count) => sink.write(&buf[..count])?,
        }
    }
}

const TEXT: &[u8] = b"0123456789";

// A reader of one byte, behind a signal and before a fault. Behind its end it would give bytes again.
#[derive(Drop)]
struct Shaken {
    turn: u8,
}

impl io::Read for Shaken {
    fn read(&mut self, buf: &mut [u8]) -> io::Result<usize> {
        self.turn = self.turn.saturating_add(1);
        match self.turn {
            1 => Err(io::Error::from(io::ErrorKind::Interrupted)),
            2 if !buf.is_empty() => {
                buf[0] = b'7';
                Ok(1)
            }
            3 => Err(io::Error::from(io::ErrorKind::BrokenPipe)),
            4 => Ok(0),
            _ => Ok(buf.len()),
        }
    }
}

fn reads_all(alloc: Global) -> bool {
    let mut sink = MemSink::new(alloc);
    let mut whole = InSource::new(TEXT);
    copy(&mut whole, &mut sink) == Ok(()) && (sink.bytes(), whole.faults()) == (TEXT, 0)
}

// The end is for good: what the reader would give behind it isn't asked for.
fn reads_up_to_its_end(shaken: &mut InSource<Shaken>, sink: &mut MemSink) -> bool {
    copy(shaken, sink) == Err(Failed)
        && (sink.bytes(), shaken.faults()) == (b"7".as_slice(), 1)
        && copy(shaken, sink) == Ok(())
        && copy(shaken, sink) == Ok(())
        && (sink.bytes(), shaken.faults()) == (b"7".as_slice(), 1)
}

#[test]
fn reads_from_a_reader(rt: HostRuntime) {
    let mut sink = MemSink::new(rt.alloc());
    let mut shaken = InSource::new(Shaken { turn: 0 });
    let reads = reads_up_to_its_end(&mut shaken, &mut sink);
    assert!(rt; reads && reads_all(rt.alloc()));
}

fn is_read_up_to(source: &mut InSource<&[u8]>, sink: &mut MemSink, budget: usize) -> bool {
    let is_whole = budget > TEXT.len();
    (copy(source, sink) == Ok(())) == is_whole
        && sink.bytes() == &TEXT[..budget.min(TEXT.len())]
        && (source.faults() == 0) == is_whole
}

fn reads_up_to(alloc: Global, budget: usize) -> bool {
    let mut sink = MemSink::new(alloc);
    let mut source = InSource::with_budget(TEXT, budget as u64);
    is_read_up_to(&mut source, &mut sink, budget)
}

// Each byte of the budget is used, and one is left over where the end is told.
#[test]
fn reads_up_to_the_budget(rt: HostRuntime) {
    for budget in 0..13usize {
        assert!(rt; reads_up_to(rt.alloc(), budget), "with {budget} bytes");
    }
}

// A writer that takes nothing, and one that cannot be flushed.
#[derive(Drop)]
struct Full;

impl io::Write for Full {
    fn write(&mut self, _buf: &[u8]) -> io::Result<usize> {
        Ok(0)
    }

    fn flush(&mut self) -> io::Result<()> {
        Ok(())
    }
}

#[derive(Drop)]
struct Stuck;

impl io::Write for Stuck {
    fn write(&mut self, buf: &[u8]) -> io::Result<usize> {
        Ok(buf.len())
    }

    fn flush(&mut self) -> io::Result<()> {
        Err(io::Error::from(io::ErrorKind::BrokenPipe))
    }
}

fn is_full() -> bool {
    let mut full = OutSink::new(Full);
    full.write(TEXT) == Err(Failed) && full.faults() == 1
}

fn is_stuck() -> bool {
    let mut stuck = OutSink::new(Stuck);
    stuck.write(TEXT) == Err(Failed) && stuck.faults() == 1
}

#[test]
fn writes_to_a_writer(rt: HostRuntime) {
    let mut bytes = Vec::new(rt.alloc());
    let mut sink = OutSink::new(&mut bytes);
    let copied = copy(&mut MemSource::new(TEXT), &mut sink) == Ok(()) && sink.faults() == 0;
    assert!(rt; copied && bytes.as_slice() == TEXT && is_full() && is_stuck());
}

// A system clock that stands so many seconds after 1970-01-01, or before it.
#[derive(Drop)]
struct Stopped(Option<u64>);

impl rt::Clock for Stopped {
    fn monotonic(&self) -> io::Result<Duration> {
        Ok(Duration::ZERO)
    }

    fn since_1970(&self) -> io::Result<Duration> {
        match self.0 {
            Some(seconds) => Ok(Duration::from_secs(seconds)),
            None => Err(io::Error::from(io::ErrorKind::Other)),
        }
    }
}

#[test]
fn tells_the_day(rt: HostRuntime) {
    assert_eq!(rt; FixedDay(19_675).day(), 19_675);
    // 1_700_000_000 seconds are 2023-11-14 at 22:13:20, the day 19675.
    let table = [
        (None, 0),
        (Some(0), 0),
        (Some(86_399), 0),
        (Some(86_400), 1),
        (Some(1_700_000_000), 19_675),
        (Some(86_400 * 4_294_967_295), u32::MAX),
        (Some(86_400 * 4_294_967_296), u32::MAX),
        (Some(u64::MAX), 0),
    ];
    for (seconds, day) in table {
        assert_eq!(rt;
            SystemDay::new(Stopped(seconds)).day(),
            day,
            "at {seconds:?}"
        );
    }
    assert!(rt; SystemDay::new(&rt).day() > 20_000);
}
