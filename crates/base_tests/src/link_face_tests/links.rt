//! A conversation on one connection.
ghost use Rattle.std.specs.Prelude.{◌≡◌, ◌<◌, ◌++◌, ℕ, List, IfSome, OnOk};
ghost use Rattle.std.specs.Io.KnownBytes.{Appends};
ghost use Rattle.link_face.specs.Faults.{HasCause};

use super::*;
use link_face::{Joined, Link, MemLink};

// Sends back what comes: over any link all that is read is written, and nothing else.
fn echo<L: Link>(link: &mut L) -> Result<(), Failed>
    ensures all { OnOk result (IfSome (L.left link.old) (Appends (L.written link.old) (L.written link.new))) }
    ensures taken { OnOk result ((bytes : List ℕ)
        × Appends (L.taken link.old) (L.taken link.new) bytes × Appends (L.written link.old) (L.written link.new) bytes) }
    ensures end { OnOk result (L.has_ended link.new) }
    ensures cause { HasCause (L.Source.faults link.old) (L.Source.faults link.new) result }
{
    let mut buf = [0; 4];
    'pieces: loop {
        match link.read(&mut buf) {
            Err(failed) => return Err(failed),
            Ok(0) => return Ok(()),
            Ok(count) => link.write(&buf[..count])?,
        }
    }
}

// In memory the link gives back just what it got.
fn echo_bytes(link: &mut MemLink<'_>) -> Result<(), Failed>
    ensures { OnOk result (link.new.sink.written ≡ link.old.sink.written ++ link.old.source.left) }
{
    echo(link)
}

fn is_sent_back(link: &mut MemLink<'_>) -> bool {
    echo_bytes(link) == Ok(()) && link.sink.bytes() == TEXT && link.source.left() == b"".as_slice()
}

fn sends_back(alloc: Global, piece: usize) -> bool
    requires { 0 < piece }
{
    let mut link = Joined {
        source: MemSource::in_pieces(TEXT, piece),
        sink: MemSink::new(alloc),
    };
    is_sent_back(&mut link)
}

#[test]
fn sends_back_what_comes(rt: HostRuntime) {
    for piece in [1, 3, 4, 10, usize::MAX] {
        assert!(rt; sends_back(rt.alloc(), piece), "in pieces of {piece}");
    }
}
