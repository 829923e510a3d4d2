//! One connection for the change stream: a line, its answer, and the end (NRTM version 3).
ghost use Rattle.std.specs.Prelude.{◌≡◌, ◌≢◌, ◌<◌, ◌≤◌, ◌⊎◌, ◌++◌, ℕ, List, true, false, [], Ok, length, IsTrue, IsFalse, OnOk};
ghost use Rattle.std.specs.Io.KnownBytes.{Appends, Consumes};
ghost use Rattle.std.specs.Str.Lines.{strip_carriage_return};
ghost use mathlib.Core.List.{IsPrefix};
ghost use Rattle.link_face.specs.Faults.{HasCause, HasRisen};
ghost use Rattle.wire_http.specs.declared.message.ConnEnd.TheVariants.{Closed, ReadFault, WriteFault, Shut};
ghost use Rattle.reg_entry.specs.Next.{IsLegal};
ghost use Rattle.reader_edge.specs.Refusals.{raised};
ghost use Rattle.hall.specs.Receive.{HasReceived};
ghost use Rattle.hall.specs.Conversation.{known};
ghost use Rattle.hall.specs.Stream.{line_in, asked_in, IsSettled, HasTold, HasAnsweredLine};

use addr_text::parted_at;
use arrayvec::ArrayVec;
use link_face::{Failed, Link};
use nrtm_stream::{Ask, AskFault, NrtmLens, error_line, read_ask, source_of};
use reg_entry::Name;
use snapshot_pub::{LookFault, Pass};
use std::alloc::Global;
use wire_http::ConnEnd;

/// How many bytes a line may have without its end.
const LINE: usize = 1024;

/// How many bytes decide: a line, a carriage return, and one byte more, which is its line feed or shows that it is too long.
const ROOM: usize = 1026;

/// Reads some bytes behind those that have come, and says whether there were any.
fn receive<L: Link>(link: &mut L, bytes: &mut ArrayVec<u8, ROOM>) -> Result<bool, Failed>
    requires { length bytes.old.items < 1026 }
    ensures received { HasReceived result (L.taken link.old) (L.left link.old) bytes.old.items (L.taken link.new) (L.left link.new) bytes.new.items }
    ensures budget { result ≡ Ok true → L.budget link.new < L.budget link.old }
    ensures end { result ≡ Ok false → L.has_ended link.new }
    ensures room { length bytes.new.items ≤ 1026 }
    ensures written { L.written link.new ≡ L.written link.old }
    ensures cause { HasCause (L.Source.faults link.old) (L.Source.faults link.new) result }
{
    let mut buffer = [0; ROOM];
    let room = bytes.remaining_capacity();
    let piece = &mut buffer[..room];
    let count = link.read(piece)?;
    bytes.try_extend_from_slice(&piece[..count]).unwrap();
    Ok(count > 0)
}

/// Whether what the bytes ask is the same whatever comes behind them.
fn is_settled(bytes: &[u8]) -> bool
    ensures settled { IsTrue result → (registry more : List ℕ) → asked_in registry (bytes.now ++ more) ≡ asked_in registry bytes.now }
    ensures room { IsFalse result → length bytes.now < 1026 }
{
    match parted_at(b'\n', bytes) {
        Some(_) => true,
        None => bytes.len() >= ROOM,
    }
}

/// Reads until the line has come, or the input has ended.
fn receive_line<L: Link>(link: &mut L, bytes: &mut ArrayVec<u8, ROOM>) -> Result<(), Failed>
    requires { bytes.old.items ≡ [] }
    ensures taken { Appends (L.taken link.old) (L.taken link.new) bytes.new.items }
    ensures left { Consumes (L.left link.old) (L.left link.new) bytes.new.items }
    ensures short { length bytes.new.items ≤ 1026 }
    ensures settled { OnOk result (IsSettled (L.has_ended link.new) bytes.new.items) }
    ensures written { L.written link.new ≡ L.written link.old }
    ensures cause { HasCause (L.Source.faults link.old) (L.Source.faults link.new) result }
{
    'pieces: while !is_settled(bytes.as_slice()) {
        if !receive(link, bytes)? {
            return Ok(());
        }
    }
    Ok(())
}

fn without_carriage_return(line: &[u8]) -> &[u8]
    ensures { result.now ≡ strip_carriage_return line.now }
{
    match line {
        [front @ .., b'\r'] => front,
        _ => line,
    }
}

fn line_in(bytes: &[u8]) -> &[u8]
    ensures { result.now ≡ line_in bytes.now }
{
    match parted_at(b'\n', bytes) {
        Some((line, _)) => without_carriage_return(line),
        None => bytes,
    }
}

/// What the line at the front of the bytes asks for.
fn read_asked(bytes: &[u8], registry: &Name) -> Result<Ask, AskFault>
    ensures { result ≡ asked_in registry.now bytes.now }
{
    let line = line_in(bytes);
    if line.len() > LINE {
        return Err(AskFault::Malformed);
    }
    read_ask(line, source_of(registry).as_slice())
}

/// Writes the answer, which ends the connection.
fn tell<L: Link>(link: &mut L, text: &[u8]) -> ConnEnd
    ensures told { HasTold result (L.written link.old) text.now (L.written link.new) }
    ensures fault { result ≡ WriteFault → HasRisen (L.Source.faults link.old) (L.Source.faults link.new) }
    ensures whole { result ≡ Closed → L.Source.faults link.new ≡ L.Source.faults link.old }
    ensures taken { L.taken link.new ≡ L.taken link.old }
    ensures left { L.left link.new ≡ L.left link.old }
    ensures end { L.has_ended link.old → L.has_ended link.new }
{
    match link.write(text) {
        Ok(()) => ConnEnd::Closed,
        Err(Failed) => ConnEnd::WriteFault,
    }
}

/// Answers the one line of a connection for the change stream of this registry, and says how many entries the register had
/// that was looked at. A line has at most 1,024 bytes and ends with LF, CR LF or the input. Where the look has no answer
/// nothing is written, and the end has its name.
pub fn serve_line<L: Link>(
    alloc: Global,
    link: &mut L,
    pass: &mut Pass,
    registry: &Name,
) -> (ConnEnd, Option<u64>)
    ensures line { HasAnsweredLine registry.now pass.old (known (L.taken link.old) (L.left link.old) (L.written link.old)) result.0 result.1
        (L.has_ended link.new) (known (L.taken link.new) (L.left link.new) (L.written link.new)) pass.new }
    ensures fault { (result.0 ≡ ReadFault) ⊎ (result.0 ≡ WriteFault) → HasRisen (L.Source.faults link.old) (L.Source.faults link.new) }
    ensures told { result.0 ≡ Closed → L.Source.faults link.new ≡ L.Source.faults link.old }
    ensures seen { IsPrefix pass.old.entries pass.new.entries }
    ensures legal { IsLegal pass.new.rooms pass.new.entries }
    ensures shut { result.0 ≡ Shut → (pass.new.shuts ≡ raised pass.old.shuts) × (pass.new.entries ≡ pass.old.entries) }
    ensures open { result.0 ≢ Shut → pass.new.shuts ≡ pass.old.shuts }
    ensures same { (pass.new.book ≡ pass.old.book) × (pass.new.rooms ≡ pass.old.rooms) }
{
    // What every pass keeps, for `legal` where there is no look.
    pass.is_legal();
    let mut bytes = ArrayVec::new();
    match receive_line(link, &mut bytes) {
        Err(Failed) => return (ConnEnd::ReadFault, None),
        Ok(()) => {}
    }
    let ask = match read_asked(bytes.as_slice(), registry) {
        Err(fault) => return (tell(link, error_line(fault)), None),
        Ok(ask) => ask,
    };
    let lens = NrtmLens {
        ask,
        registry: *registry,
    };
    match pass.look(alloc, &lens) {
        Err(LookFault::Shut) => (ConnEnd::Shut, None),
        Err(LookFault::NoMemory) => (ConnEnd::NoMemory, None),
        Ok(answer) => (tell(link, answer.body.bytes()), Some(answer.entries)),
    }
}
