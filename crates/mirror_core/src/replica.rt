//! What a mirror has between lines.
ghost use Rattle.std.specs.Prelude.{◌≡◌, ◌≤◌, ◌-◌, ◌^◌, [], None};
ghost use Rattle.std.specs.Option.{is_none};
ghost use Rattle.std.specs.Str.Lines.{strip_carriage_return};
ghost use Rattle.mirror_core.specs.Mirror.{later};
ghost use Rattle.mirror_core.specs.Line.{after_line, stream_line, goes_on_with_value, long_fault};
ghost use Rattle.mirror_core.specs.Replica.{standing, standing_in, IsAfter, IsBehind};

use crate::FeedFault;
use crate::draft::{Draft, Serials, Stream};
use crate::objects::Objects;
use arrayvec::ArrayVec;
use std::alloc::Global;
use std::marker::Model;

/// The objects of a register, and the stream that brings the next ones, line by line.
#[derive(Drop)]
pub(crate) struct Replica {
    pub(crate) alloc: Global,
    pub(crate) source: ArrayVec<u8, 24>,
    pub(crate) objects: Objects,
    // Of the last operation that was applied.
    pub(crate) serial: u64,
    pub(crate) stream: Option<Stream>,
    // Of the next line.
    pub(crate) place: u64,
}

impl Model for Replica {
    ghost use Rattle.mirror_core.specs.Replica.{PlainReplica};

    ghost Value = { PlainReplica };

    ghost view = { λ r. record { source = r.source.items; objects = r.objects; serial = r.serial; stream = r.stream; place = r.place } };
}

/// The line without the one carriage return at its end.
fn without_return(line: &[u8]) -> &[u8]
    ensures { result.now ≡ strip_carriage_return line.now }
{
    match line {
        [front @ .., b'\r'] => front,
        _ => line,
    }
}

/// Whether the first byte says that the line goes on with the value before it.
fn goes_on_with_value(line: &[u8]) -> bool
    ensures { result ≡ goes_on_with_value line.now }
{
    matches!(line, [b'+' | b' ' | b'\t', ..])
}

impl Replica {
    /// No objects, and no stream yet.
    pub(crate) fn new(alloc: Global, source: ArrayVec<u8, 24>) -> Replica
        ensures { result ≡ record { source = source.items; objects = []; serial = 0; stream = None; place = 0 } }
    {
        Replica {
            alloc,
            source,
            objects: Objects::new(alloc),
            serial: 0,
            stream: None,
            place: 0,
        }
    }

    pub(crate) fn objects(&self) -> &Objects
        ensures { result.now ≡ self.now.objects }
    {
        &self.objects
    }

    pub(crate) fn place(&self) -> u64
        ensures { result ≡ self.now.place }
    {
        self.place
    }

    pub(crate) fn serial(&self) -> u64
        ensures { result ≡ self.now.serial }
    {
        self.serial
    }

    /// Whether no stream has begun that hasn't ended.
    pub(crate) fn is_between_streams(&self) -> bool
        ensures { result ≡ is_none self.now.stream }
    {
        self.stream.is_none()
    }

    /// So many bytes later.
    pub(crate) fn pass(&mut self, count: usize)
        ensures passed { self.new ≡ record self.old { place = later self.old.place count } }
        ensures fits { self.old.place ≤ 2 ^ 64 - 1 }
    {
        self.place = self.place.saturating_add(count as u64);
    }

    /// The stream stops, so many bytes later.
    pub(crate) fn stop(&mut self, count: usize)
        ensures { self.new ≡ record self.old { stream = None; place = later self.old.place count } }
    {
        self.stream = None;
        self.place = self.place.saturating_add(count as u64);
    }

    pub(crate) fn spelling(&self) -> FeedFault
        ensures { result ≡ FeedFault.Spelling self.now.place }
    {
        FeedFault::Spelling { place: self.place }
    }

    /// What the line, without its end, says.
    fn take_line(&mut self, line: &[u8]) -> Result<(), FeedFault>
        ensures said { IsAfter (after_line (standing self.old) line.now) self.old self.new result }
        ensures place { self.new.place ≡ self.old.place }
    {
        match self.stream.take() {
            None => self.outside_line(line),
            Some(stream) => self.stream_line(stream, line),
        }
    }

    fn stream_line(&mut self, stream: Stream, line: &[u8]) -> Result<(), FeedFault>
        ensures said { IsAfter (stream_line (standing_in self.old stream) stream stream.draft line.now) self.old self.new result }
        ensures place { self.new.place ≡ self.old.place }
    {
        let Stream { serials, draft } = stream;
        match draft {
            Some(draft) => self.object_line(serials, draft, line),
            None => {
                self.stream = Some(Stream {
                    serials,
                    draft: None,
                });
                self.outside_line(line)
            }
        }
    }

    /// A whole line without its LF.
    pub(crate) fn take_whole_line(&mut self, line: &[u8]) -> Result<(), FeedFault>
        ensures { IsBehind self.old line.now self.new result }
    {
        match self.take_line(without_return(line)) {
            Ok(()) => {
                self.pass(line.len() + 1);
                Ok(())
            }
            Err(fault) => {
                self.stop(line.len() + 1);
                Err(fault)
            }
        }
    }

    /// What is wrong with a line that is too long and begins so, or with the attribute before it.
    pub(crate) fn long_fault(&self, line: &[u8]) -> FeedFault
        ensures { result ≡ long_fault (standing self.now) line.now }
    {
        let Some(stream) = &self.stream else {
            return self.spelling();
        };
        let Some(draft) = &stream.draft else {
            return self.spelling();
        };
        if goes_on_with_value(line) {
            return self.spelling();
        }
        match draft.attribute_fault(self.source.as_slice()) {
            Some(fault) => fault,
            None => self.spelling(),
        }
    }
}
