//! A mirror that is fed the change stream in any pieces.
ghost use Rattle.std.specs.Prelude.{◌≡◌, ◌≢◌, ◌≤◌, ◌+◌, ◌++◌, ◌∷◌, [], ℕ, List, length, false, true, None, Some, All, IfOk, IsTrue};
ghost use Rattle.arrayvec.specs.ArrayVec.{array_vec_len};
ghost use Rattle.rpsl_text.specs.Forms.{is_source};
ghost use Rattle.mirror_core.specs.Mirror.{new_mirror, is_at_rest, end_fault, passed, broken};
ghost use Rattle.mirror_core.specs.Line.{is_too_long, long_fault};
ghost use Rattle.mirror_core.specs.Fed.{IsFed, IsStill, holding};

use crate::FeedFault;
use crate::line_ends::first_line;
use crate::objects::Objects;
use crate::replica::Replica;
use arrayvec::ArrayVec;
use std::alloc::{AllocError, Global};
use std::marker::Model;

/// The bytes of a line that isn't whole. With the carriage return that may end it, a line has at most 1,025 bytes.
type Line = ArrayVec<u8, 1026>;

/// Of the source that it mirrors it holds each object of the operations that it was fed, the serial of the last of them, and of
/// what isn't whole yet one line and one object.
pub struct Mirror {
    replica: Replica,
    line: Line,
    fault: Option<FeedFault>,
}

impl Model for Mirror {
    ghost use Rattle.mirror_core.specs.Mirror.{PlainMirror};
    ghost use Rattle.mirror_core.specs.Replica.{mirror_with};
    ghost use Rattle.mirror_core.specs.Fed.{IsSound};

    ghost Value = { PlainMirror };

    ghost view = { λ m. mirror_with m.replica m.line.items m.fault };

    ghost invariant = { λ m. IsSound m.replica m.line.items m.fault };
}

/// All that it holds goes. It is written out, since whoever lets a mirror go would have to prove a derived one again.
impl Drop for Mirror {
    fn drop(self) {
        let Mirror {
            replica: _replica,
            line: _line,
            fault: _fault,
        } = self;
    }
}

fn append(piece: &[u8], line: &mut Line)
    requires room { length (line.old.items ++ piece.now) ≤ 1026 }
    ensures { line.new.items ≡ line.old.items ++ piece.now }
{
    let _fits = line.try_extend_from_slice(piece);
}

/// Whether a line that begins with so many bytes and these is too long, however it goes on. It has at most 1,024 bytes without
/// its end.
fn is_too_long(held: usize, piece: &[u8]) -> bool
    requires { held ≤ 1026 }
    ensures { (line : List ℕ) → length line ≡ held → is_too_long line ≡ false → result ≡ is_too_long (line ++ piece.now) }
{
    match piece {
        [] => false,
        [.., b'\r'] => held + piece.len() > 1025,
        _ => held + piece.len() > 1024,
    }
}

impl Mirror {
    /// A mirror of this source that was fed nothing.
    pub fn new(alloc: Global, source: &[u8]) -> Result<Mirror, AllocError>
        requires { IsTrue (is_source source.now) }
        ensures { IfOk result (λ m. m ≡ new_mirror source.now) }
    {
        let mut name = ArrayVec::new();
        let _fits = name.try_extend_from_slice(source);
        Ok(Mirror {
            replica: Replica::new(alloc, name),
            line: ArrayVec::new(),
            fault: None,
        })
    }

    /// So many bytes later.
    fn pass(&mut self, count: usize)
        ensures passed { self.new ≡ passed self.old count }
        ensures sound { IsStill self.old }
    {
        self.replica.pass(count);
    }

    /// The line is too long with these bytes, and so many more were fed.
    fn stop_long(&mut self, piece: &[u8], more: usize) -> FeedFault
        requires more { more ≤ 1 }
        ensures fault { result ≡ long_fault self.old (self.old.line ++ piece.now) }
        ensures stopped { self.new ≡ broken self.old (length self.old.line + length piece.now + more) result }
    {
        let fault = if self.line.is_empty() {
            self.replica.long_fault(piece)
        } else {
            self.replica.long_fault(self.line.as_slice())
        };
        self.replica.stop(self.line.len() + piece.len() + more);
        self.line.clear();
        self.fault = Some(fault);
        fault
    }

    /// The line has these bytes too.
    fn hold(&mut self, piece: &[u8])
        requires fault { self.old.fault ≡ None }
        requires short { is_too_long (self.old.line ++ piece.now) ≡ false }
        ensures { self.new ≡ holding self.old piece.now }
    {
        append(piece, &mut self.line);
    }

    /// The line that is held ends with LF.
    fn end_held(&mut self) -> Result<(), FeedFault>
        requires { self.old.fault ≡ None }
        ensures { IsFed self.old (10 ∷ []) self.new result }
    {
        let ended = self.replica.take_whole_line(self.line.as_slice());
        self.line.clear();
        match ended {
            Ok(()) => Ok(()),
            Err(fault) => {
                self.fault = Some(fault);
                Err(fault)
            }
        }
    }

    /// The line that ends with LF is this one.
    fn end_whole(&mut self, line: &[u8]) -> Result<(), FeedFault>
        requires fault { self.old.fault ≡ None }
        requires empty { self.old.line ≡ [] }
        ensures { IsFed (holding self.old line.now) (10 ∷ []) self.new result }
    {
        match self.replica.take_whole_line(line) {
            Ok(()) => Ok(()),
            Err(fault) => {
                self.fault = Some(fault);
                Err(fault)
            }
        }
    }

    /// The line ends with these bytes and LF.
    fn end_line(&mut self, piece: &[u8]) -> Result<(), FeedFault>
        requires fault { self.old.fault ≡ None }
        requires inside { All (λ b. b ≢ 10) piece.now }
        ensures { IsFed self.old (piece.now ++ 10 ∷ []) self.new result }
    {
        if is_too_long(self.line.len(), piece) {
            return Err(self.stop_long(piece, 1));
        }
        if self.line.is_empty() {
            return self.end_whole(piece);
        }
        self.hold(piece);
        self.end_held()
    }

    /// The line goes on with these bytes.
    fn go_on(&mut self, piece: &[u8]) -> Result<(), FeedFault>
        requires fault { self.old.fault ≡ None }
        requires inside { All (λ b. b ≢ 10) piece.now }
        ensures { IsFed self.old piece.now self.new result }
    {
        if is_too_long(self.line.len(), piece) {
            return Err(self.stop_long(piece, 0));
        }
        self.hold(piece);
        Ok(())
    }

    fn feed_lines(&mut self, bytes: &[u8]) -> Result<(), FeedFault>
        requires { self.old.fault ≡ None }
        ensures { IsFed self.old bytes.now self.new result }
    {
        let mut left = bytes;
        'lines: while let Some((piece, rest)) = first_line(left) {
            if let Err(fault) = self.end_line(piece) {
                self.pass(rest.len());
                return Err(fault);
            }
            left = rest;
        }
        self.go_on(left)
    }

    /// Feeds the mirror bytes of the change stream (NRTM version 3), in any pieces. After a fault it takes nothing more, and
    /// answers the same fault to every feed. Where memory is wanting, a front of the bytes was fed.
    pub fn feed(&mut self, bytes: &[u8]) -> Result<(), FeedFault>
        ensures { IsFed self.old bytes.now self.new result }
    {
        if let Some(fault) = self.fault {
            self.pass(bytes.len());
            return Err(fault);
        }
        self.feed_lines(bytes)
    }

    /// The serial of the last operation that was applied, or 0.
    pub fn serial(&self) -> u64
        ensures { result ≡ self.now.serial }
    {
        self.replica.serial()
    }

    /// Whether no line and no stream has begun that hasn't ended, and there is no fault.
    pub fn at_rest(&self) -> bool
        ensures { result ≡ is_at_rest self.now }
    {
        self.fault.is_none() && self.replica.is_between_streams() && self.line.is_empty()
    }

    pub fn fault(&self) -> Option<FeedFault>
        ensures { result ≡ self.now.fault }
    {
        self.fault
    }

    /// What is wrong where nothing more is fed: the fault, or that the mirror isn't at rest, at the place of the feed's end.
    pub fn end_fault(&self) -> Option<FeedFault>
        ensures { result ≡ end_fault self.now }
    {
        if self.fault.is_some() {
            return self.fault;
        }
        if self.at_rest() {
            return None;
        }
        let place = self.replica.place().saturating_add(self.line.len() as u64);
        Some(FeedFault::Spelling { place })
    }

    pub fn objects(&self) -> &Objects
        ensures { result.now ≡ self.now.objects }
    {
        self.replica.objects()
    }
}
