//! The line that is being read, of which no more is kept than decides its answer.
ghost use Rattle.std.specs.Prelude.{◌≡◌, ◌++◌, [], take};
ghost use Rattle.registry_main.specs.LineBuffer.{HasNoNewline, IsAnsweredAs, LeadsAs};

use arrayvec::ArrayVec;
use std::marker::Model;

/// A line of 1,024 bytes, a carriage return, and one byte more, by which it is known to be too long.
const ROOM: usize = 1026;

/// The front of a line. An endless line costs no more than this.
#[derive(Drop)]
pub struct LineBuffer {
    bytes: ArrayVec<u8, ROOM>,
}

impl Model for LineBuffer {
    ghost use Rattle.std.specs.Prelude.{List, ℕ};
    ghost use Rattle.registry_main.specs.LineBuffer.{HasNoNewline};

    ghost Value = { List ℕ };

    ghost view = { λ l. l.bytes.items };

    ghost invariant = { λ l. HasNoNewline l.bytes.items };
}

// Adds as many of the bytes as there is room for.
fn keep_front(line: &mut ArrayVec<u8, ROOM>, bytes: &[u8])
    ensures { line.new.items ≡ take ROOM (line.old.items ++ bytes.now) }
{
    let count = line.remaining_capacity().min(bytes.len());
    line.try_extend_from_slice(&bytes[..count]).unwrap();
}

impl LineBuffer {
    pub fn new() -> Self
        ensures { result ≡ [] }
    {
        LineBuffer {
            bytes: ArrayVec::new(),
        }
    }

    /// The line goes on with these bytes.
    pub fn extend(&mut self, bytes: &[u8])
        requires { HasNoNewline bytes.now }
        ensures answered { IsAnsweredAs self.new (self.old ++ bytes.now) }
        ensures leads { LeadsAs self.new (self.old ++ bytes.now) }
        ensures line { HasNoNewline self.new }
    {
        keep_front(&mut self.bytes, bytes);
    }

    /// A new line begins.
    pub fn clear(&mut self)
        ensures { self.new ≡ [] }
    {
        self.bytes.clear();
    }

    /// What is kept of the line.
    pub fn bytes(&self) -> &[u8]
        ensures bytes { result.now ≡ self.now }
        ensures line { HasNoNewline self.now }
    {
        self.bytes.as_slice()
    }
}
