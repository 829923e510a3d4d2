ghost use Rattle.std.specs.Prelude.{◌≡◌, ◌<◌, ◌+◌, ◌^◌, [], Some, length};

use crate::failed::Failed;
use crate::source::Source;
use std::marker::Model;

/// A source over bytes in memory, which never fails. A `FailingSource` is one that does.
#[derive(Drop)]
pub struct MemSource<'a> {
    bytes: &'a [u8],
    at: usize,
    piece: usize,
}

impl<'a> Model for MemSource<'a> {
    ghost use Rattle.std.specs.Prelude.{◌≤◌, ◌<◌, length, take, drop};
    ghost use Rattle.link_face.specs.MemSource.{MemSourceState};

    ghost Value = { MemSourceState };

    ghost view = { λ s. record { taken = take s.at s.bytes.now; left = drop s.at s.bytes.now } };

    ghost invariant = { λ s. (s.at ≤ length s.bytes.now) × (0 < s.piece) };
}

impl<'a> MemSource<'a> {
    /// A source that gives as much in each read as there is room for.
    pub fn new(bytes: &'a [u8]) -> Self
        ensures taken { result.taken ≡ [] }
        ensures left { result.left ≡ bytes.now }
    {
        Self::in_pieces(bytes, usize::MAX)
    }

    /// A source that gives at most `piece` bytes in each read.
    pub fn in_pieces(bytes: &'a [u8], piece: usize) -> Self
        requires { 0 < piece }
        ensures taken { result.taken ≡ [] }
        ensures left { result.left ≡ bytes.now }
    {
        Self {
            bytes,
            at: 0,
            piece,
        }
    }

    /// What is left to be read.
    pub fn left(&self) -> &[u8]
        ensures { result.now ≡ self.now.left }
    {
        &self.bytes[self.at..]
    }

    /// Tells callers what every source in memory keeps: its budget is a number of 64 bits.
    pub fn is_bounded(&self)
        ensures { length self.now.left + 1 < 2 ^ 64 }
    {
        let _ = &self.bytes[self.at..];
    }
}

// Its count of faults is 0 for good, which rules out each error of a caller that has its cause here.
impl Source for MemSource<'_> {
    ghost use Rattle.std.specs.Prelude.{◌≡◌, ◌+◌, [], Some, length};

    ghost taken = { λ s. Some s.taken };

    ghost left = { λ s. Some s.left };

    // One more than the bytes, so that the end can be told.
    ghost budget = { λ s. length s.left + 1 };

    ghost has_ended = { λ s. s.left ≡ [] };

    ghost faults = { λ _. 0 };

    ghost nothing_left = { λ s ended. ended };

    fn read(&mut self, buf: &mut [u8]) -> Result<usize, Failed> {
        let left = &self.bytes[self.at..];
        let count = left.len().min(buf.len()).min(self.piece);
        buf[..count].copy_from_slice(&left[..count]);
        self.at += count;
        Ok(count)
    }
}
