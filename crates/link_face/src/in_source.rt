ghost use Rattle.std.specs.Prelude.{◌≡◌, ◌<◌, ◌^◌, false, true, None, Ok, length, IfOk};
ghost use Rattle.std.specs.Io.{ReadsAtMost};
ghost use Rattle.std.specs.Io.KnownBytes.{ReadConsumes, IsAtEnd};
ghost use Rattle.link_face.specs.Bytes.{ReadAppends, Spends};
ghost use Rattle.link_face.specs.Faults.{HasCause};

use crate::failed::Failed;
use crate::source::Source;
use std::io::{ErrorKind, Read};
use std::marker::Model;

/// How many bytes an `InSource` reads at most: 2^40.
pub const BYTE_BUDGET: u64 = 1 << 40;

/// A source over a reader of std. It tells what is left where the reader does. The end is for good:
/// once the reader has told it, it is not asked again.
#[derive(Drop)]
pub struct InSource<R: Read> {
    reader: R,
    budget: u64,
    has_ended: bool,
    faults: u64,
}

impl<R: Read> Model for InSource<R> {
    ghost use Rattle.std.specs.Prelude.{◌≡◌, true};
    ghost use Rattle.std.specs.Io.KnownBytes.{IsAtEnd};
    ghost use Rattle.link_face.specs.InSource.{InSourceState};

    ghost Value = { InSourceState };

    ghost view = { λ s. record {
      left = R.remaining s.reader;
      budget = s.budget;
      has_ended = s.has_ended;
      faults = s.faults;
    } };

    ghost invariant = { λ s. s.has_ended ≡ true → IsAtEnd (R.remaining s.reader) };
}

impl<R: Read> InSource<R> {
    /// A source with the whole budget of `BYTE_BUDGET` bytes.
    pub fn new(reader: R) -> Self
        ensures left { result.left ≡ R.remaining reader }
        ensures budget { result.budget ≡ 2 ^ 40 }
        ensures has_ended { result.has_ended ≡ false }
        ensures faults { result.faults ≡ 0 }
    {
        Self::with_budget(reader, BYTE_BUDGET)
    }

    /// A source that gives at most `budget` bytes.
    pub fn with_budget(reader: R, budget: u64) -> Self
        ensures left { result.left ≡ R.remaining reader }
        ensures budget { result.budget ≡ budget }
        ensures has_ended { result.has_ended ≡ false }
        ensures faults { result.faults ≡ 0 }
    {
        Self {
            reader,
            budget,
            has_ended: false,
            faults: 0,
        }
    }

    /// How many reads failed.
    pub fn faults(&self) -> u64
        ensures { result ≡ self.now.faults }
    {
        self.faults
    }
}

// Reads once, and again where a signal interrupted the read.
fn read_uninterrupted<R: Read>(reader: &mut R, buf: &mut [u8]) -> Result<usize, Failed>
    ensures count { ReadsAtMost result buf.new }
    ensures left { ReadConsumes (R.remaining reader.old) (R.remaining reader.new) result buf.new }
{
    for _ in 0..u64::MAX {
        match reader.read(buf) {
            Ok(count) => return Ok(count),
            Err(e) if e.kind() == ErrorKind::Interrupted => {}
            Err(_) => return Err(Failed),
        }
    }
    Err(Failed)
}

impl<R: Read> Source for InSource<R> {
    ghost use Rattle.std.specs.Prelude.{◌≡◌, None, true};
    ghost use Rattle.std.specs.Io.KnownBytes.{IsAtEnd};

    ghost taken = { λ _. None };

    ghost left = { λ s. s.left };

    ghost budget = { λ s. s.budget };

    ghost has_ended = { λ s. (s.has_ended ≡ true) × IsAtEnd s.left };

    ghost faults = { λ s. s.faults };

    ghost nothing_left = { λ s ended. ended.1 };

    fn read(&mut self, buf: &mut [u8]) -> Result<usize, Failed>
        requires { 0 < length buf.old }
        ensures count { ReadsAtMost result buf.new }
        ensures left { ReadConsumes self.old.left self.new.left result buf.new }
        ensures taken { ReadAppends None None result buf.new }
        ensures budget { Spends self.old.budget self.new.budget result }
        ensures bounded { self.old.budget < 2 ^ 64 }
        ensures end { IfOk result (λ n. n ≡ 0 → (self.new.has_ended ≡ true) × IsAtEnd self.new.left) }
        ensures for_good { (self.old.has_ended ≡ true) × IsAtEnd self.old.left →
            ((self.new.has_ended ≡ true) × IsAtEnd self.new.left) × IfOk result (λ n. n ≡ 0) }
        ensures cause { HasCause self.old.faults self.new.faults result }

        // Once the end was told it is told again, while there is budget, and the reader isn't asked.
        ensures again { self.old.has_ended ≡ true → 0 < self.old.budget →
            (result ≡ Ok 0) × (self.new ≡ self.old) }
    {
        if self.budget > 0 {
            if self.has_ended {
                return Ok(0);
            }
            let most = buf.len().min(self.budget as usize);
            if let Ok(count) = read_uninterrupted(&mut self.reader, &mut buf[..most]) {
                self.budget -= count as u64;
                self.has_ended = count == 0;
                return Ok(count);
            }
        }
        self.faults = self.faults.saturating_add(1);
        Err(Failed)
    }
}
