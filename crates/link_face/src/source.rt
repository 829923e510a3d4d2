ghost use Rattle.std.specs.Prelude.{ℕ, List, Option, ⊤, ◌≡◌, ◌<◌, ◌^◌, length, IfOk};
ghost use Rattle.std.specs.Io.{ReadsAtMost};
ghost use Rattle.std.specs.Io.KnownBytes.{ReadConsumes, IsAtEnd};
ghost use Rattle.link_face.specs.Bytes.{ReadAppends, Spends};
ghost use Rattle.link_face.specs.Faults.{HasCause};

use crate::failed::Failed;

/// Where bytes come from.
///
/// A source tells what it holds where it can: `taken` and `left` are `None` where it does not.
pub trait Source {
    // the bytes read so far
    ghost taken: { Self → Option (List ℕ) };

    // the bytes that are still to come
    ghost left: { Self → Option (List ℕ) };

    // how many bytes it may still give
    ghost budget: { Self → ℕ };

    // it has come to its end, for good
    ghost has_ended: { Self → Type 0 };

    // how often it has failed
    ghost faults: { Self → ℕ };

    // what else a read leaves as it was; a source that is a sink too says here what it keeps of that
    ghost read_keeps: { Self → Self → Type 0 } = { λ _ _. ⊤ };

    /// Reads some bytes into the front of `buf` and says how many. `Ok(0)` is the end of the
    /// source, for good. With no budget left a read fails, also at the end.
    ///
    /// What stands in the rest of `buf`, and in all of it after a failed read, is not said.
    fn read(&mut self, buf: &mut [u8]) -> Result<usize, Failed>
        requires { 0 < length buf.old }
        ensures count { ReadsAtMost result buf.new }

        // Ok moves the bytes from the front of what is left to the end of what was taken.
        ensures left { ReadConsumes (left self.old) (left self.new) result buf.new }
        ensures taken { ReadAppends (taken self.old) (taken self.new) result buf.new }
        ensures budget { Spends (budget self.old) (budget self.new) result }
        ensures bounded { budget self.old < 2 ^ 64 }

        ensures end { IfOk result (λ n. n ≡ 0 → has_ended self.new) }
        ensures for_good { has_ended self.old → has_ended self.new × IfOk result (λ n. n ≡ 0) }

        ensures cause { HasCause (faults self.old) (faults self.new) result }
        ensures keeps { read_keeps self.old self.new };

    // at its end nothing is left
    ghost nothing_left: { (x : Self) → has_ended x → IsAtEnd (left x) };
}
