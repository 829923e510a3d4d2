ghost use Rattle.std.specs.Prelude.{ℕ, List, Option, ⊤, OnOk, OnErr};
ghost use Rattle.std.specs.Io.KnownBytes.{Appends};
ghost use Rattle.link_face.specs.Bytes.{AppendsPrefix};
ghost use Rattle.link_face.specs.Faults.{HasCause};

use crate::failed::Failed;

/// Where bytes go.
pub trait Sink {
    // the bytes written so far, where the sink tells them
    ghost written: { Self → Option (List ℕ) };

    // how often it has failed
    ghost faults: { Self → ℕ };

    // what else a write leaves as it was; a sink that is a source too says here what it keeps of that
    ghost write_keeps: { Self → Self → Type 0 } = { λ _ _. ⊤ };

    /// Writes all of `bytes`. A write that fails has written some front of them, maybe none.
    fn write(&mut self, bytes: &[u8]) -> Result<(), Failed>
        ensures ok { OnOk result (Appends (written self.old) (written self.new) bytes.now) }
        ensures err { OnErr result (AppendsPrefix (written self.old) (written self.new) bytes.now) }
        ensures cause { HasCause (faults self.old) (faults self.new) result }
        ensures keeps { write_keeps self.old self.new };
}
