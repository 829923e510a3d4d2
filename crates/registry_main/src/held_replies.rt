//! Replies that are held back while a piece of a script is answered, so that one write takes those to all its lines.
ghost use Rattle.std.specs.Prelude.{◌≡◌, ◌≤◌, [], length, OnOk, OnErr};
ghost use Rattle.std.specs.Io.KnownBytes.{append_known, Appends};
ghost use Rattle.link_face.specs.Faults.{HasCause};
ghost use Rattle.registry_main.specs.Batch.{IsFrontWritten};

use arrayvec::ArrayVec;
use link_face::{Failed, Sink};

/// Replies that aren't written yet.
pub type HeldReplies = ArrayVec<u8, 8192>;

/// Writes what is held, if anything is.
#[tactic(auto, using(crate::proofs::Written::prefix_begins))]
pub fn write_held<K: Sink>(held: &mut HeldReplies, out: &mut K) -> Result<(), Failed>
    ensures ok { OnOk result (Appends (K.written out.old) (K.written out.new) held.old.items) }
    ensures empty { OnOk result (held.new.items ≡ []) }
    ensures err { OnErr result (IsFrontWritten (K.written out.old) held.old.items (K.written out.new)) }
    ensures cause { HasCause (K.faults out.old) (K.faults out.new) result }
{
    if held.is_empty() {
        return Ok(());
    }
    out.write(held.as_slice())?;
    held.clear();
    Ok(())
}

/// Holds a line back. What was held is written first where the two have no room together.
pub fn hold<K: Sink>(line: &[u8], held: &mut HeldReplies, out: &mut K) -> Result<(), Failed>
    requires { length line.now ≤ 8192 }
    ensures ok { OnOk result (Appends (append_known (K.written out.old) held.old.items) (append_known (K.written out.new) held.new.items) line.now) }
    ensures err { OnErr result (IsFrontWritten (append_known (K.written out.old) held.old.items) line.now (K.written out.new)) }
    ensures cause { HasCause (K.faults out.old) (K.faults out.new) result }
{
    if held.try_extend_from_slice(line).is_ok() {
        return Ok(());
    }
    write_held(held, out)?;
    let _fits = held.try_extend_from_slice(line);
    Ok(())
}
