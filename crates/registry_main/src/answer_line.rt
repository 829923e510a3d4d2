//! One line of an answer.
ghost use Rattle.std.specs.Prelude.{◌≤◌, ◌++◌, codes, OnOk, OnErr};
ghost use Rattle.std.specs.Io.KnownBytes.{append_known, Appends};
ghost use Rattle.arrayvec.specs.ArrayVec.{array_vec_len};
ghost use Rattle.link_face.specs.Faults.{HasCause};
ghost use Rattle.registry_main.specs.Batch.{IsFrontWritten};

use crate::held_replies::{HeldReplies, hold};
use arrayvec::ArrayVec;
use link_face::{Failed, Sink};

/// A line without its end, as the writers of desk_text leave it.
pub type AnswerLine = ArrayVec<u8, 256>;

/// Writes the line with its end behind what is held.
pub fn write_line<K: Sink>(
    line: &mut AnswerLine,
    held: &mut HeldReplies,
    out: &mut K,
) -> Result<(), Failed>
    requires { array_vec_len line.old ≤ 140 }
    ensures ok { OnOk result (Appends (append_known (K.written out.old) held.old.items) (append_known (K.written out.new) held.new.items) (line.old.items ++ codes "\n")) }
    ensures err { OnErr result (IsFrontWritten (append_known (K.written out.old) held.old.items) (line.old.items ++ codes "\n") (K.written out.new)) }
    ensures cause { HasCause (K.faults out.old) (K.faults out.new) result }
{
    line.push(b'\n');
    hold(line.as_slice(), held, out)
}
