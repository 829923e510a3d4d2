//! What a line is answered.
ghost use Rattle.std.specs.Prelude.{◌≤◌, OnOk, OnErr};
ghost use Rattle.std.specs.Io.KnownBytes.{append_known, Appends};
ghost use Rattle.arrayvec.specs.ArrayVec.{array_vec_len};
ghost use Rattle.link_face.specs.Faults.{HasCause};
ghost use Rattle.registry_main.specs.Answer.{answer_text};
ghost use Rattle.registry_main.specs.Batch.{IsFrontWritten};

use crate::answer_line::{AnswerLine, write_line};
use crate::due_lines::write_due;
use crate::held_replies::HeldReplies;
use crate::session::Session;
use link_face::{Failed, Sink};

/// The answer to a line. An entry is large, so what is told of it is its text.
#[derive(Clone, Copy)]
pub enum Answer {
    /// The line asks for nothing.
    Silent,
    /// One line, which stands where the answer was asked for.
    Told,
    /// The pieces whose quarantine is over are asked for.
    Due,
}

impl Answer {
    /// Writes the answer's lines behind what is held, each with its line end. What is told stands in the line, and what is due
    /// is asked of the session.
    pub fn write<K: Sink>(
        self,
        session: &Session,
        line: &mut AnswerLine,
        held: &mut HeldReplies,
        out: &mut K,
    ) -> Result<(), Failed>
        requires { array_vec_len line.old ≤ 140 }
        ensures ok { OnOk result (Appends (append_known (K.written out.old) held.old.items) (append_known (K.written out.new) held.new.items) (answer_text session.now line.old.items self)) }
        ensures err { OnErr result (IsFrontWritten (append_known (K.written out.old) held.old.items) (answer_text session.now line.old.items self) (K.written out.new)) }
        ensures cause { HasCause (K.faults out.old) (K.faults out.new) result }
    {
        match self {
            Answer::Silent => Ok(()),
            Answer::Told => write_line(line, held, out),
            Answer::Due => write_due(session.pieces(), session.due_day(), held, out),
        }
    }
}
