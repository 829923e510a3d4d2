//! The pieces whose quarantine is over, line by line.
ghost use Rattle.std.specs.Prelude.{◌++◌, codes, OnOk, OnErr};
ghost use Rattle.std.specs.Io.KnownBytes.{append_known, Appends};
ghost use Rattle.link_face.specs.Faults.{HasCause};
ghost use Rattle.desk_text.specs.DueText.{due_count_text, due_piece_text, due_text};
ghost use Rattle.quarantine.specs.Due.{due_pieces};
ghost use Rattle.registry_main.specs.Batch.{IsFrontWritten};

use crate::answer_line::{AnswerLine, write_line};
use crate::held_replies::HeldReplies;
use desk_text::{write_due_count, write_due_piece};
use link_face::{Failed, Sink};
use piece_book::PieceBook;
use quarantine::{due, due_count};
use reg_entry::Piece;

/// Writes `due` and the count of the pieces.
fn write_count<K: Sink>(count: u32, held: &mut HeldReplies, out: &mut K) -> Result<(), Failed>
    ensures ok { OnOk result (Appends (append_known (K.written out.old) held.old.items) (append_known (K.written out.new) held.new.items) (due_count_text count ++ codes "\n")) }
    ensures err { OnErr result (IsFrontWritten (append_known (K.written out.old) held.old.items) (due_count_text count ++ codes "\n") (K.written out.new)) }
    ensures cause { HasCause (K.faults out.old) (K.faults out.new) result }
{
    let mut line = AnswerLine::new();
    write_due_count(count, &mut line);
    write_line(&mut line, held, out)
}

/// Writes the piece's range.
fn write_piece_range<K: Sink>(
    piece: &Piece,
    held: &mut HeldReplies,
    out: &mut K,
) -> Result<(), Failed>
    ensures ok { OnOk result (Appends (append_known (K.written out.old) held.old.items) (append_known (K.written out.new) held.new.items) (due_piece_text piece.now ++ codes "\n")) }
    ensures err { OnErr result (IsFrontWritten (append_known (K.written out.old) held.old.items) (due_piece_text piece.now ++ codes "\n") (K.written out.new)) }
    ensures cause { HasCause (K.faults out.old) (K.faults out.new) result }
{
    let mut line = AnswerLine::new();
    write_due_piece(piece, &mut line);
    write_line(&mut line, held, out)
}

/// Writes how many pieces are due on a day, and then each in a line of its own. No more is kept than is held.
pub fn write_due<K: Sink>(
    pieces: &PieceBook,
    day: u32,
    held: &mut HeldReplies,
    out: &mut K,
) -> Result<(), Failed>
    ensures ok { OnOk result (Appends (append_known (K.written out.old) held.old.items) (append_known (K.written out.new) held.new.items) (due_text (due_pieces pieces.now.partition day))) }
    ensures err { OnErr result (IsFrontWritten (append_known (K.written out.old) held.old.items) (due_text (due_pieces pieces.now.partition day)) (K.written out.new)) }
    ensures cause { HasCause (K.faults out.old) (K.faults out.new) result }
{
    write_count(due_count(pieces, day), held, out)?;
    for piece in due(pieces, day) {
        write_piece_range(&piece, held, out)?;
    }
    Ok(())
}
