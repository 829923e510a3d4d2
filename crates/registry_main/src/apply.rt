//! A script, read in pieces and followed line by line, where nobody wants its answers.
ghost use Rattle.std.specs.Prelude.{◌≡◌, ◌++◌, ℕ, List, [], ◌∷◌, OnOk};
ghost use Rattle.std.specs.Io.KnownBytes.{IsAtEnd};
ghost use Rattle.link_face.specs.Faults.{HasCause};
ghost use Rattle.registry_main.specs.Session.{answered, after_text};
ghost use Rattle.registry_main.specs.LineBuffer.{HasNoNewline};
ghost use Rattle.registry_main.specs.Published.{IsAfterScript};

use crate::batch::{PIECE, part_at_newline, without_return};
use crate::line_buffer::LineBuffer;
use crate::session::Session;
use link_face::{Failed, Source};

/// Does what one line asks for, which is handed in without its line end.
fn apply_line(session: &mut Session, text: &[u8])
    ensures { session.new ≡ (answered session.old text.now).session }
{
    session.take(text);
}

/// Applies the line that is kept, whose end has come, and begins the next.
fn end_line(session: &mut Session, line: &mut LineBuffer)
    ensures session { (tail : List ℕ) → after_text session.old (line.old ++ 10 ∷ tail) ≡ after_text session.new tail }
    ensures empty { line.new ≡ [] }
{
    apply_line(session, without_return(line.bytes()));
    line.clear();
}

/// Applies each line that ends in a piece of the script, and keeps what comes behind the last line end.
fn apply_lines(session: &mut Session, line: &mut LineBuffer, piece: &[u8])
    ensures session { (tail : List ℕ) → after_text session.old (line.old ++ (piece.now ++ tail)) ≡ after_text session.new (line.new ++ tail) }
    ensures line { HasNoNewline line.new }
{
    let mut rest = piece;
    'lines: while let Some((front, behind)) = part_at_newline(rest) {
        line.extend(front);
        end_line(session, line);
        rest = behind;
    }
    line.extend(rest);
}

/// Applies the last line, where it has no line end.
fn end_script(session: &mut Session, line: &LineBuffer)
    ensures { after_text session.old line.now ≡ session.new }
{
    let text = line.bytes();
    if !text.is_empty() {
        apply_line(session, text);
    }
}

/// Applies the lines of a script up to its end.
pub fn apply_script<T: Source>(session: &mut Session, script: &mut T) -> Result<(), Failed>
    ensures session { OnOk result (IsAfterScript session.old (T.left script.old) session.new) }
    ensures end { OnOk result (IsAtEnd (T.left script.new)) }
    ensures ended { OnOk result (T.has_ended script.new) }
    ensures cause { HasCause (T.faults script.old) (T.faults script.new) result }
{
    let mut piece = [0; PIECE];
    let mut line = LineBuffer::new();
    'pieces: loop {
        match script.read(&mut piece)? {
            0 => break,
            count => apply_lines(session, &mut line, &piece[..count]),
        }
    }
    end_script(session, &line);
    Ok(())
}
