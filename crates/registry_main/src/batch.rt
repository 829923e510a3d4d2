//! A script, read in pieces and answered line by line.
ghost use Rattle.std.specs.Prelude.{◌≡◌, ◌≢◌, ◌≤◌, ◌++◌, ℕ, List, [], ◌∷◌, Err, OnOk, OnErr, MatchOption};
ghost use Rattle.std.specs.Io.KnownBytes.{append_known, Appends, Keeps, IsAtEnd};
ghost use Rattle.std.specs.Str.Lines.{strip_carriage_return};
ghost use Rattle.link_face.specs.Faults.{HasCause, HasRisen};
ghost use Rattle.registry_main.specs.Session.{answered};
ghost use Rattle.registry_main.specs.LineBuffer.{HasNoNewline};
ghost use Rattle.registry_main.specs.Batch.{with_replies, with_all_replies, BeginsWith, IsFrontWritten, IsUpToDate, known};
ghost use Rattle.registry_main.specs.declared.batch.Stop.TheVariants.{Read, Write};

use crate::answer_line::AnswerLine;
use crate::held_replies::{HeldReplies, write_held};
use crate::line_buffer::LineBuffer;
use crate::session::Session;
use desk_lang::parted_at;
use link_face::{Failed, Sink, Source};

/// How many bytes are read at once.
pub const PIECE: usize = 8192;

/// Why a script isn't answered to its end.
#[derive(Clone, Copy)]
pub enum Stop {
    Read,
    Write,
}

/// The line without the one carriage return at its end.
pub fn without_return(line: &[u8]) -> &[u8]
    ensures { result.now ≡ strip_carriage_return line.now }
{
    match line {
        [front @ .., b'\r'] => front,
        _ => line,
    }
}

/// Answers one line, which is handed in without its line end.
fn answer_line<K: Sink>(
    session: &mut Session,
    text: &[u8],
    held: &mut HeldReplies,
    out: &mut K,
) -> Result<(), Failed>
    ensures ok { OnOk result (Appends (append_known (K.written out.old) held.old.items) (append_known (K.written out.new) held.new.items) (answered session.old text.now).text) }
    ensures session { OnOk result (session.new ≡ (answered session.old text.now).session) }
    ensures err { OnErr result (IsFrontWritten (append_known (K.written out.old) held.old.items) (answered session.old text.now).text (K.written out.new)) }
    ensures cause { HasCause (K.faults out.old) (K.faults out.new) result }
{
    let mut line = AnswerLine::new();
    let answer = session.answer(text, &mut line);
    answer.write(session, &mut line, held, out)
}

/// Answers the line that is kept, whose end has come, and begins the next.
fn end_line<K: Sink>(
    session: &mut Session,
    line: &mut LineBuffer,
    held: &mut HeldReplies,
    out: &mut K,
) -> Result<(), Failed>
    ensures ok { OnOk result ((tail : List ℕ) →
        Keeps (with_replies (append_known (K.written out.old) held.old.items) session.old (line.old ++ 10 ∷ tail)) (with_replies (append_known (K.written out.new) held.new.items) session.new tail)) }
    ensures empty { OnOk result (line.new ≡ []) }
    ensures err { OnErr result ((tail : List ℕ) →
        BeginsWith (with_replies (append_known (K.written out.old) held.old.items) session.old (line.old ++ 10 ∷ tail)) (K.written out.new)) }
    ensures cause { HasCause (K.faults out.old) (K.faults out.new) result }
{
    answer_line(session, without_return(line.bytes()), held, out)?;
    line.clear();
    Ok(())
}

/// What stands before and behind the first newline.
pub fn part_at_newline(text: &[u8]) -> Option<(&[u8], &[u8])>
    ensures { MatchOption result (HasNoNewline text.now)
        (λ parts. HasNoNewline parts.0.now × (text.now ≡ parts.0.now ++ 10 ∷ parts.1.now)) }
{
    parted_at(b'\n', text)
}

/// Answers each line that ends in a piece of the script, and keeps what comes behind the last line end.
fn answer_lines<K: Sink>(
    session: &mut Session,
    line: &mut LineBuffer,
    piece: &[u8],
    held: &mut HeldReplies,
    out: &mut K,
) -> Result<(), Failed>
    ensures ok { OnOk result ((tail : List ℕ) →
        Keeps (with_replies (append_known (K.written out.old) held.old.items) session.old (line.old ++ (piece.now ++ tail))) (with_replies (append_known (K.written out.new) held.new.items) session.new (line.new ++ tail))) }
    ensures line { OnOk result (HasNoNewline line.new) }
    ensures err { OnErr result ((tail : List ℕ) →
        BeginsWith (with_replies (append_known (K.written out.old) held.old.items) session.old (line.old ++ (piece.now ++ tail))) (K.written out.new)) }
    ensures cause { HasCause (K.faults out.old) (K.faults out.new) result }
{
    let mut rest = piece;
    'lines: while let Some((front, behind)) = part_at_newline(rest) {
        line.extend(front);
        end_line(session, line, held, out)?;
        rest = behind;
    }
    line.extend(rest);
    Ok(())
}

/// Answers each line that ends in a piece of the script, and keeps what comes behind the last line end. The replies are written
/// before this returns, in as few writes as they fit into.
fn answer_piece<K: Sink>(
    session: &mut Session,
    line: &mut LineBuffer,
    piece: &[u8],
    out: &mut K,
) -> Result<(), Failed>
    ensures ok { OnOk result ((tail : List ℕ) →
        Keeps (with_replies (K.written out.old) session.old (line.old ++ (piece.now ++ tail))) (with_replies (K.written out.new) session.new (line.new ++ tail))) }
    ensures line { OnOk result (HasNoNewline line.new) }
    ensures err { OnErr result ((tail : List ℕ) →
        BeginsWith (with_replies (K.written out.old) session.old (line.old ++ (piece.now ++ tail))) (K.written out.new)) }
    ensures cause { HasCause (K.faults out.old) (K.faults out.new) result }
{
    let mut held = HeldReplies::new();
    answer_lines(session, line, piece, &mut held, out)?;
    write_held(&mut held, out)
}

/// Answers the last line, where it has no line end.
fn end_script<K: Sink>(session: &mut Session, line: &LineBuffer, out: &mut K) -> Result<(), Failed>
    ensures ok { OnOk result (Keeps (with_replies (K.written out.old) session.old line.now) (K.written out.new)) }
    ensures err { OnErr result (BeginsWith (with_replies (K.written out.old) session.old line.now) (K.written out.new)) }
    ensures cause { HasCause (K.faults out.old) (K.faults out.new) result }
{
    let text = line.bytes();
    if text.is_empty() {
        return Ok(());
    }
    let mut held = HeldReplies::new();
    answer_line(session, text, &mut held, out)?;
    write_held(&mut held, out)
}

/// Answers a script up to its end. The answers to the lines that have come are written before the next read.
pub fn answer_script<T: Source, K: Sink>(
    session: &mut Session,
    script: &mut T,
    out: &mut K,
) -> Result<(), Stop>
    ensures ok { OnOk result (Keeps (with_all_replies (K.written out.old) session.old [] (T.left script.old)) (K.written out.new)) }
    ensures end { OnOk result (IsAtEnd (T.left script.new)) }
    ensures ended { OnOk result (T.has_ended script.new) }
    ensures err { OnErr result (BeginsWith (with_all_replies (K.written out.old) session.old [] (T.left script.old)) (K.written out.new)) }
    ensures up_to_date { result ≡ Err Read → IsUpToDate session.old
        (known (T.taken script.old) (T.left script.old) (K.written out.old)) (known (T.taken script.new) (T.left script.new) (K.written out.new)) }

    // A fault of a read or a write ends the script, and is what is answered.
    ensures read { result ≡ Err Read → HasRisen (T.faults script.old) (T.faults script.new) }
    ensures read_told { result ≢ Err Read → T.faults script.new ≡ T.faults script.old }
    ensures write { result ≡ Err Write → HasRisen (K.faults out.old) (K.faults out.new) }
    ensures write_told { result ≢ Err Write → K.faults out.new ≡ K.faults out.old }
{
    let mut piece = [0; PIECE];
    let mut line = LineBuffer::new();
    'pieces: loop {
        match script.read(&mut piece) {
            Err(_) => return Err(Stop::Read),
            Ok(0) => break,
            Ok(count) => {
                if let Err(Failed) = answer_piece(session, &mut line, &piece[..count], out) {
                    return Err(Stop::Write);
                }
            }
        }
    }
    match end_script(session, &line, out) {
        Ok(()) => Ok(()),
        Err(Failed) => Err(Stop::Write),
    }
}
