ghost use Rattle.std.specs.Prelude.{◌≡◌, IfOk};
ghost use Rattle.nrtm_stream.specs.Answer.{asks_for_newer, are_kept, between_text, stream_answer, nrtm_answer};

use crate::Ask;
use crate::source::source_of;
use crate::stream::{append_not_kept, append_stream};
use board::{Answer, Board, Body, Lens, Media};
use reg_entry::Name;
use std::alloc::{AllocError, Global};

/// Asks for the operations of these serials, as a stream under the registry's name. Where not all are kept the answer is one
/// line that says so.
#[derive(Clone, Copy)]
pub struct NrtmLens {
    pub ask: Ask,
    pub registry: Name,
}

/// Whether the first is at most the last, and both are kept.
fn are_kept(board: &Board, first: u64, last: u64) -> bool
    ensures { result ≡ are_kept board.now first last }
{
    let (first_kept, last_kept) = board.kept();
    first <= last
        && (first_kept <= first && first <= last_kept)
        && (first_kept <= last && last <= last_kept)
}

fn between_text(
    alloc: Global,
    board: &Board,
    source: &[u8],
    first: u64,
    last: u64,
) -> Result<Body, AllocError>
    ensures { IfOk result (λ body. body ≡ between_text board.now source.now first last) }
{
    let mut body = Body::new(alloc);
    if are_kept(board, first, last) {
        append_stream(board, source, first, last, &mut body)?;
    } else {
        append_not_kept(board, first, last, &mut body)?;
    }
    Ok(body)
}

/// Whether all behind the register's last operation is asked for.
fn asks_for_newer(board: &Board, ask: Ask) -> bool
    ensures { result ≡ asks_for_newer board.now ask }
{
    let (_, last_kept) = board.kept();
    ask.last.is_none() && last_kept.checked_add(1) == Some(ask.first)
}

fn stream_answer(alloc: Global, board: &Board, source: &[u8], ask: Ask) -> Result<Body, AllocError>
    ensures { IfOk result (λ body. body ≡ stream_answer board.now source.now ask) }
{
    if asks_for_newer(board, ask) {
        let mut body = Body::new(alloc);
        body.append(b"% no newer operations\n")?;
        return Ok(body);
    }
    let (_, last_kept) = board.kept();
    let last = ask.last.unwrap_or(last_kept);
    between_text(alloc, board, source, ask.first, last)
}

impl Lens for NrtmLens {
    ghost answers = { λ lens board answer. answer ≡ nrtm_answer board lens.ask lens.registry };

    fn read(&self, alloc: Global, board: &Board) -> Result<Answer, AllocError> {
        let source = source_of(&self.registry);
        Ok(Answer {
            status: 200,
            media: Media::Plain,
            body: stream_answer(alloc, board, source.as_slice(), self.ask)?,
            entries: board.entries(),
        })
    }
}
