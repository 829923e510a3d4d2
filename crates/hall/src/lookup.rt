//! What is looked up.
ghost use Rattle.std.specs.Prelude.{◌≡◌, IfSome, IfNone, IfOk, nat_lt, false, [], ◌∷◌};
ghost use Rattle.wire_http.specs.ErrorBody.{error_text};
ghost use Rattle.hall.specs.Lookup.{Names, conflict_answer, answer_at_least};
ghost use Rattle.hall.specs.declared.lookup.Lookup.{Lookup as TheLookup};

use arrayvec::ArrayVec;
use board::{Answer, Board, Body, Lens, Media};
use rdap_query::RdapAsk;
use reverse_zone::Apex;
use std::alloc::{AllocError, Global};
use wire_http::write_error;

/// What is looked up.
#[derive(Clone, Copy)]
pub enum Lookup {
    /// A registration (RFC 9082 3.1).
    Rdap(RdapAsk),
    /// The statistics file.
    Stats,
    /// A reverse zone.
    Zone(Apex),
}

/// Asks of a register that has to have so many entries.
#[derive(Drop)]
pub(crate) struct AtLeast<L: Drop> {
    pub least: u64,
    pub lens: L,
}

/// What is answered by a register of fewer entries.
fn conflict(alloc: Global, entries: u64) -> Result<Answer, AllocError>
    ensures { IfOk result (λ answer. answer ≡ conflict_answer entries) }
{
    let mut text = ArrayVec::new();
    write_error(409, entries, false, &mut text);
    let mut body = Body::new(alloc);
    body.append(text.as_slice())?;
    Ok(Answer {
        status: 409,
        media: Media::Json,
        body,
        entries,
    })
}

impl<L: Lens + Drop> Lens for AtLeast<L> {
    ghost use Rattle.std.specs.Prelude.{◌≡◌, Bool, true, false, nat_lt};
    ghost use Rattle.hall.specs.AtLeast.{AnswersAtLeast};

    ghost answers = { λ lens board answer. AnswersAtLeast (L.answers lens.lens) (nat_lt board.register.entries lens.least) board answer };

    fn read(&self, alloc: Global, board: &Board) -> Result<Answer, AllocError> {
        let entries = board.entries();
        if entries < self.least {
            conflict(alloc, entries)
        } else {
            self.lens.read(alloc, board)
        }
    }
}
