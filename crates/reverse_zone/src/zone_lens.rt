ghost use Rattle.std.specs.Prelude.{◌≡◌, ◌↔◌, true, false, IsTrue, IfOk};
ghost use Rattle.reverse_zone.specs.Apex.{IsApex, is_apex};
ghost use Rattle.reverse_zone.specs.Zone.{in_pool};
ghost use Rattle.reverse_zone.specs.ZoneAnswer.{zone_answer};
ghost use Rattle.wire_http.specs.ErrorBody.{error_text};

use crate::{Apex, in_pool, write_zone};
use arrayvec::ArrayVec;
use board::{Answer, Board, Body, Lens, Media};
use reg_entry::ZoneTerms;
use std::alloc::{AllocError, Global};
use wire_http::write_error;

/// Asks for the reverse zone of the apex, with what the policy says of all zones. Other nibbles than those of an apex have
/// no zone.
#[derive(Clone, Copy)]
pub struct ZoneLens {
    pub terms: ZoneTerms,
    pub apex: Apex,
}

fn is_apex(apex: Apex) -> bool
    ensures test { result ≡ is_apex apex }
    ensures relation { IsTrue result ↔ IsApex apex }
{
    match apex {
        Apex::Four(_) => true,
        Apex::Six(nibbles) => 0x200 <= nibbles && nibbles <= 0x3ff,
    }
}

/// Whether the register has the zone.
fn has_zone(board: &Board, apex: Apex) -> bool
    ensures zone { result ≡ in_pool board.now.register apex }
    ensures apex { result ≡ true → IsApex apex }
{
    // What every board keeps: its IPv6 addresses are of global unicast.
    board.is_whole();
    is_apex(apex) && in_pool(board, apex)
}

/// What is answered where there is no zone (RFC 9083 6).
fn not_found(alloc: Global) -> Result<Body, AllocError>
    ensures { IfOk result (λ body. body ≡ error_text 404 0 false) }
{
    let mut text = ArrayVec::new();
    write_error(404, 0, false, &mut text);
    let mut body = Body::new(alloc);
    body.append(text.as_slice())?;
    Ok(body)
}

impl Lens for ZoneLens {
    ghost answers = { λ lens board answer. answer ≡ zone_answer board.register lens.terms lens.apex };

    fn read(&self, alloc: Global, board: &Board) -> Result<Answer, AllocError> {
        let entries = board.entries();
        if !has_zone(board, self.apex) {
            return Ok(Answer {
                status: 404,
                media: Media::Json,
                body: not_found(alloc)?,
                entries,
            });
        }
        Ok(Answer {
            status: 200,
            media: Media::Plain,
            body: write_zone(alloc, board, &self.terms, self.apex)?,
            entries,
        })
    }
}
