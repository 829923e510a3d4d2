ghost use Rattle.std.specs.Prelude.{◌≡◌, false, IfOk};
ghost use Rattle.serde_json.specs.View.{view};
ghost use Rattle.serde_json.specs.Written.{has_float, compact_text};
ghost use Rattle.wire_http.specs.ErrorBody.{error_text};
ghost use Rattle.rdap_json.specs.Facts.{AreNetFacts};
ghost use Rattle.rdap_json.specs.Network.{network_tree};
ghost use Rattle.rdap_json.specs.RdapAnswer.{facts_round, help_tree, found_answer, rdap_answer};

use crate::found::facts_round;
use crate::members::Members;
use crate::{NetFacts, network_value};
use arrayvec::ArrayVec;
use board::{Answer, Board, Body, Lens, Media};
use num_range::Range;
use rdap_query::RdapAsk;
use serde_json::Value;
use std::alloc::{AllocError, Global};
use wire_http::write_error;

/// Asks for a registration of numbers, or for what is served.
#[derive(Clone, Copy)]
pub struct RdapLens {
    pub ask: RdapAsk,
}

/// What is answered where there is no registration (RFC 9083 6).
fn not_found(alloc: Global) -> Result<Body, AllocError>
    ensures { IfOk result (λ body. body ≡ error_text 404 0 false) }
{
    let mut text = ArrayVec::new();
    write_error(404, 0, false, &mut text);
    let mut body = Body::new(alloc);
    body.append(text.as_slice())?;
    Ok(body)
}

/// The compact text of a value without floats.
fn body_of(alloc: Global, value: &Value) -> Result<Body, AllocError>
    requires { has_float (view value.now) ≡ false }
    ensures { IfOk result (λ body. body ≡ compact_text (view value.now)) }
{
    let text = value.to_vec(alloc)?;
    let mut body = Body::new(alloc);
    body.append(text.as_slice())?;
    Ok(body)
}

/// What is served (RFC 9083 4.3, 7).
fn help_value(alloc: Global) -> Result<Value, AllocError>
    ensures { IfOk result (λ v. view v ≡ help_tree) }
{
    let mut notice = Members::new(alloc);
    notice.put_one_text("description", "RDAP lookups of this registry")?;
    notice.put_text("title", "Help")?;
    let mut members = Members::new(alloc);
    members.put_one("notices", notice.into_object())?;
    members.put_conformance()?;
    Ok(members.into_object())
}

fn help_body(alloc: Global) -> Result<Body, AllocError>
    ensures { IfOk result (λ body. body ≡ compact_text help_tree) }
{
    let help = help_value(alloc)?;
    body_of(alloc, &help)
}

/// The network of the facts.
fn network_body(alloc: Global, facts: &NetFacts) -> Result<Body, AllocError>
    requires { AreNetFacts facts.now }
    ensures { IfOk result (λ body. body ≡ compact_text (network_tree facts.now false)) }
{
    let network = network_value(alloc, facts, false)?;
    body_of(alloc, &network)
}

/// What is answered of the narrowest registration round the range.
fn network_answer(alloc: Global, board: &Board, range: &Range) -> Result<Answer, AllocError>
    ensures { IfOk result (λ a. a ≡ found_answer board.now.register.entries (facts_round board.now.register range.now)) }
{
    let entries = board.entries();
    let (status, body) = match facts_round(board, range) {
        Some(facts) => (200, network_body(alloc, &facts)?),
        None => (404, not_found(alloc)?),
    };
    Ok(Answer {
        status,
        media: Media::Json,
        body,
        entries,
    })
}

impl Lens for RdapLens {
    ghost answers = { λ lens board answer. answer ≡ rdap_answer board.register lens.ask };

    fn read(&self, alloc: Global, board: &Board) -> Result<Answer, AllocError> {
        match &self.ask {
            RdapAsk::Ip(range) => network_answer(alloc, board, range),
            RdapAsk::Autnum(n) => {
                let one = Range::between(n.space(), n.value(), n.value());
                network_answer(alloc, board, &one)
            }
            RdapAsk::Help => Ok(Answer {
                status: 200,
                media: Media::Json,
                body: help_body(alloc)?,
                entries: board.entries(),
            }),
        }
    }
}
