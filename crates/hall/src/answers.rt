//! What a message is answered.
ghost use Rattle.std.specs.Prelude.{◌≡◌, IfOk, IsTrue};
ghost use Rattle.reg_entry.specs.declared.entry.Reply.TheVariants.{Refused as TheRefused};
ghost use Rattle.reg_entry.specs.declared.refusal.Refusal.TheVariants.{Malformed as TheMalformed};
ghost use Rattle.wire_http.specs.Reply.{is_reply_code};
ghost use Rattle.link_face.specs.Faults.{HasCause};
ghost use Rattle.hall.specs.Standing.{Standing};
ghost use Rattle.hall.specs.Backend.{LooksAt};
ghost use Rattle.hall.specs.Lookup.{answer_at_least, lookup_answer};
ghost use Rattle.hall.specs.Turn.{terms};
ghost use Rattle.hall.specs.Answer.{AnswersMessage};
ghost use Rattle.hall.specs.Written.{read_side};

use crate::ask::read_ask;
use crate::lookup::AtLeast;
use crate::reply::{refuse, tell_answer, tell_fault, tell_line};
use crate::{Ask, Backend, Fault, Lookup};
use board::Answer;
use delegated_ext::StatsLens;
use link_face::{Clock, Failed, Link};
use policy_table::Policy;
use rdap_json::RdapLens;
use reg_entry::{Refusal, Reply};
use reverse_zone::ZoneLens;
use std::alloc::Global;
use wire_http::Head;

/// Looks something up in a register of at least so many entries.
fn look_up<B: Backend>(
    alloc: Global,
    backend: &mut B,
    policy: &Policy,
    lookup: &Lookup,
    least: u64,
) -> Result<Answer, Fault>
    ensures looked { (before : Standing) → B.stands backend.old before → (after : Standing) × B.stands backend.new after
        × B.goes_on before.entries after.entries
        × LooksAt (B.rooms backend.old) (λ board answer. answer ≡ answer_at_least least board.register (lookup_answer policy.now lookup.now board.register))
        before result after }
    ensures code { IfOk result (λ answer. IsTrue (is_reply_code answer.status)) }
    ensures rooms { B.rooms backend.new ≡ B.rooms backend.old }
    ensures reference { B.reference backend.new ≡ B.reference backend.old }
{
    match lookup {
        Lookup::Rdap(ask) => {
            let lens = RdapLens { ask: *ask };
            backend.look(alloc, &AtLeast { least, lens })
        }
        Lookup::Stats => {
            let lens = StatsLens {
                registry: *policy.registry(),
            };
            backend.look(alloc, &AtLeast { least, lens })
        }
        Lookup::Zone(apex) => {
            let lens = ZoneLens {
                terms: *policy.zone(),
                apex: *apex,
            };
            backend.look(alloc, &AtLeast { least, lens })
        }
    }
}

/// The answer of the desk to a line that is no request.
fn malformed(place: u32) -> Reply
    ensures { result ≡ TheRefused (TheMalformed place) }
{
    Reply::Refused(Refusal::Malformed { place })
}

/// Answers the message of this head and body.
pub(crate) fn answer<L: Link, C: Clock, B: Backend>(
    alloc: Global,
    link: &mut L,
    head: &Head<'_>,
    body: &[u8],
    backend: &mut B,
    policy: &Policy,
    clock: &C,
) -> Result<(), Failed>
    ensures answered { (before : Standing) → B.stands backend.old before → (after : Standing) × B.stands backend.new after
        × AnswersMessage (terms (B.rooms backend.old) policy.now (C.states clock.now) B.goes_on B.may_fail) head.now body.now before result (L.written link.old) (L.written link.new) after }
    ensures rooms { B.rooms backend.new ≡ B.rooms backend.old }
    ensures reference { B.reference backend.new ≡ B.reference backend.old }
    ensures cause { HasCause (L.Source.faults link.old) (L.Source.faults link.new) result }
    ensures reading { read_side (L.taken link.new) (L.left link.new) (L.budget link.new) ≡ read_side (L.taken link.old) (L.left link.old) (L.budget link.old) }
    ensures end { L.has_ended link.old → L.has_ended link.new }
{
    match &read_ask(policy, head, body) {
        Ask::Refused { code, post } => refuse(link, head, *code, *post),
        Ask::Look { lookup, at_least } => match &look_up(
            alloc, backend, policy, lookup, *at_least,
        ) {
            Ok(answer) => tell_answer(link, head, answer),
            Err(fault) => tell_fault(link, head, *fault),
        },
        Ask::Submit { who, request } => match &backend.submit(policy, clock.day(), who, request) {
            Ok((reply, entries)) => tell_line(link, head, Some(*entries), reply),
            Err(fault) => tell_fault(link, head, *fault),
        },
        Ask::Unread { place } => tell_line(link, head, None, &malformed(*place)),
    }
}
