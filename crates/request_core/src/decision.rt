ghost use Rattle.std.specs.Prelude.{◌≡◌, ℕ, None, IfNone, IfSome};
ghost use Rattle.reg_entry.specs.declared.entry.Reply.TheVariants.{Accepted, Refused};
ghost use Rattle.reg_entry.specs.Decision.{decision, refusal_of, proposed_entry, IfAccepted};
ghost use Rattle.reg_entry.specs.Next.{IsNextEntry};
ghost use Rattle.reg_entry.specs.Covers.{IsLeastCover};
ghost use Rattle.reg_entry.specs.Request.{IsSizedRequest};
ghost use Rattle.board.specs.Subject.{IsSubjectOf};
ghost use Rattle.request_core.specs.Undated.{undated_refusal};

use crate::policy_rules::rule_refusal;
use crate::proposal::propose;
use board::{Board, Subject};
use policy_table::Policy;
use reg_entry::{Entry, Name, Refusal, Reply, Request};
use reg_laws::next::accepted_may_come_next;

/// Why the request is refused whatever the day, or nothing.
#[tactic(auto, using(crate::proofs::Refusals::refused_whatever))]
pub fn undated_refusal(
    board: &Board,
    policy: &Policy,
    who: &Name,
    request: &Request,
    subject: &Subject,
) -> Option<Refusal>
    requires { IsSubjectOf board.now.register request.now subject.now }
    ensures refusal { result ≡ undated_refusal board.now.register policy.now who.now request.now }
    ensures decision { IfSome result (λ refusal. (day : ℕ) → decision board.now.register policy.now day who.now request.now ≡ Refused refusal) }
    ensures sized { IfNone result (IsSizedRequest request.now) }
{
    if !policy.knows(who) {
        return Some(Refusal::UnknownHostmaster);
    }
    rule_refusal(board, policy, request, subject)
}

/// Decides, on a day of the clock, a request that isn't refused whatever the day. It is a call of its own, so that a refusal
/// before has no entry to make room for.
pub fn decide_on_day(
    board: &Board,
    policy: &Policy,
    day: u32,
    who: &Name,
    request: &Request,
    subject: &Subject,
) -> Reply
    requires subject { IsSubjectOf board.now.register request.now subject.now }
    requires sized { IsSizedRequest request.now }
    requires unopposed { undated_refusal board.now.register policy.now who.now request.now ≡ None }
    ensures decision { result ≡ decision board.now.register policy.now day who.now request.now }
    ensures accepted { refusal_of board.now.register policy.now day who.now request.now ≡ None
        → result ≡ Accepted (proposed_entry board.now.register policy.now day who.now request.now) }
    ensures next { IfAccepted result (IsNextEntry board.now.register) }
    ensures least { IfAccepted result (λ e. IsLeastCover board.now.register e.request e.cover) }
{
    let proposal = propose(board, policy, day, request, subject);
    // A law, for `next` and `least`, and what it asks of the board, the policy and the request.
    accepted_may_come_next();
    board.is_whole();
    policy.is_well_formed();
    request.has_ranges();
    let (cover, card) = (&proposal.cover, &proposal.card);
    let late = board.late_refusal(request, subject, proposal.day, cover, card);
    if let Some(refusal) = late {
        return Reply::Refused(refusal);
    }
    Reply::Accepted(Entry {
        seq: proposal.seq,
        day: proposal.day,
        who: *who,
        request: *request,
        cover: proposal.cover,
        card: proposal.card,
    })
}

/// Decides a request under a policy, on a day of the clock. What is accepted may come next; where it delegates numbers it
/// covers the least free block of their size.
#[tactic(auto, using(crate::proofs::Refusals::refused_before))]
pub fn decide(board: &Board, policy: &Policy, day: u32, who: &Name, request: &Request) -> Reply
    ensures decision { result ≡ decision board.now.register policy.now day who.now request.now }
    ensures accepted { refusal_of board.now.register policy.now day who.now request.now ≡ None
        → result ≡ Accepted (proposed_entry board.now.register policy.now day who.now request.now) }
    ensures next { IfAccepted result (IsNextEntry board.now.register) }
    ensures least { IfAccepted result (λ e. IsLeastCover board.now.register e.request e.cover) }
{
    let subject = board.subject(request);
    if let Some(refusal) = undated_refusal(board, policy, who, request, &subject) {
        return Reply::Refused(refusal);
    }
    decide_on_day(board, policy, day, who, request, &subject)
}
