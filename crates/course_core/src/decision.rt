ghost use Rattle.std.specs.Prelude.{◌≡◌, None, IfNone};
ghost use Rattle.std.specs.Option.{option_or};
ghost use Rattle.num_range.specs.Number.{PlainNumber};
ghost use Rattle.reg_entry.specs.declared.request.Request.TheVariants.{Split};
ghost use Rattle.reg_entry.specs.declared.entry.Reply.TheVariants.{Accepted};
ghost use Rattle.reg_entry.specs.Decision.{decision, first_of, unknown_hostmaster, early_rules, policy_rules, late_refusal, refusal_of, proposed_entry, IfAccepted};
ghost use Rattle.reg_entry.specs.Next.{IsNextEntry};
ghost use Rattle.reg_entry.specs.Covers.{IsLeastCover};
ghost use Rattle.reg_entry.specs.Request.{IsSizedRequest};

use crate::policy_rules::policy_refusal;
use crate::proposal::proposed_entry;
use plain_register::PlainRegister;
use policy_table::Policy;
use reg_entry::{Entry, Name, Refusal, Reply, Request};
use reg_laws::next::accepted_may_come_next;

/// Why the request is refused on any day, or nothing.
fn first_refusal(
    register: &PlainRegister,
    policy: &Policy,
    who: &Name,
    request: &Request,
) -> Option<Refusal>
    ensures refusal { result ≡ option_or (unknown_hostmaster policy.now who.now)
        (option_or (first_of (early_rules register.now request.now)) (first_of (policy_rules register.now policy.now request.now))) }
    ensures sized { IfNone result (IsSizedRequest request.now) }
{
    if !policy.knows(who) {
        return Some(Refusal::UnknownHostmaster);
    }
    let early = register.early_refusal(request);
    if early.is_some() {
        return early;
    }
    policy_refusal(register, policy, request)
}

/// Why the entry can't be made on its day, or nothing.
fn late_refusal(register: &mut PlainRegister, e: &Entry) -> Option<Refusal>
    requires split { (at : PlainNumber) → e.now.request ≡ Split at → e.now.card ≡ None }
    ensures refusal { result ≡ late_refusal register.old e.now }
    ensures same { register.new ≡ register.old }
{
    register.late_refusal(&e.request, e.day, &e.cover, &e.card)
}

/// Decides a request under a policy, on a day of the clock. What is accepted may come next; where it delegates numbers it
/// covers the least free block of their size. The register stays as it is: beside it the pieces are written that there would
/// be, to count them.
#[tactic(auto, using(crate::proofs::Refusals::refused_before))]
pub(crate) fn decide(
    register: &mut PlainRegister,
    policy: &Policy,
    day: u32,
    who: &Name,
    request: &Request,
) -> Reply
    ensures same { register.new ≡ register.old }
    ensures decision { result ≡ decision register.old policy.now day who.now request.now }
    ensures accepted { refusal_of register.old policy.now day who.now request.now ≡ None
        → result ≡ Accepted (proposed_entry register.old policy.now day who.now request.now) }
    ensures next { IfAccepted result (IsNextEntry register.old) }
    ensures least { IfAccepted result (λ e. IsLeastCover register.old e.request e.cover) }
{
    if let Some(refusal) = first_refusal(register, policy, who, request) {
        return Reply::Refused(refusal);
    }
    let entry = proposed_entry(register, policy, day, who, request);
    // A law, for `next` and `least`, and what it asks of the register, the policy and the request.
    accepted_may_come_next();
    register.is_whole();
    policy.is_well_formed();
    request.has_ranges();
    match late_refusal(register, &entry) {
        Some(refusal) => Reply::Refused(refusal),
        None => Reply::Accepted(entry),
    }
}
