//! The entry that a request becomes where nothing is against it.
ghost use Rattle.std.specs.Prelude.{◌≡◌, None};
ghost use Rattle.num_range.specs.Number.{PlainNumber};
ghost use Rattle.reg_entry.specs.declared.request.Request.TheVariants.{Split};
ghost use Rattle.reg_entry.specs.Days.{days_later};
ghost use Rattle.reg_entry.specs.Decision.{until_for, proposed_entry};
ghost use Rattle.reg_entry.specs.Request.{IsSizedRequest};

use plain_register::PlainRegister;
use policy_table::Policy;
use reg_entry::{Entry, LAST_DATE, Name, Request};

/// So many days later, or the greatest day.
fn days_later(day: u32, days: u32) -> u32
    ensures { result ≡ days_later day days }
{
    day.saturating_add(days).min(LAST_DATE)
}

/// The day up to which the policy keeps a returned or transferred piece as it is.
fn until_for(policy: &Policy, request: &Request, day: u32) -> u32
    ensures { result ≡ until_for policy.now request.now day }
{
    match request {
        Request::Return { .. } => days_later(day, policy.quarantine_days()),
        Request::Transfer { .. } => days_later(day, policy.hold_days()),
        _ => 0,
    }
}

pub(crate) fn proposed_entry(
    register: &PlainRegister,
    policy: &Policy,
    day: u32,
    who: &Name,
    request: &Request,
) -> Entry
    requires { IsSizedRequest request.now }
    ensures entry { result ≡ proposed_entry register.now policy.now day who.now request.now }
    ensures split { (at : PlainNumber) → request.now ≡ Split at → result.card ≡ None }
{
    let day = register.entry_day(day);
    let until = until_for(policy, request, day);
    Entry {
        seq: register.entries() + 1,
        day,
        who: *who,
        request: *request,
        cover: register.cover_for(request, register.chosen_start(request)),
        card: register.card_for(request, day, until),
    }
}
