//! What a request becomes where nothing is against it.
ghost use Rattle.std.specs.Prelude.{◌≡◌, ℕ, List, None};
ghost use Rattle.num_range.specs.Number.{PlainNumber};
ghost use Rattle.reg_entry.specs.declared.request.Request.TheVariants.{Split};
ghost use Rattle.reg_entry.specs.Covers.{chosen_start};
ghost use Rattle.reg_entry.specs.Days.{days_later};
ghost use Rattle.reg_entry.specs.Decision.{entry_day, until_for, proposed_entry};
ghost use Rattle.board.specs.Starts.{MayStartAt};
ghost use Rattle.board.specs.Subject.{IsSubjectOf};
ghost use Rattle.reg_entry.specs.Request.{IsSizedRequest};

use board::{Board, Subject};
use fit_search::{amounts_are_sought, least_block};
use num_range::Range;
use policy_table::Policy;
use reg_entry::{Card, LAST_DATE, Request, clamped_day};

/// So many days later, or the greatest day.
fn days_later(day: u32, days: u32) -> u32
    ensures { result ≡ days_later day days }
{
    day.saturating_add(days).min(LAST_DATE)
}

/// The day of the next entry: no entry is older than the one before it.
fn entry_day(board: &Board, day: u32) -> u32
    ensures { result ≡ entry_day board.now.register day }
{
    clamped_day(day).max(board.last_day())
}

/// The day up to which the policy keeps a returned or transferred piece as it is.
fn until_for(policy: &Policy, request: &Request, day: u32) -> u32
    ensures { result ≡ until_for policy.now request.now day }
{
    match request {
        Request::Return { .. } => days_later(day, policy.quarantine_days()),
        Request::Transfer { .. } => days_later(day, policy.hold_days()),
        _ => 0,
    }
}

/// Where the block of a delegation starts. Nothing is sought for any other request.
fn chosen_start(board: &Board, request: &Request) -> Option<u128>
    requires { IsSizedRequest request.now }
    ensures start { result ≡ chosen_start board.now.register request.now }
    ensures may { MayStartAt request.now result }
{
    match request {
        Request::Delegate { space, amount, .. } => {
            amounts_are_sought();
            let block = least_block(board.pieces(), *space, space.amount_size(*amount))?;
            Some(block.first())
        }
        _ => None,
    }
}

/// What an entry would have, beside the request itself and who asks. An entry is large, so none is made before it is known
/// to be accepted.
#[derive(Clone, Copy)]
pub(crate) struct Proposal {
    pub seq: u64,
    pub day: u32,
    pub cover: Option<Range>,
    pub card: Option<Card>,
}

pub(crate) fn propose(
    board: &Board,
    policy: &Policy,
    day: u32,
    request: &Request,
    subject: &Subject,
) -> Proposal
    requires sized { IsSizedRequest request.now }
    requires subject { IsSubjectOf board.now.register request.now subject.now }
    ensures entry { (who : List ℕ) → record { seq = result.seq; day = result.day; who = who; request = request.now; cover = result.cover; card = result.card }
        ≡ proposed_entry board.now.register policy.now day who request.now }
    ensures split { (at : PlainNumber) → request.now ≡ Split at → result.card ≡ None }
{
    let day = entry_day(board, day);
    let until = until_for(policy, request, day);
    Proposal {
        seq: board.entries() + 1,
        day,
        cover: board.cover_for(request, subject, chosen_start(board, request)),
        card: board.card_for(request, subject, day, until),
    }
}
