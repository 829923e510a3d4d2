//! Whether the policy allows a request.
ghost use Rattle.std.specs.Prelude.{◌≡◌, ◌≤◌, ◌-◌, ◌*◌, ◌/◌, ◌^◌, min, true, IfNone, IfSome};
ghost use Rattle.num_range.specs.Range.{size_of};
ghost use Rattle.reg_entry.specs.Covers.{first_number};
ghost use Rattle.reg_entry.specs.Policy.{PlainRows, row_in, policy_row, lists_kind, IsRowOf};
ghost use Rattle.reg_entry.specs.Register.{piece_of};
ghost use Rattle.reg_entry.specs.Request.{has_size, status_of, IsSizedRequest};
ghost use Rattle.reg_entry.specs.Decision.{first_of, on_piece, amount_out_of_policy, kind_left_out, over_cap, under_used, delegate_rules, transferred_size, transfer_rules, policy_rules};

use num_range::{Range, Space};
use plain_register::PlainRegister;
use policy_table::Policy;
use reg_entry::{Delegation, Handle, Kind, Piece, Refusal, Request, Row, Status};
use reg_laws::holdings::holdings_are_bounded;
use reg_laws::usage::use_is_bounded;

fn amount_out_of_policy(row: &Row, amount: u32) -> Option<Refusal>
    ensures refusal { result ≡ amount_out_of_policy row.now amount }
    ensures within { IfNone result ((row.now.least ≤ amount) × (amount ≤ row.now.most)) }
{
    let (least, most) = (row.least, row.most);
    Refusal::LengthOutOfPolicy { least, most }.when(amount < least || most < amount)
}

/// Whether the row lists holders of this kind.
fn lists_kind(row: &Row, kind: Kind) -> bool
    ensures { result ≡ lists_kind row.now kind }
{
    match kind {
        Kind::Lir => row.lir,
        Kind::EndUser => row.enduser,
    }
}

fn kind_left_out(register: &PlainRegister, row: &Row, handle: &Handle) -> Option<Refusal>
    ensures { result ≡ kind_left_out register.now row.now handle.now }
{
    let kind = register.holder_named(handle)?.kind;
    Refusal::HolderKind { kind }.when(!lists_kind(row, kind))
}

/// The holder would hold too many numbers of the space, with so many more.
fn over_cap(
    register: &PlainRegister,
    row: &Row,
    space: Space,
    handle: &Handle,
    more: u128,
) -> Option<Refusal>
    requires { more ≤ 2 ^ 126 }
    ensures { result ≡ over_cap register.now row.now space handle.now more }
{
    // A law: the sum is a number of the type.
    holdings_are_bounded();
    register.is_whole();
    let number = register.by_handle(handle)?;
    let held = register.held(number, space) + more;
    let cap = row.cap;
    Refusal::OverCap { held, cap }.when(cap < held)
}

/// So many hundredths of an amount, rounded down, or the greatest number of the type where there would be more.
#[tactic(auto, using(crate::proofs::Hundredths::hundredths_are))]
fn hundredths(amount: u128, percent: u32) -> u128
    ensures { result ≡ min (amount * percent / 100) (2 ^ 128 - 1) }
{
    let percent = u128::from(percent);
    let rest = (amount % 100) * percent / 100;
    (amount / 100).saturating_mul(percent).saturating_add(rest)
}

/// Too few of the holder's allocated numbers are sub-assigned.
fn under_used(register: &PlainRegister, row: &Row, space: Space, handle: &Handle) -> Option<Refusal>
    ensures { result ≡ under_used register.now row.now space handle.now }
{
    // Laws: what is used is less than the greatest number of the type.
    holdings_are_bounded();
    use_is_bounded();
    register.is_whole();
    let number = register.by_handle(handle)?;
    let used = register.used(number, space);
    let held = register.allocated(number, space);
    Refusal::UnderUsed { used, held }.when(0 < held && used < hundredths(held, row.percent))
}

/// What is against a delegation by the row of its space and status.
fn row_refusal(
    register: &PlainRegister,
    row: &Row,
    space: Space,
    amount: u32,
    status: Delegation,
    handle: &Handle,
) -> Option<Refusal>
    requires { IsRowOf space row.now }
    ensures refusal { result ≡ first_of (delegate_rules register.now row.now space amount (status_of status) handle.now) }
    ensures sized { IfNone result (has_size space amount ≡ true) }
{
    let amount_refusal = amount_out_of_policy(row, amount);
    if amount_refusal.is_some() {
        return amount_refusal;
    }
    let size = space.amount_size(amount);
    let refusal = kind_left_out(register, row, handle).or_else(|| over_cap(
        register, row, space, handle, size,
    ));
    match status {
        Delegation::Allocate => refusal.or_else(|| under_used(register, row, space, handle)),
        Delegation::Assign => refusal,
    }
}

/// The kind of delegation whose row is that of a piece's status.
fn delegation_of(status: Status) -> Delegation
    ensures { (rows : PlainRows) → row_in rows (status_of result) ≡ row_in rows status }
{
    match status {
        Status::Assigned => Delegation::Assign,
        _ => Delegation::Allocate,
    }
}

/// The piece that holds the range's first number.
#[tactic(auto, using(crate::proofs::PieceSizes::size_bound))]
fn piece_of(register: &PlainRegister, range: &Range) -> Option<Piece>
    ensures piece { result ≡ piece_of register.now.pool (first_number range.now) }
    ensures size { IfSome result (λ piece. size_of piece.range ≤ 2 ^ 126) }
{
    register.piece_of(range.first_number())
}

/// What a transfer adds to what the new holder holds: nothing, where it holds the piece already.
fn transferred_size(register: &PlainRegister, piece: &Piece, to: &Handle) -> u128
    requires { size_of piece.now.range ≤ 2 ^ 126 }
    ensures size { result ≡ transferred_size register.now piece.now to.now }
    ensures bound { result ≤ 2 ^ 126 }
{
    if piece.card.holder == register.by_handle(to) {
        0
    } else {
        piece.range.size()
    }
}

/// What is against a transfer of a range by the row of its space and of the piece's status.
fn transfer_refusal(
    register: &PlainRegister,
    policy: &Policy,
    range: &Range,
    to: &Handle,
) -> Option<Refusal>
    ensures { result ≡ on_piece register.now (first_number range.now) (transfer_rules register.now policy.now range.now.space to.now) }
{
    let piece = piece_of(register, range)?;
    let space = range.space();
    let row = policy.row(space, delegation_of(piece.card.status));
    let kind_refusal = kind_left_out(register, &row, to);
    if kind_refusal.is_some() {
        return kind_refusal;
    }
    let more = transferred_size(register, &piece, to);
    over_cap(register, &row, space, to, more)
}

/// What the policy allows of a kind of delegation of a space.
#[tactic(auto, using(crate::proofs::PolicyRows::row_allows))]
fn row_of(policy: &Policy, space: Space, delegation: Delegation) -> Row
    ensures row { result ≡ policy_row policy.now space (status_of delegation) }
    ensures allowed { IsRowOf space result }
{
    policy.row(space, delegation)
}

/// Why the policy doesn't allow the request, or nothing.
pub(crate) fn policy_refusal(
    register: &PlainRegister,
    policy: &Policy,
    request: &Request,
) -> Option<Refusal>
    ensures refusal { result ≡ first_of (policy_rules register.now policy.now request.now) }
    ensures sized { IfNone result (IsSizedRequest request.now) }
{
    match request {
        Request::Delegate {
            space,
            amount,
            status,
            handle,
        } => {
            let row = row_of(policy, *space, *status);
            row_refusal(register, &row, *space, *amount, *status, handle)
        }
        Request::Transfer { range, to, .. } => transfer_refusal(register, policy, range, to),
        _ => None,
    }
}
