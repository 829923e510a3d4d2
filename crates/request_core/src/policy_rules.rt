//! Whether the register and the policy allow a request, whatever the day.
ghost use Rattle.std.specs.Prelude.{◌≡◌, ◌+◌, ◌<◌, ◌≤◌, ◌-◌, ◌*◌, ◌/◌, ◌^◌, ◌&&◌, min, nat_eq, nat_lt, not, true, if◌then◌else◌, length, IfNone, IfSome};
ghost use Rattle.std.specs.Option.{option_and_then, option_eq, option_or};
ghost use Rattle.num_range.specs.Range.{size_of};
ghost use Rattle.reg_entry.specs.declared.refusal.Refusal.TheVariants.{HolderKind, OverCap, UnderUsed};
ghost use Rattle.reg_entry.specs.declared.request.Request.TheVariants.{Delegate};
ghost use Rattle.reg_entry.specs.Covers.{first_number};
ghost use Rattle.reg_entry.specs.Holders.{holder_named, holder_number};
ghost use Rattle.reg_entry.specs.Policy.{PlainRows, row_in, policy_row, lists_kind, IsRowOf};
ghost use Rattle.reg_entry.specs.Request.{has_size, status_of, IsSizedRequest};
ghost use Rattle.reg_entry.specs.Sums.{held, allocated, used};
ghost use Rattle.reg_entry.specs.Decision.{first_of, on_piece, refuse_if, amount_out_of_policy, delegate_rules, early_rules, transfer_rules, policy_rules};
ghost use Rattle.request_core.specs.Named.{holder_of};
ghost use Rattle.board.specs.Subject.{IsPieceAt, IsSubjectOf};

use board::{Board, Subject};
use num_range::{Range, Space};
use policy_table::Policy;
use reg_entry::{Delegation, Handle, Kind, Piece, Refusal, Request, Row, Status};
use reg_laws::holdings::holdings_are_bounded;
use reg_laws::usage::use_is_bounded;

fn amount_out_of_policy(row: &Row, amount: u32) -> Option<Refusal>
    ensures refusal { result ≡ amount_out_of_policy row.now amount }
    ensures within { IfNone result ((row.now.least ≤ amount) × (amount ≤ row.now.most)) }
{
    let (least, most) = (row.least, row.most);
    Refusal::LengthOutOfPolicy { least, most }.when(amount < least || most < amount)
}

/// Whether the row lists holders of this kind.
fn lists_kind(row: &Row, kind: Kind) -> bool
    ensures { result ≡ lists_kind row.now kind }
{
    match kind {
        Kind::Lir => row.lir,
        Kind::EndUser => row.enduser,
    }
}

/// Tells callers that a number which is that of a handle is one of the register's, and names the handle's holder.
#[tactic(auto, using(crate::proofs::Named::known_if, crate::proofs::Named::named_by_number))]
fn names_holder(board: &Board, handle: &Handle, number: Option<u32>)
    requires { number ≡ holder_number board.now.register.holders handle.now }
    ensures known { IfSome number (λ number. number < length board.now.register.holders) }
    ensures named { holder_named board.now.register.holders handle.now ≡ holder_of board.now.register.holders number }
{
    let _ = board;
    let _ = handle;
}

fn kind_left_out(board: &Board, row: &Row, number: Option<u32>) -> Option<Refusal>
    requires { IfSome number (λ number. number < length board.now.register.holders) }
    ensures { result ≡ option_and_then (λ holder. refuse_if (not (lists_kind row.now holder.kind)) (HolderKind holder.kind))
        (holder_of board.now.register.holders number) }
{
    let (holder, _) = board.holders().holder(number?);
    let kind = holder.kind;
    Refusal::HolderKind { kind }.when(!lists_kind(row, kind))
}

/// The holder of this number would hold too many numbers of the space, with so many more.
fn over_cap(
    board: &Board,
    row: &Row,
    space: Space,
    number: Option<u32>,
    more: u128,
) -> Option<Refusal>
    requires { more ≤ 2 ^ 126 }
    ensures { result ≡ option_and_then
        (λ number. refuse_if (nat_lt row.now.cap (held board.now.register number space + more)) (OverCap (held board.now.register number space + more) row.now.cap))
        number }
{
    // A law: the sum is a number of the type.
    holdings_are_bounded();
    board.is_whole();
    let held = board.held(number?, space) + more;
    let cap = row.cap;
    Refusal::OverCap { held, cap }.when(cap < held)
}

/// So many hundredths of an amount, rounded down, or the greatest number of the type where there would be more.
#[tactic(auto, using(crate::proofs::Hundredths::hundredths_are))]
fn hundredths(amount: u128, percent: u32) -> u128
    ensures { result ≡ min (amount * percent / 100) (2 ^ 128 - 1) }
{
    if percent == 0 {
        return 0;
    }
    let percent = u128::from(percent);
    let rest = (amount % 100) * percent / 100;
    (amount / 100).saturating_mul(percent).saturating_add(rest)
}

/// Too few of the allocated numbers of the holder of this number are sub-assigned.
fn under_used(board: &Board, row: &Row, space: Space, number: Option<u32>) -> Option<Refusal>
    ensures { result ≡ option_and_then
        (λ number. refuse_if
        (nat_lt 0 (allocated board.now.register number space) && nat_lt (used board.now.register number space) (allocated board.now.register number space * row.now.percent / 100))
        (UnderUsed (used board.now.register number space) (allocated board.now.register number space)))
        number }
{
    // Laws: what is used is less than the greatest number of the type.
    holdings_are_bounded();
    use_is_bounded();
    board.is_whole();
    let number = number?;
    let used = board.used(number, space);
    let held = board.allocated(number, space);
    Refusal::UnderUsed { used, held }.when(0 < held && used < hundredths(held, row.percent))
}

/// What is against a delegation whatever the day, by the row of its space and status: its holder, whose number this is, isn't
/// known, or the row doesn't allow it.
fn delegate_refusal(
    board: &Board,
    row: &Row,
    space: Space,
    amount: u32,
    status: Delegation,
    handle: &Handle,
    number: Option<u32>,
) -> Option<Refusal>
    requires row { IsRowOf space row.now }
    requires number { number ≡ holder_number board.now.register.holders handle.now }
    ensures refusal { result ≡ option_or (first_of (early_rules board.now.register (Delegate space amount status handle.now)))
        (first_of (delegate_rules board.now.register row.now space amount (status_of status) handle.now)) }
    ensures sized { IfNone result (has_size space amount ≡ true) }
{
    names_holder(board, handle, number);
    if number.is_none() {
        return Some(Refusal::UnknownHolder { handle: *handle });
    }
    let amount_refusal = amount_out_of_policy(row, amount);
    if amount_refusal.is_some() {
        return amount_refusal;
    }
    let size = space.amount_size(amount);
    let refusal = kind_left_out(board, row, number).or_else(|| over_cap(
        board, row, space, number, size,
    ));
    match status {
        Delegation::Allocate => refusal.or_else(|| under_used(board, row, space, number)),
        Delegation::Assign => refusal,
    }
}

/// The kind of delegation whose row is that of a piece's status.
fn delegation_of(status: Status) -> Delegation
    ensures { (rows : PlainRows) → row_in rows (status_of result) ≡ row_in rows status }
{
    match status {
        Status::Assigned => Delegation::Assign,
        _ => Delegation::Allocate,
    }
}

/// Tells callers that the piece at a range's first number has no more numbers than global unicast.
#[tactic(auto, using(crate::proofs::PieceSizes::size_bound))]
fn is_bounded(board: &Board, range: &Range, piece: Option<Piece>)
    requires { IsPieceAt board.now.register (first_number range.now) piece }
    ensures { IfSome piece (λ piece. size_of piece.range ≤ 2 ^ 126) }
{
    let _ = board;
    let _ = range;
}

/// What a transfer to the holder of this number adds to what the holder holds: nothing, where that is the piece's own.
fn transferred_size(piece: &Piece, number: Option<u32>) -> u128
    requires { size_of piece.now.range ≤ 2 ^ 126 }
    ensures size { result ≡ (if option_eq nat_eq piece.now.card.holder number then 0 else size_of piece.now.range) }
    ensures bound { result ≤ 2 ^ 126 }
{
    if piece.card.holder == number {
        0
    } else {
        piece.range.size()
    }
}

/// What is against a transfer of a range, which speaks of this piece and of who gets it, by the row of its space and of the
/// piece's status.
fn transfer_refusal(
    board: &Board,
    policy: &Policy,
    range: &Range,
    to: &Handle,
    subject: &Subject,
) -> Option<Refusal>
    requires piece { IsPieceAt board.now.register (first_number range.now) subject.now.piece }
    requires holder { subject.now.holder ≡ holder_number board.now.register.holders to.now }
    ensures { result ≡ on_piece board.now.register (first_number range.now) (transfer_rules board.now.register policy.now range.now.space to.now) }
{
    is_bounded(board, range, subject.piece);
    let number = subject.holder;
    names_holder(board, to, number);
    let piece = subject.piece?;
    let space = range.space();
    let row = policy.row(space, delegation_of(piece.card.status));
    let kind_refusal = kind_left_out(board, &row, number);
    if kind_refusal.is_some() {
        return kind_refusal;
    }
    over_cap(board, &row, space, number, transferred_size(&piece, number))
}

/// What the policy allows of a kind of delegation of a space.
#[tactic(auto, using(crate::proofs::PolicyRows::row_allows))]
fn row_of(policy: &Policy, space: Space, delegation: Delegation) -> Row
    ensures row { result ≡ policy_row policy.now space (status_of delegation) }
    ensures allowed { IsRowOf space result }
{
    policy.row(space, delegation)
}

/// Why the register or the policy refuses the request whatever the day, or nothing.
pub(crate) fn rule_refusal(
    board: &Board,
    policy: &Policy,
    request: &Request,
    subject: &Subject,
) -> Option<Refusal>
    requires { IsSubjectOf board.now.register request.now subject.now }
    ensures refusal { result ≡ option_or (first_of (early_rules board.now.register request.now))
        (first_of (policy_rules board.now.register policy.now request.now)) }
    ensures sized { IfNone result (IsSizedRequest request.now) }
{
    match request {
        Request::Delegate {
            space,
            amount,
            status,
            handle,
        } => {
            let row = row_of(policy, *space, *status);
            let number = subject.holder;
            delegate_refusal(board, &row, *space, *amount, *status, handle, number)
        }
        Request::Transfer { range, to, .. } => board
            .early_refusal(request, subject)
            .or_else(|| transfer_refusal(board, policy, range, to, subject)),
        _ => board.early_refusal(request, subject),
    }
}
