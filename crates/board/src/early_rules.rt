//! Whether the register knows what a request speaks of, and it may be asked of it.
ghost use Rattle.std.specs.Prelude.{◌≡◌, ℕ, List, [], ◌∷◌, IfSome};
ghost use Rattle.std.specs.Option.{option_or};
ghost use Rattle.reg_entry.specs.declared.request.Request.TheVariants.{Reserve, SubAssign, Return, Transfer, Split, Join, SetReverse};
ghost use Rattle.reg_entry.specs.Covers.{first_number};
ghost use Rattle.reg_entry.specs.Holders.{holder_number};
ghost use Rattle.reg_entry.specs.Decision.{first_of, early_rules, outside_pool, not_one_piece, wrong_status, is_status, unknown_holder};
ghost use Rattle.board.specs.FoundPiece.{HasKnownHolder, of_other_holder};
ghost use Rattle.board.specs.Subject.{IsPieceAt, IsSubjectOf};

use crate::conditions::{
    begins_a_piece, begins_no_piece, begins_space, cards_differ, handle_taken, not_available,
    not_delegated, not_in_one_piece, not_of_status, not_one_piece, number_outside_pool,
    unknown_holder,
};
use crate::pooled::outside_unicast;
use crate::{Board, Subject};
use num_range::{Number, Range};
use reg_entry::{Handle, Piece, Refusal, Request, Status};

impl Board {
    fn reserve_refusal(&self, range: &Range, piece: Option<Piece>) -> Option<Refusal>
        requires { IsPieceAt self.now.register (first_number range.now) piece }
        ensures { result ≡ first_of (early_rules self.now.register (Reserve range.now)) }
    {
        self.outside_pool(range, piece)
            .or_else(|| not_in_one_piece(piece, range))
            .or_else(|| not_available(piece))
    }

    /// Why the range isn't one piece of the status, or nothing.
    fn not_one_of(&self, range: &Range, piece: Option<Piece>, wanted: Status) -> Option<Refusal>
        requires { IsPieceAt self.now.register (first_number range.now) piece }
        ensures { result ≡ first_of (outside_pool self.now.register range.now ∷ not_one_piece self.now.register range.now
            ∷ wrong_status self.now.register (first_number range.now) (is_status wanted) ∷ []) }
    {
        self.outside_pool(range, piece)
            .or_else(|| not_one_piece(piece, range))
            .or_else(|| not_of_status(piece, wanted))
    }

    fn sub_assign_refusal(
        &self,
        range: &Range,
        handle: &Handle,
        subject: &Subject,
    ) -> Option<Refusal>
        requires { IsSubjectOf self.now.register (SubAssign range.now handle.now) subject.now }
        ensures { result ≡ first_of (early_rules self.now.register (SubAssign range.now handle.now)) }
    {
        let piece = subject.piece;
        self.outside_pool(range, piece)
            .or_else(|| not_in_one_piece(piece, range))
            .or_else(|| not_of_status(piece, Status::Allocated))
            .or_else(|| unknown_holder(subject.holder, handle))
            .or_else(|| self.meets_sub(range))
    }

    /// Why the holder of this number, who has this handle, can't return the piece, or nothing.
    fn not_held_by(
        &self,
        piece: Option<Piece>,
        handle: &Handle,
        holder: Option<u32>,
    ) -> Option<Refusal>
        requires piece { IfSome piece (HasKnownHolder self.now.register) }
        requires holder { holder ≡ holder_number self.now.register.holders handle.now }
        ensures { result ≡ option_or (unknown_holder self.now.register handle.now)
            (of_other_holder self.now.register (holder_number self.now.register.holders handle.now) piece) }
    {
        unknown_holder(holder, handle).or_else(|| self.not_holder(piece, holder))
    }

    /// Why the one holder can't transfer the piece to the other, whose number this is, or nothing.
    fn not_transferred(
        &self,
        piece: Option<Piece>,
        from: &Handle,
        to: &Handle,
        receiver: Option<u32>,
    ) -> Option<Refusal>
        requires piece { IfSome piece (HasKnownHolder self.now.register) }
        requires receiver { receiver ≡ holder_number self.now.register.holders to.now }
        ensures { result ≡ option_or (unknown_holder self.now.register from.now) (option_or (unknown_holder self.now.register to.now)
            (of_other_holder self.now.register (holder_number self.now.register.holders from.now) piece)) }
    {
        let giver = self.holders().by_handle(from);
        unknown_holder(giver, from)
            .or_else(|| unknown_holder(receiver, to))
            .or_else(|| self.not_holder(piece, giver))
    }

    fn return_refusal(&self, range: &Range, handle: &Handle, subject: &Subject) -> Option<Refusal>
        requires { IsSubjectOf self.now.register (Return range.now handle.now) subject.now }
        ensures { result ≡ first_of (early_rules self.now.register (Return range.now handle.now)) }
    {
        let piece = subject.piece;
        self.outside_pool(range, piece)
            .or_else(|| not_one_piece(piece, range))
            .or_else(|| not_delegated(piece))
            .or_else(|| self.not_held_by(piece, handle, subject.holder))
    }

    fn transfer_refusal(
        &self,
        range: &Range,
        from: &Handle,
        to: &Handle,
        subject: &Subject,
    ) -> Option<Refusal>
        requires { IsSubjectOf self.now.register (Transfer range.now from.now to.now) subject.now }
        ensures { result ≡ first_of (early_rules self.now.register (Transfer range.now from.now to.now)) }
    {
        let piece = subject.piece;
        self.outside_pool(range, piece)
            .or_else(|| not_one_piece(piece, range))
            .or_else(|| not_delegated(piece))
            .or_else(|| self.not_transferred(piece, from, to, subject.holder))
    }

    fn split_refusal(&self, at: Number, piece: Option<Piece>) -> Option<Refusal>
        requires { IsPieceAt self.now.register at piece }
        ensures { result ≡ first_of (early_rules self.now.register (Split at)) }
    {
        number_outside_pool(piece, at)
            .or_else(|| begins_a_piece(piece, at))
            .or_else(|| not_delegated(piece))
    }

    fn join_refusal(&self, at: Number, subject: &Subject) -> Option<Refusal>
        requires { IsSubjectOf self.now.register (Join at) subject.now }
        ensures { result ≡ first_of (early_rules self.now.register (Join at)) }
    {
        let (left, right) = (subject.left, subject.piece);
        begins_space(at)
            .or_else(|| number_outside_pool(right, at))
            .or_else(|| number_outside_pool(left, at.before()))
            .or_else(|| begins_no_piece(right, at))
            .or_else(|| not_delegated(right))
            .or_else(|| cards_differ(left, right))
    }

    /// Which servers they are has no part in it.
    fn set_reverse_refusal(&self, range: &Range, piece: Option<Piece>) -> Option<Refusal>
        requires { IsPieceAt self.now.register (first_number range.now) piece }
        ensures { (servers : List (List ℕ)) → result ≡ first_of (early_rules self.now.register (SetReverse range.now servers)) }
    {
        self.outside_pool(range, piece)
            .or_else(|| not_in_one_piece(piece, range))
            .or_else(|| not_delegated(piece))
            .or_else(|| self.meets_reverse(range))
    }

    /// Why the register can't do what is asked for, whatever the day and whatever the policy says, or nothing. Beside what the
    /// request speaks of, a range that goes beyond its piece is looked through from its first number on, and who gives in a
    /// transfer is looked up.
    pub fn early_refusal(&self, request: &Request, subject: &Subject) -> Option<Refusal>
        requires { IsSubjectOf self.now.register request.now subject.now }
        ensures { result ≡ first_of (early_rules self.now.register request.now) }
    {
        let piece = subject.piece;
        match request {
            Request::Receive { range } => outside_unicast(range).or_else(|| self.already_pooled(
                range,
            )),
            Request::AddHolder { .. } => handle_taken(subject.holder),
            Request::EditHolder { holder } => unknown_holder(subject.holder, &holder.handle),
            Request::Delegate { handle, .. } => unknown_holder(subject.holder, handle),
            Request::Reserve { range } => self.reserve_refusal(range, piece),
            Request::Unreserve { range } => self.not_one_of(range, piece, Status::Reserved),
            Request::SubAssign { range, handle } => {
                self.sub_assign_refusal(range, handle, subject)
            }
            Request::SubReturn { range } => self.no_sub(range),
            Request::Return { range, handle } => self.return_refusal(range, handle, subject),
            Request::Release { range } => self.not_one_of(range, piece, Status::Quarantine),
            Request::Split { at } => self.split_refusal(*at, piece),
            Request::Join { at } => self.join_refusal(*at, subject),
            Request::Transfer { range, from, to } => {
                self.transfer_refusal(range, from, to, subject)
            }
            Request::SetReverse { range, .. } => self.set_reverse_refusal(range, piece),
            Request::ClearReverse { range } => self.no_reverse(range),
        }
    }
}
