//! The reasons for a refusal, each a condition with a name of its own.
ghost use Rattle.std.specs.Prelude.{◌≡◌, ◌<◌, length, IfSome};
ghost use Rattle.std.specs.Option.{option_and_then};
ghost use Rattle.reg_entry.specs.Card.{is_available, is_delegated};
ghost use Rattle.reg_entry.specs.Holders.{holder_number, handle_at};
ghost use Rattle.reg_entry.specs.Register.{piece_of};
ghost use Rattle.reg_entry.specs.Decision.{number_outside_pool, begins_space, not_in_one_piece, not_one_piece, begins_a_piece, begins_no_piece, wrong_status, is_status, unknown_holder, not_holder, handle_taken, already_pooled, cards_differ};

use crate::PlainRegister;
use crate::holders::holder_number;
use crate::pieces::first_met;
use num_range::{Number, Range};
use reg_entry::{Handle, Piece, Refusal, Status};

/// 0 has no number before it.
pub(crate) fn begins_space(n: Number) -> Option<Refusal>
    ensures { result ≡ begins_space n }
{
    Refusal::OutsidePool { number: n }.when(n.value() == 0)
}

impl PlainRegister {
    pub(crate) fn number_outside_pool(&self, n: Number) -> Option<Refusal>
        ensures { result ≡ number_outside_pool self.now n }
    {
        Refusal::OutsidePool { number: n }.when(self.piece_of(n).is_none())
    }

    pub(crate) fn not_in_one_piece(&self, range: &Range) -> Option<Refusal>
        ensures { result ≡ not_in_one_piece self.now range.now }
    {
        let piece = self.piece_of(range.first_number())?.range;
        Refusal::NotOnePiece { piece }.when(!range.inside(&piece))
    }

    pub(crate) fn not_one_piece(&self, range: &Range) -> Option<Refusal>
        ensures { result ≡ not_one_piece self.now range.now }
    {
        let piece = self.piece_of(range.first_number())?.range;
        Refusal::NotOnePiece { piece }.when(*range != piece)
    }

    pub(crate) fn begins_a_piece(&self, at: Number) -> Option<Refusal>
        ensures { result ≡ begins_a_piece self.now at }
    {
        let piece = self.piece_of(at)?.range;
        Refusal::NotOnePiece { piece }.when(piece.first() == at.value())
    }

    pub(crate) fn begins_no_piece(&self, at: Number) -> Option<Refusal>
        ensures { result ≡ begins_no_piece self.now at }
    {
        let piece = self.piece_of(at)?.range;
        Refusal::NotOnePiece { piece }.when(piece.first() != at.value())
    }

    pub(crate) fn not_available(&self, n: Number) -> Option<Refusal>
        ensures { result ≡ wrong_status self.now n is_available }
    {
        let status = self.piece_of(n)?.card.status;
        Refusal::WrongStatus { status }.when(!status.is_available())
    }

    pub(crate) fn not_of_status(&self, n: Number, wanted: Status) -> Option<Refusal>
        ensures { result ≡ wrong_status self.now n (is_status wanted) }
    {
        let status = self.piece_of(n)?.card.status;
        Refusal::WrongStatus { status }.when(status != wanted)
    }

    pub(crate) fn not_delegated(&self, n: Number) -> Option<Refusal>
        ensures { result ≡ wrong_status self.now n is_delegated }
    {
        let status = self.piece_of(n)?.card.status;
        Refusal::WrongStatus { status }.when(!status.is_delegated())
    }

    /// The number of the holder with this handle.
    pub fn by_handle(&self, handle: &Handle) -> Option<u32>
        ensures number { result ≡ holder_number self.now.holders handle.now }
        ensures within { IfSome result (λ number. number < length self.now.holders) }
    {
        self.is_whole();
        holder_number(&self.holders, handle)
    }

    pub(crate) fn unknown_holder(&self, handle: &Handle) -> Option<Refusal>
        ensures { result ≡ unknown_holder self.now handle.now }
    {
        Refusal::UnknownHolder { handle: *handle }.when(self.by_handle(handle).is_none())
    }

    /// The number of the holder of the piece that holds the number.
    #[tactic(auto, using(crate::proofs::Known::holder_known))]
    fn holder_at(&self, n: Number) -> Option<u32>
        ensures holder { result ≡ option_and_then (λ p. p.card.holder) (piece_of self.now.pool n) }
        ensures known { IfSome result (λ number. number < length self.now.holders) }
    {
        self.is_whole();
        self.piece_of(n)?.card.holder
    }

    /// The handle of the holder with this number.
    pub(crate) fn handle_at(&self, number: u32) -> Handle
        requires { number < length self.now.holders }
        ensures { result ≡ handle_at self.now.holders number }
    {
        self.is_whole();
        let (holder, _) = self.holders[number as usize];
        holder.handle
    }

    pub(crate) fn not_holder(&self, range: &Range, handle: &Handle) -> Option<Refusal>
        ensures { result ≡ not_holder self.now range.now handle.now }
    {
        let number = self.holder_at(range.first_number())?;
        Refusal::NotHolder {
            holder: self.handle_at(number),
        }
        .when(self.by_handle(handle) != Some(number))
    }

    pub(crate) fn handle_taken(&self, handle: &Handle) -> Option<Refusal>
        ensures { result ≡ handle_taken self.now handle.now }
    {
        Refusal::HandleTaken.when(self.by_handle(handle).is_some())
    }

    pub(crate) fn already_pooled(&self, range: &Range) -> Option<Refusal>
        ensures { result ≡ already_pooled self.now range.now }
    {
        let piece = first_met(self.pieces_in(range.space()), range)?;
        let number = Number::of(range.space(), range.first().max(piece.range.first()));
        Some(Refusal::Overlap { number })
    }

    pub(crate) fn cards_differ(&self, at: Number) -> Option<Refusal>
        ensures { result ≡ cards_differ self.now at }
    {
        let left = self.piece_of(at.before())?;
        let right = self.piece_of(at)?;
        Refusal::CardsDiffer { left: left.range }.when(left.card != right.card)
    }
}
