//! The reasons for a refusal, each a condition with a name of its own. What a condition says of a piece or of a handle's
//! holder it says of what was found: to look it up is the caller's part.
ghost use Rattle.std.specs.Prelude.{◌≡◌, ◌==◌, ◌<◌, not, length, IfSome};
ghost use Rattle.std.specs.Option.{is_some, option_and_then};
ghost use Rattle.reg_entry.specs.declared.refusal.Refusal.TheVariants.{OutsidePool, NotOnePiece, WrongStatus, UnknownHolder, HandleTaken, CardsDiffer};
ghost use Rattle.reg_entry.specs.Card.{is_available, is_delegated, same_card};
ghost use Rattle.reg_entry.specs.Holders.{handle_at};
ghost use Rattle.reg_entry.specs.Ranges.{lies_inside, same_range};
ghost use Rattle.reg_entry.specs.Register.{piece_of};
ghost use Rattle.reg_entry.specs.Decision.{refuse_if, begins_space, is_status, already_pooled};
ghost use Rattle.board.specs.FoundPiece.{IsFoundIn, HasKnownHolder, of_other_holder};

use crate::Board;
use num_range::{Number, Range};
use reg_entry::{Handle, Piece, Refusal, Status};

/// 0 has no number before it.
pub(crate) fn begins_space(n: Number) -> Option<Refusal>
    ensures { result ≡ begins_space n }
{
    Refusal::OutsidePool { number: n }.when(n.value() == 0)
}

pub(crate) fn number_outside_pool(piece: Option<Piece>, n: Number) -> Option<Refusal>
    ensures { result ≡ refuse_if (not (is_some piece)) (OutsidePool n) }
{
    Refusal::OutsidePool { number: n }.when(piece.is_none())
}

pub(crate) fn not_in_one_piece(piece: Option<Piece>, range: &Range) -> Option<Refusal>
    ensures { result ≡ option_and_then (λ p. refuse_if (not (lies_inside range.now p.range)) (NotOnePiece p.range)) piece }
{
    let piece = piece?.range;
    Refusal::NotOnePiece { piece }.when(!range.inside(&piece))
}

pub(crate) fn not_one_piece(piece: Option<Piece>, range: &Range) -> Option<Refusal>
    ensures { result ≡ option_and_then (λ p. refuse_if (not (same_range range.now p.range)) (NotOnePiece p.range)) piece }
{
    let piece = piece?.range;
    Refusal::NotOnePiece { piece }.when(*range != piece)
}

pub(crate) fn begins_a_piece(piece: Option<Piece>, at: Number) -> Option<Refusal>
    ensures { result ≡ option_and_then (λ p. refuse_if (p.range.first == at.value) (NotOnePiece p.range)) piece }
{
    let piece = piece?.range;
    Refusal::NotOnePiece { piece }.when(piece.first() == at.value())
}

pub(crate) fn begins_no_piece(piece: Option<Piece>, at: Number) -> Option<Refusal>
    ensures { result ≡ option_and_then (λ p. refuse_if (not (p.range.first == at.value)) (NotOnePiece p.range)) piece }
{
    let piece = piece?.range;
    Refusal::NotOnePiece { piece }.when(piece.first() != at.value())
}

pub(crate) fn not_available(piece: Option<Piece>) -> Option<Refusal>
    ensures { result ≡ option_and_then (λ p. refuse_if (not (is_available p.card.status)) (WrongStatus p.card.status)) piece }
{
    let status = piece?.card.status;
    Refusal::WrongStatus { status }.when(!status.is_available())
}

pub(crate) fn not_of_status(piece: Option<Piece>, wanted: Status) -> Option<Refusal>
    ensures { result ≡ option_and_then (λ p. refuse_if (not (is_status wanted p.card.status)) (WrongStatus p.card.status)) piece }
{
    let status = piece?.card.status;
    Refusal::WrongStatus { status }.when(status != wanted)
}

pub(crate) fn not_delegated(piece: Option<Piece>) -> Option<Refusal>
    ensures { result ≡ option_and_then (λ p. refuse_if (not (is_delegated p.card.status)) (WrongStatus p.card.status)) piece }
{
    let status = piece?.card.status;
    Refusal::WrongStatus { status }.when(!status.is_delegated())
}

/// The pieces on either side of a number.
pub(crate) fn cards_differ(left: Option<Piece>, right: Option<Piece>) -> Option<Refusal>
    ensures { result ≡ option_and_then (λ p. option_and_then (λ q. refuse_if (not (same_card p.card q.card)) (CardsDiffer p.range)) right) left }
{
    let left = left?;
    let right = right?;
    Refusal::CardsDiffer { left: left.range }.when(left.card != right.card)
}

/// The number of the holder, where there is one with the handle.
pub(crate) fn unknown_holder(holder: Option<u32>, handle: &Handle) -> Option<Refusal>
    ensures { result ≡ refuse_if (not (is_some holder)) (UnknownHolder handle.now) }
{
    Refusal::UnknownHolder { handle: *handle }.when(holder.is_none())
}

/// The number of the holder, where there is one with the handle already.
pub(crate) fn handle_taken(holder: Option<u32>) -> Option<Refusal>
    ensures { result ≡ refuse_if (is_some holder) HandleTaken }
{
    Refusal::HandleTaken.when(holder.is_some())
}

impl Board {
    /// The piece that holds the number.
    #[tactic(auto, using(crate::proofs::FoundPieces::found_if, crate::proofs::Known::holder_if))]
    pub fn piece_of(&self, n: Number) -> Option<Piece>
        ensures piece { result ≡ piece_of self.now.register.pool n }
        ensures found { IfSome result (IsFoundIn n.space 0 n.value) }
        ensures known { IfSome result (HasKnownHolder self.now.register) }
    {
        self.is_whole();
        self.pieces().are_pieces();
        self.pieces().piece_at(n)
    }

    /// The handle of the holder with this number.
    pub(crate) fn handle_at(&self, number: u32) -> Handle
        requires { number < length self.now.register.holders }
        ensures { result ≡ handle_at self.now.register.holders number }
    {
        let (holder, _) = self.holders().holder(number);
        holder.handle
    }

    /// The piece is another holder's than the one of this number.
    pub(crate) fn not_holder(&self, piece: Option<Piece>, holder: Option<u32>) -> Option<Refusal>
        requires { IfSome piece (HasKnownHolder self.now.register) }
        ensures { result ≡ of_other_holder self.now.register holder piece }
    {
        let number = piece?.card.holder?;
        Refusal::NotHolder {
            holder: self.handle_at(number),
        }
        .when(holder != Some(number))
    }

    pub(crate) fn already_pooled(&self, range: &Range) -> Option<Refusal>
        ensures { result ≡ already_pooled self.now.register range.now }
    {
        let number = self.pieces().overlap(range)?;
        Some(Refusal::Overlap { number })
    }
}
