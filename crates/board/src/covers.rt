//! What an accepted request paints: its cover and its card.
ghost use Rattle.std.specs.Prelude.{◌≡◌};
ghost use Rattle.reg_entry.specs.Covers.{across, number_before, cover_for, card_for};
ghost use Rattle.reg_entry.specs.Register.{piece_of};
ghost use Rattle.board.specs.Starts.{MayStartAt};
ghost use Rattle.board.specs.Subject.{IsPieceAt, IsSubjectOf};

use crate::{Board, Subject};
use num_range::{Number, Range};
use reg_entry::{Card, Piece, Request, Status};

impl Board {
    /// From the first number of the piece before a number to the last of the piece that holds it.
    fn range_across(&self, at: Number, left: Option<Piece>, right: Option<Piece>) -> Option<Range>
        requires left { IsPieceAt self.now.register (number_before at) left }
        requires right { IsPieceAt self.now.register at right }
        ensures { result ≡ across (piece_of self.now.register.pool (number_before at)) (piece_of self.now.register.pool at) }
    {
        let left = left?;
        let right = right?;
        Some(Range::between(at.space(), left.range.first(), right.range.last()))
    }

    /// The range that an entry of the request paints or reshapes. The block of a delegation starts at the start, where
    /// there is one; no other request looks at it.
    pub fn cover_for(
        &self,
        request: &Request,
        subject: &Subject,
        start: Option<u128>,
    ) -> Option<Range>
        requires subject { IsSubjectOf self.now.register request.now subject.now }
        requires start { MayStartAt request.now start }
        ensures { result ≡ cover_for self.now.register request.now start }
    {
        match request {
            Request::Receive { range }
            | Request::Reserve { range }
            | Request::Unreserve { range }
            | Request::SubReturn { range }
            | Request::Release { range } => Some(*range),
            Request::SubAssign { range, .. }
            | Request::Return { range, .. }
            | Request::Transfer { range, .. } => Some(*range),
            Request::Delegate { space, amount, .. } => {
                let first = start?;
                let size = space.amount_size(*amount);
                Some(Range::between(*space, first, first + (size - 1)))
            }
            Request::Split { .. } => Some(subject.piece?.range),
            Request::Join { at } => self.range_across(*at, subject.left, subject.piece),
            Request::AddHolder { .. }
            | Request::EditHolder { .. }
            | Request::SetReverse { .. }
            | Request::ClearReverse { .. } => None,
        }
    }

    /// The card that an entry of the request paints on a day, kept up to another where the request has such a day.
    pub fn card_for(
        &self,
        request: &Request,
        subject: &Subject,
        day: u32,
        until: u32,
    ) -> Option<Card>
        requires { IsSubjectOf self.now.register request.now subject.now }
        ensures { result ≡ card_for self.now.register request.now day until }
    {
        match request {
            Request::Receive { .. } | Request::Unreserve { .. } | Request::Release { .. } => {
                Some(Card::plain())
            }
            Request::Delegate { status, .. } => Some(Card {
                status: status.status(),
                holder: subject.holder,
                day,
                until: 0,
            }),
            Request::Reserve { .. } => Some(Card {
                status: Status::Reserved,
                holder: None,
                day,
                until: 0,
            }),
            Request::Return { .. } => Some(Card {
                status: Status::Quarantine,
                holder: None,
                day,
                until,
            }),
            Request::Transfer { .. } => Some(Card {
                status: subject.piece?.card.status,
                holder: subject.holder,
                day,
                until,
            }),
            Request::AddHolder { .. }
            | Request::EditHolder { .. }
            | Request::SubAssign { .. }
            | Request::SubReturn { .. }
            | Request::Split { .. }
            | Request::Join { .. }
            | Request::SetReverse { .. }
            | Request::ClearReverse { .. } => None,
        }
    }
}
