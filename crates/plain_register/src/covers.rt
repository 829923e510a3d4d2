//! What an accepted request paints: its cover and its card.
ghost use Rattle.std.specs.Prelude.{◌≡◌};
ghost use Rattle.reg_entry.specs.Covers.{across, number_before, chosen_start, cover_for, card_for};
ghost use Rattle.reg_entry.specs.Register.{piece_of};
ghost use Rattle.reg_entry.specs.Request.{IsSizedRequest};
ghost use Rattle.plain_register.specs.Starts.{MayStartAt};

use crate::PlainRegister;
use crate::least_block::least_block;
use num_range::{Number, Range};
use reg_entry::{Card, Request, Status};

impl PlainRegister {
    /// From the first number of the piece before a number to the last of the piece that holds it.
    fn range_across(&self, at: Number) -> Option<Range>
        ensures { result ≡ across (piece_of self.now.pool (number_before at)) (piece_of self.now.pool at) }
    {
        let left = self.piece_of(at.before())?;
        let right = self.piece_of(at)?;
        Some(Range::between(at.space(), left.range.first(), right.range.last()))
    }

    /// Where the block of a delegation starts. Nothing is sought for any other request.
    pub fn chosen_start(&self, request: &Request) -> Option<u128>
        requires { IsSizedRequest request.now }
        ensures start { result ≡ chosen_start self.now request.now }
        ensures may { MayStartAt request.now result }
    {
        match request {
            Request::Delegate { space, amount, .. } => {
                let size = space.amount_size(*amount);
                least_block(self.pieces_in(*space), *space, size)
            }
            _ => None,
        }
    }

    /// The range that an entry of the request paints or reshapes. The block of a delegation starts at the start, where
    /// there is one; no other request looks at it.
    pub fn cover_for(&self, request: &Request, start: Option<u128>) -> Option<Range>
        requires { MayStartAt request.now start }
        ensures { result ≡ cover_for self.now request.now start }
    {
        match request {
            Request::Receive { range }
            | Request::Reserve { range }
            | Request::Unreserve { range }
            | Request::SubReturn { range }
            | Request::Release { range } => Some(*range),
            Request::SubAssign { range, .. }
            | Request::Return { range, .. }
            | Request::Transfer { range, .. } => Some(*range),
            Request::Delegate { space, amount, .. } => {
                let first = start?;
                let size = space.amount_size(*amount);
                Some(Range::between(*space, first, first + (size - 1)))
            }
            Request::Split { at } => Some(self.piece_of(*at)?.range),
            Request::Join { at } => self.range_across(*at),
            Request::AddHolder { .. }
            | Request::EditHolder { .. }
            | Request::SetReverse { .. }
            | Request::ClearReverse { .. } => None,
        }
    }

    /// The card that an entry of the request paints on a day, kept up to another where the request has such a day.
    pub fn card_for(&self, request: &Request, day: u32, until: u32) -> Option<Card>
        ensures { result ≡ card_for self.now request.now day until }
    {
        match request {
            Request::Receive { .. } | Request::Unreserve { .. } | Request::Release { .. } => {
                Some(Card::plain())
            }
            Request::Delegate { status, handle, .. } => Some(Card {
                status: status.status(),
                holder: self.by_handle(handle),
                day,
                until: 0,
            }),
            Request::Reserve { .. } => Some(Card {
                status: Status::Reserved,
                holder: None,
                day,
                until: 0,
            }),
            Request::Return { .. } => Some(Card {
                status: Status::Quarantine,
                holder: None,
                day,
                until,
            }),
            Request::Transfer { range, to, .. } => Some(Card {
                status: self.piece_of(range.first_number())?.card.status,
                holder: self.by_handle(to),
                day,
                until,
            }),
            Request::AddHolder { .. }
            | Request::EditHolder { .. }
            | Request::SubAssign { .. }
            | Request::SubReturn { .. }
            | Request::Split { .. }
            | Request::Join { .. }
            | Request::SetReverse { .. }
            | Request::ClearReverse { .. } => None,
        }
    }
}
