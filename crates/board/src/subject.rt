//! What a request speaks of, looked up once for all that is asked of it.
ghost use Rattle.std.specs.Prelude.{◌≡◌, None};
ghost use Rattle.reg_entry.specs.Covers.{first_number};
ghost use Rattle.reg_entry.specs.Holders.{holder_number};
ghost use Rattle.num_range.specs.Number.{number_before};
ghost use Rattle.board.specs.Subject.{IsPieceAt, IsSubjectOf};

use crate::Board;
use num_range::{Number, Range};
use reg_entry::{Handle, Piece, Request};

/// What a request speaks of. Each part is none where its kind of request doesn't speak of such a thing, and where the register
/// has none.
#[derive(Clone, Copy)]
pub struct Subject {
    /// The piece that holds the first number of the request's range, or the number at which it splits or joins.
    pub piece: Option<Piece>,
    /// The piece before that number, where the request joins two.
    pub left: Option<Piece>,
    /// The number of the holder who is added or edited, who gets numbers, or who returns them.
    pub holder: Option<u32>,
}

impl Board {
    fn subject_at(&self, n: Number) -> Subject
        ensures piece { IsPieceAt self.now.register n result.piece }
        ensures rest { (result.left ≡ None) × (result.holder ≡ None) }
    {
        Subject {
            piece: self.piece_of(n),
            left: None,
            holder: None,
        }
    }

    fn subject_held(&self, handle: &Handle) -> Subject
        ensures holder { result.holder ≡ holder_number self.now.register.holders handle.now }
        ensures rest { (result.piece ≡ None) × (result.left ≡ None) }
    {
        Subject {
            piece: None,
            left: None,
            holder: self.holders().by_handle(handle),
        }
    }

    fn subject_of_both(&self, range: &Range, handle: &Handle) -> Subject
        ensures piece { IsPieceAt self.now.register (first_number range.now) result.piece }
        ensures holder { result.holder ≡ holder_number self.now.register.holders handle.now }
        ensures rest { result.left ≡ None }
    {
        Subject {
            piece: self.piece_of(range.first_number()),
            left: None,
            holder: self.holders().by_handle(handle),
        }
    }

    fn subject_round(&self, at: Number) -> Subject
        ensures piece { IsPieceAt self.now.register at result.piece }
        ensures left { IsPieceAt self.now.register (number_before at) result.left }
        ensures rest { result.holder ≡ None }
    {
        Subject {
            piece: self.piece_of(at),
            left: self.piece_of(at.before()),
            holder: None,
        }
    }

    /// Looks up what a request speaks of: at most one piece, or two that it joins, and one holder.
    pub fn subject(&self, request: &Request) -> Subject
        ensures { IsSubjectOf self.now.register request.now result }
    {
        match request {
            Request::Receive { .. } | Request::SubReturn { .. } | Request::ClearReverse { .. } => {
                Subject {
                    piece: None,
                    left: None,
                    holder: None,
                }
            }
            Request::AddHolder { holder } | Request::EditHolder { holder } => {
                self.subject_held(&holder.handle)
            }
            Request::Delegate { handle, .. } => self.subject_held(handle),
            Request::Reserve { range }
            | Request::Unreserve { range }
            | Request::Release { range }
            | Request::SetReverse { range, .. } => self.subject_at(range.first_number()),
            Request::SubAssign { range, handle } | Request::Return { range, handle } => {
                self.subject_of_both(range, handle)
            }
            Request::Transfer { range, to, .. } => self.subject_of_both(range, to),
            Request::Split { at } => self.subject_at(*at),
            Request::Join { at } => self.subject_round(*at),
        }
    }
}
