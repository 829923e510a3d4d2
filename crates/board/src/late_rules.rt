//! Whether a request may be done on a day, and there is room.
ghost use Rattle.std.specs.Prelude.{◌≡◌, None};
ghost use Rattle.num_range.specs.Number.{PlainNumber};
ghost use Rattle.reg_entry.specs.declared.request.Request.TheVariants.{Split};
ghost use Rattle.reg_entry.specs.Decision.{first_of, late_rules, refuse_if, journal_full, holders_full, has_subs, straddled, no_block};
ghost use Rattle.reg_entry.specs.declared.refusal.Refusal.TheVariants.{HoldTime, NotDue, RegisterFull};
ghost use Rattle.reg_entry.specs.Partition.{piece_count};
ghost use Rattle.reg_entry.specs.Register.{painted, reshaped};
ghost use Rattle.std.specs.Prelude.{nat_lt};
ghost use Rattle.std.specs.Option.{option_and_then};
ghost use Rattle.board.specs.Subject.{IsPieceAt, IsSubjectOf};

use crate::reverse_conditions::no_reverse_space;
use crate::{Board, Subject};
use num_range::{Number, Range};
use reg_entry::{Card, Piece, Refusal, Request};

fn no_block(cover: &Option<Range>) -> Option<Refusal>
    ensures { result ≡ no_block cover.now }
{
    Refusal::NoBlock.when(cover.is_none())
}

fn within_hold_time(piece: Option<Piece>, day: u32) -> Option<Refusal>
    ensures { result ≡ option_and_then (λ p. refuse_if (nat_lt day p.card.until) (HoldTime p.card.until)) piece }
{
    let until = piece?.card.until;
    Refusal::HoldTime { until }.when(day < until)
}

fn not_due(piece: Option<Piece>, day: u32) -> Option<Refusal>
    ensures { result ≡ option_and_then (λ p. refuse_if (nat_lt day p.card.until) (NotDue p.card.until)) piece }
{
    let until = piece?.card.until;
    Refusal::NotDue { until }.when(day < until)
}

impl Board {
    /// Where painting the card over the cover takes more pieces than there is room for.
    fn painted_full(&self, cover: &Option<Range>, card: &Option<Card>) -> Option<Refusal>
        ensures { result ≡ refuse_if (nat_lt self.now.register.rooms.pieces (piece_count (painted cover.now card.now self.now.register.pool)))
            (RegisterFull (piece_count (painted cover.now card.now self.now.register.pool)) self.now.register.rooms.pieces) }
    {
        let room = self.rooms().pieces;
        match (cover, card) {
            (Some(range), Some(card)) => {
                let pieces = self.pieces().overflow(range, card.status)?;
                Some(Refusal::RegisterFull { pieces, room })
            }
            _ => self.register_full(self.pieces().pieces()),
        }
    }

    /// How many pieces there would be once this one, which holds the number, was split before it.
    #[tactic(auto, using(crate::proofs::Splitting::count_split))]
    fn split_count(&self, at: Number, piece: Option<Piece>) -> u32
        requires { IsPieceAt self.now.register at piece }
        ensures { result ≡ piece_count (reshaped (Split at) self.now.register.pool) }
    {
        self.is_whole();
        let pieces = self.pieces().pieces();
        match piece {
            Some(piece) if piece.range.first() < at.value() => pieces + 1,
            _ => pieces,
        }
    }

    fn register_full(&self, pieces: u32) -> Option<Refusal>
        ensures { result ≡ refuse_if (nat_lt self.now.register.rooms.pieces pieces) (RegisterFull pieces self.now.register.rooms.pieces) }
    {
        let room = self.rooms().pieces;
        Refusal::RegisterFull { pieces, room }.when(room < pieces)
    }

    fn holders_full(&self) -> Option<Refusal>
        ensures { result ≡ holders_full self.now.register }
    {
        let room = self.rooms().holders;
        Refusal::HoldersFull { room }.when(room <= self.holders().len())
    }

    fn journal_full(&self) -> Option<Refusal>
        ensures { result ≡ journal_full self.now.register }
    {
        let entries = self.entries();
        Refusal::JournalFull { entries }.when(self.rooms().entries <= entries)
    }

    /// Why a request that the register knows how to do can't be done on a day with this cover and card, or nothing: its
    /// time hasn't come, there is no block, or there is no room.
    pub fn late_refusal(
        &self,
        request: &Request,
        subject: &Subject,
        day: u32,
        cover: &Option<Range>,
        card: &Option<Card>,
    ) -> Option<Refusal>
        requires subject { IsSubjectOf self.now.register request.now subject.now }
        requires split { (at : PlainNumber) → request.now ≡ Split at → card.now ≡ None }
        ensures { result ≡ first_of (late_rules self.now.register request.now day cover.now card.now) }
    {
        match request {
            Request::Receive { .. } | Request::Reserve { .. } => self
                .painted_full(cover, card)
                .or_else(|| self.journal_full()),
            Request::AddHolder { .. } => self.holders_full().or_else(|| self.journal_full()),
            Request::Delegate { .. } => no_block(cover)
                .or_else(|| self.painted_full(cover, card))
                .or_else(|| self.journal_full()),
            Request::SubAssign { .. } => self.journal_full().or_else(|| self.subs_full()),
            Request::Return { range, .. } => {
                self.has_subs(range).or_else(|| self.journal_full())
            }
            Request::Release { .. } => {
                not_due(subject.piece, day).or_else(|| self.journal_full())
            }
            Request::Split { at } => self
                .straddled(*at)
                .or_else(|| self.register_full(self.split_count(*at, subject.piece)))
                .or_else(|| self.journal_full()),
            Request::Transfer { .. } => {
                within_hold_time(subject.piece, day).or_else(|| self.journal_full())
            }
            Request::EditHolder { .. }
            | Request::Unreserve { .. }
            | Request::SubReturn { .. }
            | Request::Join { .. }
            | Request::ClearReverse { .. } => self.journal_full(),
            Request::SetReverse { range, .. } => no_reverse_space(range)
                .or_else(|| self.journal_full())
                .or_else(|| self.reverse_full(range)),
        }
    }
}
