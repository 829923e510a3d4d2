//! Whether a request may be done on a day, and there is room.
ghost use Rattle.std.specs.Prelude.{◌≡◌, None};
ghost use Rattle.num_range.specs.Number.{PlainNumber};
ghost use Rattle.reg_entry.specs.declared.request.Request.TheVariants.{Split};
ghost use Rattle.reg_entry.specs.Decision.{first_of, late_rules, refuse_if, journal_full, holders_full, within_hold_time, not_due, no_block};
ghost use Rattle.reg_entry.specs.declared.refusal.Refusal.TheVariants.{RegisterFull};
ghost use Rattle.reg_entry.specs.Partition.{piece_count};
ghost use Rattle.reg_entry.specs.Register.{painted, reshaped};
ghost use Rattle.std.specs.Prelude.{nat_lt};

use crate::PlainRegister;
use crate::reverse_conditions::no_reverse_space;
use num_range::{Number, Range};
use reg_entry::{Card, Refusal, Request};

fn no_block(cover: &Option<Range>) -> Option<Refusal>
    ensures { result ≡ no_block cover.now }
{
    Refusal::NoBlock.when(cover.is_none())
}

impl PlainRegister {
    fn within_hold_time(&self, range: &Range, day: u32) -> Option<Refusal>
        ensures { result ≡ within_hold_time self.now range.now day }
    {
        let until = self.piece_of(range.first_number())?.card.until;
        Refusal::HoldTime { until }.when(day < until)
    }

    fn not_due(&self, range: &Range, day: u32) -> Option<Refusal>
        ensures { result ≡ not_due self.now range.now day }
    {
        let until = self.piece_of(range.first_number())?.card.until;
        Refusal::NotDue { until }.when(day < until)
    }

    /// How many pieces there would be once the card was painted over the cover.
    fn painted_count(&mut self, cover: &Option<Range>, card: &Option<Card>) -> u32
        ensures count { result ≡ piece_count (painted cover.now card.now self.old.pool) }
        ensures same { self.new ≡ self.old }
    {
        self.is_whole();
        match (cover, card) {
            (Some(range), Some(card)) => self.pool.laid_count(range, card),
            _ => self.pool.len(),
        }
    }

    /// How many pieces there would be once the piece that holds the number was split before it.
    fn split_count(&mut self, at: Number) -> u32
        ensures count { result ≡ piece_count (reshaped (Split at) self.old.pool) }
        ensures same { self.new ≡ self.old }
    {
        self.pool.split_count(at)
    }

    fn register_full(&self, pieces: u32) -> Option<Refusal>
        ensures { result ≡ refuse_if (nat_lt self.now.rooms.pieces pieces) (RegisterFull pieces self.now.rooms.pieces) }
    {
        let room = self.rooms.pieces;
        Refusal::RegisterFull { pieces, room }.when(room < pieces)
    }

    fn holders_full(&self) -> Option<Refusal>
        ensures { result ≡ holders_full self.now }
    {
        let room = self.rooms.holders;
        Refusal::HoldersFull { room }.when(room as usize <= self.holders.len())
    }

    fn journal_full(&self) -> Option<Refusal>
        ensures { result ≡ journal_full self.now }
    {
        let entries = self.entries;
        Refusal::JournalFull { entries }.when(self.rooms.entries <= entries)
    }

    /// Why a request that the register knows how to do can't be done on a day with this cover and card, or nothing: its
    /// time hasn't come, there is no block, or there is no room. How many pieces there would be is found by writing them
    /// beside the register, which stays.
    pub fn late_refusal(
        &mut self,
        request: &Request,
        day: u32,
        cover: &Option<Range>,
        card: &Option<Card>,
    ) -> Option<Refusal>
        requires split { (at : PlainNumber) → request.now ≡ Split at → card.now ≡ None }
        ensures refusal { result ≡ first_of (late_rules self.old request.now day cover.now card.now) }
        ensures same { self.new ≡ self.old }
    {
        match request {
            Request::Receive { .. } | Request::Reserve { .. } => {
                let pieces = self.painted_count(cover, card);
                self.register_full(pieces).or_else(|| self.journal_full())
            }
            Request::AddHolder { .. } => self.holders_full().or_else(|| self.journal_full()),
            Request::Delegate { .. } => {
                let pieces = self.painted_count(cover, card);
                no_block(cover)
                    .or_else(|| self.register_full(pieces))
                    .or_else(|| self.journal_full())
            }
            Request::SubAssign { .. } => self.journal_full().or_else(|| self.subs_full()),
            Request::Return { range, .. } => {
                self.has_subs(range).or_else(|| self.journal_full())
            }
            Request::Release { range } => self.not_due(range, day).or_else(|| self.journal_full()),
            Request::Split { at } => {
                let pieces = self.split_count(*at);
                self.straddled(*at)
                    .or_else(|| self.register_full(pieces))
                    .or_else(|| self.journal_full())
            }
            Request::Transfer { range, .. } => {
                self.within_hold_time(range, day)
                    .or_else(|| self.journal_full())
            }
            Request::EditHolder { .. }
            | Request::Unreserve { .. }
            | Request::SubReturn { .. }
            | Request::Join { .. }
            | Request::ClearReverse { .. } => self.journal_full(),
            Request::SetReverse { range, .. } => no_reverse_space(range)
                .or_else(|| self.journal_full())
                .or_else(|| self.reverse_full(range)),
        }
    }
}
