//! The register of a list of entries, kept so that no request walks over all of it.
ghost use Rattle.std.specs.Prelude.{◌≡◌, ◌≤◌, ◌^◌, ◌==◌, ◌↔◌, ◌++◌, ◌∷◌, if◌then◌else◌, [], find, option_copied, IsSome, IfOk};
ghost use Rattle.reg_entry.specs.Rooms.{AreRooms};
ghost use Rattle.reg_laws.specs.Narrowest.{looked_up};

use crate::books::{change_holders, change_holdings, change_pieces, change_reverse, change_subs};
use crate::operations::Operations;
use holder_book::{HolderBook, HoldingBook};
use num_range::{Range, Space};
use op_feed::laws::{
    entries_reach_boards, next_changes, reached_boards_are_whole, reached_boards_number_operations,
};
use piece_book::PieceBook;
use reg_entry::{Entry, Found, Op, Piece, Rooms, Servers, SubCard};
use reg_laws::holders::next_entries_know_holders;
use reg_laws::narrowest::narrowest_is_looked_up;
use reg_laws::reached::{
    entries_reach_registers, last_cards_change_inside_covers, reached_registers_are_whole,
    reached_registers_conserve, reached_registers_count,
};
use reg_laws::reverses::next_entries_fit_reverses;
use reg_laws::subs::next_entries_fit_subs;
use std::alloc::{AllocError, Global};
use std::marker::Model;
use sub_book::RangeBook;

/// The register after the entries so far.
pub struct Board {
    pieces: PieceBook,
    holders: HolderBook,
    subs: RangeBook<SubCard>,
    reverse: RangeBook<Servers>,
    holdings: HoldingBook,
    rooms: Rooms,
    entries: u64,
    first_day: u32,
    last_day: u32,
    operations: Operations,
}

impl Model for Board {
    ghost use Rattle.reg_entry.specs.Operations.{PlainBoard};
    ghost use Rattle.board.specs.Kept.{register_of, board_of, IsKeptBoard};

    ghost Value = { PlainBoard };

    ghost view = { λ b. board_of (register_of b.rooms b.entries b.first_day b.last_day b.pieces b.holders b.subs b.reverse) b.operations };

    ghost invariant = { λ b. IsKeptBoard (register_of b.rooms b.entries b.first_day b.last_day b.pieces b.holders b.subs b.reverse) b.pieces.room b.holders.room b.subs.room b.reverse.room b.holdings b.operations };
}

/// All the books go. It is written out, since whoever lets a board go would have to prove a derived one again.
impl Drop for Board {
    fn drop(self) {
        let Board {
            pieces: _pieces,
            holders: _holders,
            subs: _subs,
            reverse: _reverse,
            holdings: _holdings,
            rooms: _rooms,
            entries: _entries,
            first_day: _first_day,
            last_day: _last_day,
            operations: _operations,
        } = self;
    }
}

/// The day of the first entry, once there was one more on a day.
fn first_day_after(entries: u64, first_day: u32, day: u32) -> u32
    ensures { result ≡ (if entries == 0 then day else first_day) }
{
    if entries == 0 { day } else { first_day }
}

/// What is found of the sub that the range lies inside, and of the piece that holds its first number.
fn found(range: &Range, sub: Option<(Range, SubCard)>, piece: Option<Piece>) -> Option<Found>
    ensures { result ≡ looked_up range.now sub piece }
{
    let piece = piece?;
    if let Some((sub, card)) = sub {
        let parent = piece.range;
        return Some(Found::Sub {
            range: sub,
            card,
            parent,
        });
    }
    if piece.card.status.is_delegated() && range.inside(&piece.range) {
        Some(Found::Piece(piece))
    } else {
        None
    }
}

impl Board {
    ghost use Rattle.reg_entry.specs.Register.{after_entry};
    ghost use Rattle.reg_entry.specs.Operations.{empty_board, board_after_entry};
    ghost use Rattle.op_feed.specs.ReachedBoard.{IsReachedBoard, first_kept};
    ghost use Rattle.num_range.specs.Range.{IsRange};
    ghost use Rattle.reg_entry.specs.Sums.{held, allocated, used, narrowest};
    ghost use Rattle.reg_entry.specs.Next.{IsNextEntry};
    ghost use Rattle.reg_entry.specs.Whole.{IsWhole, IsWholeRegister};
    ghost use Rattle.std.specs.Prelude.{List};
    ghost use Rattle.reg_entry.specs.Entry.{PlainEntry};
    ghost use Rattle.board.specs.Conserved.{IsConservedBy, ChangesCards};
    ghost use Rattle.reg_laws.specs.Reached.{IsReached, IsRegisterOf};

    /// The register of no entry. Making it takes memory, and nothing after that does.
    pub fn with_room(alloc: Global, rooms: Rooms) -> Result<Board, AllocError>
        requires { AreRooms rooms }
        ensures { IfOk result (λ board. board ≡ empty_board rooms) }
    {
        // The books that own most come last, since a want of memory gives back what stands before.
        let operations = Operations::with_window(alloc, rooms.window)?;
        let holdings = HoldingBook::with_room(alloc, rooms.holders)?;
        let subs = RangeBook::with_room(alloc, rooms.subs)?;
        let reverse = RangeBook::with_room(alloc, rooms.reverse)?;
        let holders = HolderBook::with_room(alloc, rooms.holders)?;
        let pieces = PieceBook::with_room(alloc, rooms.pieces)?;
        Ok(Board {
            pieces,
            holders,
            subs,
            reverse,
            holdings,
            rooms,
            entries: 0,
            first_day: 0,
            last_day: 0,
            operations,
        })
    }

    /// Takes in the next entry, whose operations follow those before. Where legal entries gave the register, they and this
    /// one give the new one; of each number that lies outside the entry's cover the last card stays, and of every number
    /// where the entry cuts or joins pieces.
    pub fn apply(&mut self, e: &Entry)
        requires next { IsNextEntry self.old.register e.now }
        ensures register { self.new.register ≡ after_entry self.old.register e.now }
        ensures board { self.new ≡ board_after_entry self.old e.now }
        ensures entries { (es : List PlainEntry) → IsRegisterOf self.old.register es
            → IsRegisterOf self.new.register (es ++ e.now ∷ []) × ChangesCards es e.now }
    {
        // Laws, for `entries`.
        entries_reach_registers();
        last_cards_change_inside_covers();
        self.approach(e);
        self.take_in(e);
    }

    /// Says to the pieces where the entry's cover begins, since all that the entry asks of them and changes lies there.
    fn approach(&mut self, e: &Entry)
        ensures { self.new ≡ self.old }
    {
        if let Some(range) = &e.cover {
            self.pieces.approach(range.first_number());
        }
    }

    /// Changes the books as the entry says, and notes its operations.
    fn take_in(&mut self, e: &Entry)
        requires next { IsNextEntry self.old.register e.now }
        ensures { self.new ≡ board_after_entry self.old e.now }
    {
        // Laws: what the next entry asks of the books, what it changes, and what it keeps.
        entries_reach_registers();
        reached_registers_are_whole();
        next_entries_know_holders();
        next_entries_fit_subs();
        next_entries_fit_reverses();
        entries_reach_boards();
        reached_boards_are_whole();
        reached_boards_number_operations();
        next_changes();
        change_holdings(&mut self.holdings, &self.pieces, &self.subs, e);
        let touched = change_pieces(&mut self.pieces, e);
        self.operations
            .note_entry(&self.holders, &self.subs, &self.reverse, e, &touched);
        change_reverse(&mut self.reverse, &e.request);
        change_subs(&mut self.subs, &self.holders, e);
        change_holders(&mut self.holders, e);
        self.first_day = first_day_after(self.entries, self.first_day, e.day);
        self.last_day = e.day;
        self.entries += 1;
    }

    /// The serials of the first and the last operation that is kept. Where none is, the first is the one behind the last:
    /// (1, 0) before any operation.
    pub fn kept(&self) -> (u64, u64)
        ensures first { result.0 ≡ first_kept self.now }
        ensures last { result.1 ≡ self.now.serial }
    {
        // A law: the serials are within their type.
        reached_boards_number_operations();
        self.operations.serials()
    }

    /// The operation of this serial, or nothing where it isn't kept.
    pub fn op(&self, serial: u64) -> Option<Op>
        ensures found { result ≡ find (λ op. op.serial == serial) self.now.kept }
        ensures kept { IsSome result ↔ ((first_kept self.now ≤ serial) × (serial ≤ self.now.serial)) }
    {
        // A law: the serials count up by one.
        reached_boards_number_operations();
        self.keeps_operations();
        let (first, _) = self.kept();
        if serial < first {
            return None;
        }
        self.operations.at(serial - first)
    }

    /// How many numbers of the space are delegated to the holder of this number: 0 where there is no such holder.
    pub fn held(&self, holder: u32, space: Space) -> u128
        ensures { result ≡ held self.now.register holder space }
    {
        self.holdings.held(holder, space)
    }

    /// How many of these are allocated, so that the holder makes sub-assignments in them.
    pub fn allocated(&self, holder: u32, space: Space) -> u128
        ensures { result ≡ allocated self.now.register holder space }
    {
        self.holdings.allocated(holder, space)
    }

    /// How many of these are used: the numbers of the subs in them, whoever holds the subs.
    pub fn used(&self, holder: u32, space: Space) -> u128
        ensures { result ≡ used self.now.register holder space }
    {
        self.holdings.used(holder, space)
    }

    /// Of the delegated pieces and the subs that have all numbers of the range, the one of least size, and the sub where two
    /// have one size (RFC 9082 3.1.1). It is one look-up in the subs and one in the pieces.
    pub fn narrow(&self, range: &Range) -> Option<Found>
        ensures { result ≡ narrowest self.now.register range.now }
    {
        // A law: this is what is found so.
        narrowest_is_looked_up();
        self.is_whole();
        let _first = range.first();
        found(
            range,
            self.subs.enclosing(range),
            self.pieces.piece_at(range.first_number()),
        )
    }

    /// The pieces of the three spaces.
    pub fn pieces(&self) -> &PieceBook
        ensures pool { result.now.partition ≡ self.now.register.pool }
        ensures room { result.now.room ≡ self.now.register.rooms.pieces }
    {
        &self.pieces
    }

    /// The holders, by their numbers and by their handles.
    pub fn holders(&self) -> &HolderBook
        ensures holders { result.now.holders ≡ self.now.register.holders }
        ensures room { result.now.room ≡ self.now.register.rooms.holders }
    {
        &self.holders
    }

    /// The sub-assignments, by their ranges.
    pub fn subs(&self) -> &RangeBook<SubCard>
        ensures subs { result.now.ranges ≡ self.now.register.subs }
        ensures room { result.now.room ≡ self.now.register.rooms.subs }
    {
        &self.subs
    }

    /// The reverse entries, by their ranges.
    pub fn reverse(&self) -> &RangeBook<Servers>
        ensures reverses { result.now.ranges ≡ self.now.register.reverses }
        ensures room { result.now.room ≡ self.now.register.rooms.reverse }
    {
        &self.reverse
    }

    /// How many entries there are.
    pub fn entries(&self) -> u64
        ensures entries { result ≡ self.now.register.entries }
        ensures bound { result ≤ 2 ^ 26 }
    {
        self.is_whole();
        self.entries
    }

    /// Tells callers what every board keeps: its register is that of a legal list of entries, and so it is whole in all its
    /// parts.
    pub fn is_whole(&self)
        ensures reached { IsReached self.now.register }
        ensures whole { IsWholeRegister self.now.register }
        ensures rooms { AreRooms self.now.register.rooms }
    {
        // A law, for `whole`.
        reached_registers_are_whole();
        let _ = &self.rooms;
    }

    /// Tells callers that the board is that of a legal list of entries, with the last of their operations, and so it is whole.
    pub fn keeps_operations(&self)
        ensures reached { IsReachedBoard self.now }
        ensures whole { IsWhole self.now }
    {
        // A law, for `whole`.
        reached_boards_are_whole();
        let _ = &self.rooms;
    }

    /// Tells callers that no number is lost or held twice: the register is that of a legal list of entries; each number has
    /// the card of the last entry that painted it and lies in just one piece, or in none where none painted it; the numbers
    /// that lie in a piece are those that were received, and each space has just as many.
    pub fn conserves_numbers(&self)
        ensures { (es : List PlainEntry) × IsConservedBy self.now.register es }
    {
        // Laws.
        reached_registers_conserve();
        reached_registers_count();
        let _ = &self.rooms;
    }

    /// The day of the first entry, or 0 where there is none.
    pub fn first_day(&self) -> u32
        ensures { result ≡ self.now.register.first_day }
    {
        self.first_day
    }

    /// The day of the last entry, or 0 where there is none.
    pub fn last_day(&self) -> u32
        ensures { result ≡ self.now.register.last_day }
    {
        self.last_day
    }

    /// How much the register may keep.
    pub fn rooms(&self) -> Rooms
        ensures rooms { result ≡ self.now.register.rooms }
        ensures bounds { AreRooms self.now.register.rooms }
    {
        self.rooms
    }
}
