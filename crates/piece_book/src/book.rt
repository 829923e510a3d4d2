ghost use Rattle.std.specs.Prelude.{◌≡◌, ◌+◌, ◌^◌, ◌<◌, ◌≤◌, nat_lt, cond, List, None, Some, length, IfOk};
ghost use Rattle.std.specs.Option.{option_map};
ghost use Rattle.reg_entry.specs.declared.card.Card.{Card};
ghost use Rattle.reg_entry.specs.declared.piece.Piece.{Piece};
ghost use Rattle.reg_entry.specs.Pieces.{ArePieces, IsCard, IsInOnePieceOrNone, IsPoolRange, piece_at, first_met, overlap, laid};
ghost use Rattle.reg_entry.specs.Reshaping.{CanJoinAt, joined_at, split_at_number};
ghost use Rattle.reg_entry.specs.Sums.{status_sum};
ghost use Rattle.reg_entry.specs.Partition.{empty_partition, pieces_in, with_pieces, piece_count, IsPartition};
ghost use Rattle.piece_book.specs.Cutting.{IsSplitPlace};
ghost use Rattle.piece_book.specs.Exchange.{exchanged, place_of};
ghost use Rattle.piece_book.specs.Free.{IsIndexOf};
ghost use Rattle.piece_book.specs.Pairs.{pieces_of_pairs};
ghost use Rattle.piece_book.specs.Touched.{IsTouched};

use crate::free::FreeIndex;
use crate::painting::{count_after, paint};
use crate::parting::{made_one, parted};
use crate::space_book::SpaceBook;
use crate::touched::nothing_touched;
use crate::{Part, PieceWalk};
use num_range::{Number, Range, Space};
use page_dir::PageDir;
use reg_entry::{Card, Piece, Status, Touched};
use std::alloc::{AllocError, Global};
use std::marker::Model;

/// The pieces of the three spaces. Making one takes memory, and nothing after that does.
pub struct PieceBook {
    asn: SpaceBook,
    ipv4: SpaceBook,
    ipv6: SpaceBook,
    // Of their available pieces.
    free: FreeIndex,
    room: u32,
}

impl Model for PieceBook {
    ghost use Rattle.piece_book.specs.Book.{PlainBook};
    ghost use Rattle.piece_book.specs.Room.{IsIndexedBook, partition_of};

    ghost Value = { PlainBook };

    ghost view = { λ b. record { partition = partition_of b.asn b.ipv4 b.ipv6; room = b.room } };

    ghost invariant = { λ b. IsIndexedBook b.asn b.ipv4 b.ipv6 b.free b.room };
}

/// The spaces and the index go. It is written out, as a directory's is.
impl Drop for PieceBook {
    fn drop(self) {
        let PieceBook {
            asn: _asn,
            ipv4: _ipv4,
            ipv6: _ipv6,
            free: _free,
            room: _room,
        } = self;
    }
}

impl PieceBook {
    /// A book without pieces, for as many as the room says in all.
    pub fn with_room(alloc: Global, room: u32) -> Result<PieceBook, AllocError>
        requires least { 1 ≤ room }
        requires most { room ≤ 2 ^ 30 }
        ensures { IfOk result (λ book. book ≡ record { partition = empty_partition; room = room }) }
    {
        Ok(PieceBook {
            asn: SpaceBook::with_room(alloc, Space::Asn, room)?,
            ipv4: SpaceBook::with_room(alloc, Space::Ipv4, room)?,
            ipv6: SpaceBook::with_room(alloc, Space::Ipv6, room)?,
            free: FreeIndex::with_room(alloc, room)?,
            room,
        })
    }

    fn in_space(&self, space: Space) -> &SpaceBook
        ensures pieces { result.now.pieces ≡ pieces_in self.now.partition space }
        ensures space { result.now.space ≡ space }
        ensures valid { ArePieces space result.now.pieces }
    {
        match space {
            Space::Asn => &self.asn,
            Space::Ipv4 => &self.ipv4,
            Space::Ipv6 => &self.ipv6,
        }
    }

    /// The pieces of a space, each under its first number.
    pub fn directory(&self, space: Space) -> &PageDir<u128, Part>
        ensures { pieces_of_pairs space result.now.pairs ≡ pieces_in self.now.partition space }
    {
        self.in_space(space).directory()
    }

    /// The index of the available pieces, by the blocks that they have room for.
    pub fn free_blocks(&self) -> &FreeIndex
        ensures index { IsIndexOf result.now.keys self.now.partition }
        ensures valid { IsPartition self.now.partition }
    {
        &self.free
    }

    /// How many pieces there are in the other spaces.
    fn elsewhere(&self, space: Space) -> u32
        ensures count { (ps : List Piece) → piece_count (with_pieces self.now.partition space ps) ≡ result + length ps }
        ensures bound { result + length (pieces_in self.now.partition space) ≤ 2 ^ 30 }
    {
        match space {
            Space::Asn => self.ipv4.len() + self.ipv6.len(),
            Space::Ipv4 => self.asn.len() + self.ipv6.len(),
            Space::Ipv6 => self.asn.len() + self.ipv4.len(),
        }
    }

    /// Tells callers what every book keeps: the pieces of each space are pieces of it, and no more than there is room for.
    pub fn are_pieces(&self)
        ensures pieces { IsPartition self.now.partition }
        ensures within { piece_count self.now.partition ≤ self.now.room }
        ensures bound { self.now.room ≤ 2 ^ 30 }
    {
        let _ = &self.room;
    }

    /// How many pieces there are in all.
    pub fn pieces(&self) -> u32
        ensures count { result ≡ piece_count self.now.partition }
        ensures within { piece_count self.now.partition ≤ self.now.room }
        ensures valid { IsPartition self.now.partition }
    {
        self.asn.len() + self.ipv4.len() + self.ipv6.len()
    }

    /// How many pieces there may be in all.
    pub fn room(&self) -> u32
        ensures room { result ≡ self.now.room }
        ensures within { piece_count self.now.partition ≤ self.now.room }
    {
        self.room
    }

    /// The piece that holds the number, or nothing where the number isn't in the pool.
    pub fn piece_at(&self, n: Number) -> Option<Piece>
        ensures { result ≡ piece_at (pieces_in self.now.partition n.space) n.value }
    {
        self.in_space(n.space()).piece_at(n.value())
    }

    /// The first piece that has a number in common with the range.
    pub fn first_met(&self, range: &Range) -> Option<Piece>
        ensures { result ≡ first_met (pieces_in self.now.partition range.now.space) range.now }
    {
        self.in_space(range.space())
            .first_between(range.first(), range.last())
    }

    /// The least number of the range that the pool has.
    pub fn overlap(&self, range: &Range) -> Option<Number>
        ensures { result ≡ option_map (λ v. record { space = range.now.space; value = v })
            (overlap (pieces_in self.now.partition range.now.space) range.now) }
    {
        let (first, last) = (range.first(), range.last());
        let piece = self.in_space(range.space()).first_between(first, last)?;
        Some(Number::of(range.space(), first.max(piece.range.first())))
    }

    /// How many pieces there would be in all once a card of the status was laid over the range.
    pub fn pieces_after(&self, range: &Range, status: Status) -> u32
        ensures { (c : Card) → c.status ≡ status
            → result ≡ piece_count (with_pieces self.now.partition range.now.space (laid (pieces_in self.now.partition range.now.space) range.now c)) }
    {
        let count = count_after(self.in_space(range.space()), range, status);
        self.elsewhere(range.space()) + count
    }

    /// How many pieces there would be in all once a card of the status was laid over the range, where there is no room for so
    /// many. A card makes two pieces more at most, so they are counted only where the room is nearly taken.
    pub fn overflow(&self, range: &Range, status: Status) -> Option<u32>
        ensures { (c : Card) → c.status ≡ status → result ≡ cond
            (nat_lt self.now.room (piece_count (with_pieces self.now.partition range.now.space (laid (pieces_in self.now.partition range.now.space) range.now c))))
            (Some (piece_count (with_pieces self.now.partition range.now.space (laid (pieces_in self.now.partition range.now.space) range.now c)))) None }
    {
        self.are_pieces();
        let _first = range.first();
        if self.pieces() + 2 <= self.room {
            return None;
        }
        let count = self.pieces_after(range, status);
        if self.room < count { Some(count) } else { None }
    }

    /// Says that what stands near this number is asked for and changed next, which spares searches. It changes nothing.
    pub fn approach(&mut self, at: Number)
        ensures { self.new ≡ self.old }
    {
        match at.space() {
            Space::Asn => self.asn.approach(at.value()),
            Space::Ipv4 => self.ipv4.approach(at.value()),
            Space::Ipv6 => self.ipv6.approach(at.value()),
        }
    }

    /// In one space the pieces that go give way to those that come.
    fn exchange(&mut self, space: Space, change: &Touched)
        requires there { place_of change.now.after.items (pieces_in self.old.partition space) + length change.now.before.items
            ≤ length (pieces_in self.old.partition space) }
        requires pieces { ArePieces space (exchanged change.now.before.items change.now.after.items (pieces_in self.old.partition space)) }
        requires room { piece_count (with_pieces self.old.partition space
            (exchanged change.now.before.items change.now.after.items (pieces_in self.old.partition space))) ≤ self.old.room }
        requires touched { IsTouched (pieces_in self.old.partition space)
            (exchanged change.now.before.items change.now.after.items (pieces_in self.old.partition space))
            change.now.before.items change.now.after.items }
        ensures pieces { self.new.partition ≡ with_pieces self.old.partition space
            (exchanged change.now.before.items change.now.after.items (pieces_in self.old.partition space)) }
        ensures room { self.new.room ≡ self.old.room }
    {
        self.free.exchange(change);
        match space {
            Space::Asn => self.asn.exchange(change),
            Space::Ipv4 => self.ipv4.exchange(change),
            Space::Ipv6 => self.ipv6.exchange(change),
        }
    }

    /// Paints the card over the range, and joins the available pieces that touch then.
    pub fn lay(&mut self, range: &Range, card: &Card) -> Touched
        requires one { IsInOnePieceOrNone (pieces_in self.old.partition range.now.space) range.now }
        requires pooled { IsPoolRange range.now }
        requires plain { IsCard card.now }
        requires room { piece_count (with_pieces self.old.partition range.now.space (laid (pieces_in self.old.partition range.now.space) range.now card.now)) ≤ self.old.room }
        ensures pieces { self.new.partition ≡ with_pieces self.old.partition range.now.space (laid (pieces_in self.old.partition range.now.space) range.now card.now) }
        ensures room { self.new.room ≡ self.old.room }
        ensures touched { IsTouched (pieces_in self.old.partition range.now.space) (pieces_in self.new.partition range.now.space)
            result.before.items result.after.items }
    {
        let space = range.space();
        let mut touched = nothing_touched();
        paint(self.in_space(space), range, card, &mut touched);
        self.exchange(space, &touched);
        touched
    }

    /// Parts the piece that holds the number in two, before the number.
    pub fn split(&mut self, at: Number) -> Touched
        requires place { IsSplitPlace (pieces_in self.old.partition at.space) at.value }
        requires room { piece_count self.old.partition < self.old.room }
        ensures pieces { self.new.partition ≡ with_pieces self.old.partition at.space
            (split_at_number (pieces_in self.old.partition at.space) at.value) }
        ensures room { self.new.room ≡ self.old.room }
        ensures touched { IsTouched (pieces_in self.old.partition at.space) (pieces_in self.new.partition at.space)
            result.before.items result.after.items }
    {
        let touched = parted(self.in_space(at.space()), at.value());
        self.exchange(at.space(), &touched);
        touched
    }

    /// Makes one of the piece that begins at the number and the one before it.
    pub fn join(&mut self, at: Number) -> Touched
        requires { CanJoinAt (pieces_in self.old.partition at.space) at.value }
        ensures pieces { self.new.partition ≡ with_pieces self.old.partition at.space
            (joined_at (pieces_in self.old.partition at.space) at.value) }
        ensures room { self.new.room ≡ self.old.room }
        ensures touched { IsTouched (pieces_in self.old.partition at.space) (pieces_in self.new.partition at.space)
            result.before.items result.after.items }
    {
        self.are_pieces();
        let touched = made_one(self.in_space(at.space()), at.value());
        self.exchange(at.space(), &touched);
        touched
    }

    /// How many numbers of the space have the status.
    pub fn sum(&self, space: Space, status: Status) -> u128
        ensures { result ≡ status_sum (pieces_in self.now.partition space) status }
    {
        self.in_space(space).sum(status)
    }

    /// The pieces of a space, rising.
    pub fn walk(&self, space: Space) -> PieceWalk<'_>
        ensures pieces { result ≡ pieces_in self.now.partition space }
        ensures valid { ArePieces space result }
    {
        self.in_space(space).walk()
    }
}
