//! The pieces of the three spaces, each in a vector.
ghost use Rattle.std.specs.Prelude.{◌≡◌, ◌+◌, ◌^◌, ◌≤◌, List, Some, length, IfOk, IsSome};
ghost use Rattle.reg_entry.specs.declared.card.Card.{Card};
ghost use Rattle.reg_entry.specs.declared.piece.Piece.{Piece};
ghost use Rattle.reg_entry.specs.declared.request.Request.TheVariants.{Split, Join};
ghost use Rattle.reg_entry.specs.Partition.{empty_partition, pieces_in, with_pieces, piece_count, IsPartition};
ghost use Rattle.reg_entry.specs.Register.{painted, reshaped, pool_after};

use crate::laying::{join, laid_count, lay, split, split_count};
use num_range::{Number, Range, Space};
use reg_entry::{Card, Entry, Piece, Request};
use std::alloc::{AllocError, Global};
use std::marker::Model;

/// The pieces of the three spaces. Making one takes memory, and nothing after that does.
#[derive(Drop)]
pub(crate) struct Pool {
    asn: Vec<Piece>,
    ipv4: Vec<Piece>,
    ipv6: Vec<Piece>,
    // What is left of the pieces of a space while they change.
    parts: Vec<Piece>,
    room: u32,
}

impl Model for Pool {
    ghost use Rattle.std.specs.Prelude.{vec_capacity};
    ghost use Rattle.plain_register.specs.Pool.{PlainPool, IsReserved};

    ghost Value = { PlainPool };

    ghost view = { λ p. record { partition = record { asn = p.asn.items; ipv4 = p.ipv4.items; ipv6 = p.ipv6.items }; room = p.room } };

    ghost invariant = { λ p. IsReserved (record { partition = record { asn = p.asn.items; ipv4 = p.ipv4.items; ipv6 = p.ipv6.items }; room = p.room }) (vec_capacity p.asn) (vec_capacity p.ipv4) (vec_capacity p.ipv6) (vec_capacity p.parts) };
}

impl Pool {
    /// No pieces, and memory for as many as the room says in all.
    pub(crate) fn with_room(alloc: Global, room: u32) -> Result<Pool, AllocError>
        requires { room ≤ 2 ^ 30 }
        ensures { IfOk result (λ pool. pool ≡ record { partition = empty_partition; room = room }) }
    {
        let most = 2 * room as usize + 1;
        Ok(Pool {
            asn: Vec::with_capacity(alloc, most)?,
            ipv4: Vec::with_capacity(alloc, most)?,
            ipv6: Vec::with_capacity(alloc, most)?,
            parts: Vec::with_capacity(alloc, most)?,
            room,
        })
    }

    /// The pieces of a space.
    pub(crate) fn in_space(&self, space: Space) -> &[Piece]
        ensures { result.now ≡ pieces_in self.now.partition space }
    {
        match space {
            Space::Asn => &self.asn,
            Space::Ipv4 => &self.ipv4,
            Space::Ipv6 => &self.ipv6,
        }
    }

    /// How many pieces there are in the other spaces.
    fn elsewhere(&self, space: Space) -> usize
        ensures count { (ps : List Piece) → piece_count (with_pieces self.now.partition space ps) ≡ result + length ps }
        ensures bound { result + length (pieces_in self.now.partition space) ≤ 2 ^ 30 }
    {
        match space {
            Space::Asn => self.ipv4.len() + self.ipv6.len(),
            Space::Ipv4 => self.asn.len() + self.ipv6.len(),
            Space::Ipv6 => self.asn.len() + self.ipv4.len(),
        }
    }

    /// How many pieces there are in all.
    pub(crate) fn len(&self) -> u32
        ensures count { result ≡ piece_count self.now.partition }
        ensures within { piece_count self.now.partition ≤ self.now.room }
    {
        (self.asn.len() + self.ipv4.len() + self.ipv6.len()) as u32
    }

    /// How many pieces there would be in all once the card was painted over the range. The parts are written beside the
    /// pieces, which stay.
    pub(crate) fn laid_count(&mut self, range: &Range, card: &Card) -> u32
        requires pieces { IsPartition self.old.partition }
        ensures count { result ≡ piece_count (painted (Some range.now) (Some card.now) self.old.partition) }
        ensures same { self.new ≡ self.old }
    {
        let elsewhere = self.elsewhere(range.space());
        let count = match range.space() {
            Space::Asn => laid_count(&self.asn, &mut self.parts, range, card),
            Space::Ipv4 => laid_count(&self.ipv4, &mut self.parts, range, card),
            Space::Ipv6 => laid_count(&self.ipv6, &mut self.parts, range, card),
        };
        (elsewhere + count) as u32
    }

    /// How many pieces there would be in all once the piece that holds the number was split before it.
    pub(crate) fn split_count(&mut self, at: Number) -> u32
        ensures count { result ≡ piece_count (reshaped (Split at) self.old.partition) }
        ensures same { self.new ≡ self.old }
    {
        let elsewhere = self.elsewhere(at.space());
        let count = match at.space() {
            Space::Asn => split_count(&self.asn, &mut self.parts, at.value()),
            Space::Ipv4 => split_count(&self.ipv4, &mut self.parts, at.value()),
            Space::Ipv6 => split_count(&self.ipv6, &mut self.parts, at.value()),
        };
        (elsewhere + count) as u32
    }

    /// Paints the card over the range.
    fn lay(&mut self, range: &Range, card: &Card)
        requires pieces { IsPartition self.old.partition }
        requires room { piece_count (painted (Some range.now) (Some card.now) self.old.partition) ≤ self.old.room }
        ensures pieces { self.new.partition ≡ painted (Some range.now) (Some card.now) self.old.partition }
        ensures room { self.new.room ≡ self.old.room }
    {
        match range.space() {
            Space::Asn => lay(&mut self.asn, &mut self.parts, range, card),
            Space::Ipv4 => lay(&mut self.ipv4, &mut self.parts, range, card),
            Space::Ipv6 => lay(&mut self.ipv6, &mut self.parts, range, card),
        }
    }

    /// Splits or joins pieces, where the request says so.
    fn reshape(&mut self, request: &Request)
        requires pieces { IsPartition self.old.partition }
        requires room { piece_count (reshaped request.now self.old.partition) ≤ self.old.room }
        ensures pieces { self.new.partition ≡ reshaped request.now self.old.partition }
        ensures room { self.new.room ≡ self.old.room }
    {
        match request {
            Request::Split { at } => self.split(*at),
            Request::Join { at } => self.join(*at),
            Request::Receive { .. }
            | Request::AddHolder { .. }
            | Request::EditHolder { .. }
            | Request::Delegate { .. }
            | Request::Reserve { .. }
            | Request::Unreserve { .. }
            | Request::SubAssign { .. }
            | Request::SubReturn { .. }
            | Request::Return { .. }
            | Request::Release { .. }
            | Request::Transfer { .. }
            | Request::SetReverse { .. }
            | Request::ClearReverse { .. } => {}
        }
    }

    /// Splits the piece that holds the number before it.
    fn split(&mut self, at: Number)
        requires room { piece_count (reshaped (Split at) self.old.partition) ≤ self.old.room }
        ensures pieces { self.new.partition ≡ reshaped (Split at) self.old.partition }
        ensures room { self.new.room ≡ self.old.room }
    {
        match at.space() {
            Space::Asn => split(&mut self.asn, &mut self.parts, at.value()),
            Space::Ipv4 => split(&mut self.ipv4, &mut self.parts, at.value()),
            Space::Ipv6 => split(&mut self.ipv6, &mut self.parts, at.value()),
        }
    }

    /// Joins the piece that begins at the number with the one before it.
    fn join(&mut self, at: Number)
        requires pieces { IsPartition self.old.partition }
        requires room { piece_count (reshaped (Join at) self.old.partition) ≤ self.old.room }
        ensures pieces { self.new.partition ≡ reshaped (Join at) self.old.partition }
        ensures room { self.new.room ≡ self.old.room }
    {
        match at.space() {
            Space::Asn => join(&mut self.asn, at.value()),
            Space::Ipv4 => join(&mut self.ipv4, at.value()),
            Space::Ipv6 => join(&mut self.ipv6, at.value()),
        }
    }

    /// Changes the pieces as the entry says: it paints its card over its cover, or reshapes them.
    pub(crate) fn change(&mut self, e: &Entry)
        requires pieces { IsPartition self.old.partition }
        requires alone { (c : Card) → e.now.card ≡ Some c → reshaped e.now.request self.old.partition ≡ self.old.partition }
        requires cover { (c : Card) → e.now.card ≡ Some c → IsSome e.now.cover }
        requires room { piece_count (pool_after e.now.request e.now.cover e.now.card self.old.partition) ≤ self.old.room }
        ensures pieces { self.new.partition ≡ pool_after e.now.request e.now.cover e.now.card self.old.partition }
        ensures room { self.new.room ≡ self.old.room }
    {
        match (&e.cover, &e.card) {
            (Some(range), Some(card)) => self.lay(range, card),
            _ => self.reshape(&e.request),
        }
    }
}
