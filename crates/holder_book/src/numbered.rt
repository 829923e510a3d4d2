ghost use Rattle.std.specs.Prelude.{◌≡◌, ◌<◌, ◌≤◌, [], ◌∷◌, ◌++◌, Some, length, slice_get, slice_set, IfOk};

use reg_entry::Holder;
use slot_pool::{Pool, Slot};
use std::alloc::{AllocError, Global};
use std::marker::Model;

/// The holders by their numbers, from 0, each with the day on which its fields were last given. They stand in a pool and
/// stay where they are: only their slots move.
#[derive(Drop)]
pub(crate) struct Numbered {
    pool: Pool<(Holder, u32)>,
    // Where they stand, by number.
    places: Vec<Slot>,
    room: u32,
}

impl Model for Numbered {
    ghost use Rattle.std.specs.Prelude.{vec_capacity};
    ghost use Rattle.holder_book.specs.Book.{PlainHolderBook};
    ghost use Rattle.holder_book.specs.Numbered.{ArePlaces, placed};

    ghost Value = { PlainHolderBook };

    ghost view = { λ n. record { holders = placed n.pool n.places.items; room = n.room } };

    ghost invariant = { λ n. ArePlaces n.pool n.places.items n.room (vec_capacity n.places) };
}

impl Numbered {
    /// No holders yet, and memory for as many as the room says.
    pub(crate) fn with_room(alloc: Global, room: u32) -> Result<Numbered, AllocError>
        ensures { IfOk result (λ numbered. numbered ≡ record { holders = []; room = room }) }
    {
        Ok(Numbered {
            pool: Pool::with_room(alloc, room)?,
            places: Vec::with_capacity(alloc, room as usize)?,
            room,
        })
    }

    /// How many holders there are.
    pub(crate) fn len(&self) -> u32
        ensures count { result ≡ length self.now.holders }
        ensures within { length self.now.holders ≤ self.now.room }
    {
        self.places.len() as u32
    }

    pub(crate) fn room(&self) -> u32
        ensures { result ≡ self.now.room }
    {
        self.room
    }

    /// The holder with this number, and its day.
    pub(crate) fn get(&self, number: u32) -> &(Holder, u32)
        requires { number < length self.now.holders }
        ensures { slice_get self.now.holders number ≡ Some result.now }
    {
        self.pool.get(&self.places[number as usize])
    }

    /// Adds a holder under the next number.
    pub(crate) fn push(&mut self, holder: &Holder, day: u32)
        requires { length self.old.holders < self.old.room }
        ensures holders { self.new.holders ≡ self.old.holders ++ (holder.now, day) ∷ [] }
        ensures room { self.new.room ≡ self.old.room }
    {
        match self.pool.take((*holder, day)) {
            Ok(slot) => self.places.push_reserved(slot),
            Err(_) => unreachable!(),
        }
    }

    /// Puts a holder in the place of the one with this number.
    pub(crate) fn set(&mut self, number: u32, holder: &Holder, day: u32)
        requires { number < length self.old.holders }
        ensures holders { self.new.holders ≡ slice_set self.old.holders number (holder.now, day) }
        ensures room { self.new.room ≡ self.old.room }
    {
        *self.pool.get_mut(&self.places[number as usize]) = (*holder, day);
    }
}
