ghost use Rattle.std.specs.Prelude.{◌≡◌, ◌+◌, None, Some, length, replicate, IfOk, IfErr, OnErr, slice_set};
ghost use Rattle.std.specs.Borrow.{sem};
ghost use Rattle.slot_pool.specs.Cells.{IsLive, IsVacant, held, spare};
ghost use Rattle.slot_pool.specs.Lending.{lends_value};

use crate::Slot;
use std::alloc::{AllocError, Global};
use std::marker::Model;

/// Places for a fixed number of values. Making one takes memory, and nothing after that does; what is taken isn't touched
/// before a value is placed there.
#[derive(Drop)]
pub struct Pool<T> {
    // The cells that were ever used, in reserved memory.
    cells: Vec<Option<T>>,
    // The slots of those that are vacant again.
    waiting: Vec<Slot>,
    room: u32,
}

impl<T> Model for Pool<T> {
    ghost use Rattle.std.specs.Prelude.{List, Option, vec_capacity};
    ghost use Rattle.slot_pool.specs.Stack.{IsPool, with_unused};

    ghost Value = { List (Option T) };

    ghost view = { λ p. with_unused p.cells.items p.room };

    ghost invariant = { λ p. IsPool p.cells.items p.waiting.items p.room (vec_capacity p.cells) (vec_capacity p.waiting) };
}

impl<T: Drop> Pool<T> {
    /// A pool of so many places, all of them vacant.
    pub fn with_room(alloc: Global, room: u32) -> Result<Pool<T>, AllocError>
        ensures { IfOk result (λ pool. pool ≡ replicate room None) }
    {
        Ok(Pool {
            cells: Vec::with_capacity(alloc, room as usize)?,
            waiting: Vec::with_capacity(alloc, room as usize)?,
            room,
        })
    }

    /// Places the value, and says where; where no place is vacant it gives the value back.
    pub fn take(&mut self, value: T) -> Result<Slot, T>
        ensures vacant { IfOk result (λ slot. IsVacant self.old slot) }
        ensures placed { IfOk result (λ slot. held self.new slot ≡ Some value) }
        ensures taken { IfOk result (λ slot. self.new ≡ slice_set self.old slot (Some value)) }
        ensures count { IfOk result (λ _. spare self.new + 1 ≡ spare self.old) }
        ensures back { IfErr result (λ back. back ≡ value) }
        ensures full { OnErr result (spare self.old ≡ 0) }
        ensures err { OnErr result (self.new ≡ self.old) }
    {
        match self.waiting.pop() {
            Some(slot) => {
                self.cells[slot.index as usize] = Some(value);
                Ok(slot)
            }
            None if self.cells.len() < self.room as usize => {
                let index = self.cells.len() as u32;
                self.cells.push_reserved(Some(value));
                Ok(Slot { index })
            }
            None => Err(value),
        }
    }

    /// Takes the value out of its place, which is vacant then.
    pub fn give(&mut self, slot: &Slot) -> T
        requires { IsLive self.old slot.now }
        ensures value { held self.old slot.now ≡ Some result }
        ensures given { self.new ≡ slice_set self.old slot.now None }
        ensures count { spare self.new ≡ spare self.old + 1 }
    {
        let Some(value) = self.cells[slot.index as usize].take() else {
            unreachable!()
        };
        match self.waiting.push(*slot) {
            Ok(()) => value,
            Err(_) => unreachable!(),
        }
    }

    /// The value at a slot.
    pub fn get(&self, slot: &Slot) -> &T
        requires { IsLive self.now slot.now }
        ensures { held self.now slot.now ≡ Some result.now }
    {
        match &self.cells[slot.index as usize] {
            None => unreachable!(),
            Some(value) => value,
        }
    }

    /// The value at a slot, to be changed in its place.
    pub fn get_mut(&mut self, slot: &Slot) -> &mut T
        requires { IsLive self.old slot.now }
        ensures* writes_back { sem 𝓛 (lends_value T.row self.entry slot.now result) }
        ensures value { held self.old slot.now ≡ Some result.now }
    {
        match &mut self.cells[slot.index as usize] {
            None => unreachable!(),
            Some(value) => value,
        }
    }

    /// How many values more there is a place for.
    pub fn spare(&self) -> u32
        ensures { result ≡ spare self.now }
    {
        self.waiting.len() as u32 + (self.room - self.cells.len() as u32)
    }
}
