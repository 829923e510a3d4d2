ghost use Rattle.std.specs.Prelude.{◌≡◌, ◌≢◌, ℕ, ◌+◌, ◌-◌, ◌*◌, ◌<◌, ◌≤◌, ◌++◌, List, Some, None, length, replicate, IfOk, slice_set, vec_capacity};
ghost use Rattle.std.specs.List.{slice_get};
ghost use Rattle.slot_pool.specs.Cells.{IsLive, IsVacant, held, spare};
ghost use Rattle.page_dir.specs.Pages.{or_empty};
ghost use Rattle.page_dir.specs.Regions.{IsApart, region};
ghost use Rattle.page_dir.specs.Splices.{spliced};

use slot_pool::{Pool, Slot};
use std::alloc::{AllocError, Global};
use std::marker::Model;

/// A pool of pages, each vacant or with at most 64 items, which are named by slots. Their cells are one reservation, which
/// isn't touched before a page comes into use.
#[derive(Drop)]
pub struct PagePool<T: Copy> {
    // How many items each page has, in a byte each: those of many pages are at hand then.
    lens: Pool<u8>,
    // Those of the page at a slot are the 64 from 64 times its index on.
    cells: Vec<T>,
}

impl<T: Copy> Model for PagePool<T> {
    ghost use Rattle.std.specs.Prelude.{List, Option, vec_capacity};
    ghost use Rattle.page_dir.specs.Regions.{IsPagePool, pages_of};

    ghost Value = { List (Option (List T)) };

    ghost view = { λ p. pages_of p.cells.items p.lens };

    ghost invariant = { λ p. IsPagePool p.cells.items p.lens (vec_capacity p.cells) };
}

impl<T: Copy> PagePool<T> {
    /// So many pages, all of them vacant.
    pub(crate) fn with_room(alloc: Global, count: u32) -> Result<PagePool<T>, AllocError>
        ensures { IfOk result (λ pool. pool ≡ replicate count None) }
    {
        Ok(PagePool {
            lens: Pool::with_room(alloc, count)?,
            cells: Vec::with_capacity(alloc, 64 * count as usize)?,
        })
    }

    /// The items of a page in use.
    pub fn page(&self, slot: &Slot) -> &[T]
        requires { IsLive self.now slot.now }
        ensures items { held self.now slot.now ≡ Some result.now }
        ensures within { length result.now ≤ 64 }
    {
        let len = *self.lens.get(slot) as usize;
        let start = 64 * slot.index();
        &self.cells[start..start + len]
    }

    /// How many pages are vacant.
    pub fn spare(&self) -> u32
        ensures { result ≡ spare self.now }
    {
        self.lens.spare()
    }

    /// A vacant page comes into use with these items.
    pub(crate) fn take(&mut self, new: &[T]) -> Slot
        requires some { 0 < length new.now }
        requires few { length new.now ≤ 64 }
        requires spare { 0 < spare self.old }
        ensures vacant { IsVacant self.old result }
        ensures taken { self.new ≡ slice_set self.old result (Some new.now) }
        ensures count { spare self.new + 1 ≡ spare self.old }
    {
        let slot = match self.lens.take(new.len() as u8) {
            Ok(slot) => slot,
            Err(_) => unreachable!(),
        };
        let start = 64 * slot.index();
        reach(&mut self.cells, start + 64, new[0]);
        write(&mut self.cells, start, new);
        slot
    }

    /// A page goes out of use.
    pub(crate) fn give(&mut self, slot: &Slot)
        requires { IsLive self.old slot.now }
        ensures given { self.new ≡ slice_set self.old slot.now None }
        ensures count { spare self.new ≡ spare self.old + 1 }
    {
        self.lens.give(slot);
    }

    /// So many items of a page go from a place on, and the new ones come there.
    pub(crate) fn splice(&mut self, slot: &Slot, at: usize, n: usize, new: &[T])
        requires live { IsLive self.old slot.now }
        requires there { at + n ≤ length (or_empty (held self.old slot.now)) }
        requires fits { length (or_empty (held self.old slot.now)) + length new.now ≤ 64 + n }
        ensures { self.new ≡ slice_set self.old slot.now (Some (spliced at n new.now (or_empty (held self.old slot.now)))) }
    {
        let held = self.lens.get_mut(slot);
        let start = 64 * slot.index();
        let len = *held as usize;
        splice(&mut self.cells, start, len, at, n, new);
        *held = (len - n + new.len()) as u8;
    }
}

/// Makes the cells so many where they are fewer.
fn reach<T: Copy>(cells: &mut Vec<T>, len: usize, filler: T)
    requires { len ≤ vec_capacity cells.old }
    ensures items { cells.new.items ≡ cells.old.items ++ replicate (len - length cells.old.items) filler }
    ensures room { vec_capacity cells.old ≤ vec_capacity cells.new }
{
    if cells.len() < len {
        match cells.resize(len, filler) {
            Ok(()) => {}
            Err(_) => unreachable!(),
        }
    }
}

/// Writes items over the cells from a place on.
fn write<T: Copy>(cells: &mut Vec<T>, start: usize, new: &[T])
    requires { start + length new.now ≤ length cells.old.items }
    ensures items { cells.new.items ≡ spliced start (length new.now) new.now cells.old.items }
    ensures room { vec_capacity cells.new ≡ vec_capacity cells.old }
{
    cells[start..start + new.len()].copy_from_slice(new);
}

/// Puts items at the end, for which there is room.
pub(crate) fn append<T: Copy>(items: &mut Vec<T>, new: &[T])
    requires { length items.old.items + length new.now ≤ vec_capacity items.old }
    ensures items { items.new.items ≡ items.old.items ++ new.now }
    ensures room { vec_capacity items.old ≤ vec_capacity items.new }
{
    match items.extend_from_slice(new) {
        Ok(()) => {}
        Err(_) => unreachable!(),
    }
}

/// In the cells of one page, which has so many items, some of them go from a place on and the new ones come there, once
/// those behind have moved to where they are to stand.
fn splice<T: Copy>(cells: &mut Vec<T>, start: usize, len: usize, at: usize, n: usize, new: &[T])
    requires there { at + n ≤ len }
    requires fits { len + length new.now ≤ 64 + n }
    requires within { len ≤ 64 }
    requires cells { start + 64 ≤ length cells.old.items }
    ensures here { region cells.new.items start (len - n + length new.now) ≡ spliced at n new.now (region cells.old.items start len) }
    ensures elsewhere { (i k : ℕ) → IsApart start i k → region cells.new.items i k ≡ region cells.old.items i k }
    ensures count { length cells.new.items ≡ length cells.old.items }
    ensures room { vec_capacity cells.new ≡ vec_capacity cells.old }
{
    if n == new.len() {
        write(cells, start + at, new);
        return;
    }
    let behind = start + at + new.len();
    cells.copy_within(start + at + n..start + len, behind);
    write(cells, start + at, new);
}
