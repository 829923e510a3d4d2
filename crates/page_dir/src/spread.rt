ghost use Rattle.std.specs.Prelude.{◌≡◌, ℕ, ◌+◌, ◌<◌, ◌≤◌, [], length, vec_capacity, IfOk, slice_set};
ghost use Rattle.std.specs.List.{insert, remove};
ghost use Rattle.page_dir.specs.Pages.{AreDistinct, page_of};
ghost use Rattle.page_dir.specs.Splices.{spliced};
ghost use Rattle.page_dir.specs.Spread.{BeginWith, BeginsWith, pages_in};

use crate::PagePool;
use slot_pool::Slot;
use std::alloc::{AllocError, Global};
use std::marker::Model;

/// Pages of pairs, of which some are in use, one after another, and the others are vacant. A pool holds them all from the
/// start.
#[derive(Drop)]
pub(crate) struct Spread<K: Copy, V: Copy> {
    pool: PagePool<(K, V)>,
    order: Vec<Slot>,
    // The first key of each page in use that has a pair, so that a search over pages reads keys alone, in a row.
    firsts: Vec<(K, ())>,
    // How many pages there are up to the one that was changed or approached last: the next look-up most often ends there.
    near: usize,
}

impl<K: Copy, V: Copy> Model for Spread<K, V> {
    ghost use Rattle.std.specs.Prelude.{vec_capacity};
    ghost use Rattle.slot_pool.specs.Cells.{spare};
    ghost use Rattle.page_dir.specs.Spread.{IsSpread, PlainSpread};

    ghost Value = { PlainSpread (K × V) };

    ghost view = { λ s. record { pool = s.pool; order = s.order.items; spare = spare s.pool } };

    ghost invariant = { λ s. IsSpread s.pool s.order.items s.firsts.items (vec_capacity s.order) (vec_capacity s.firsts) };
}

impl<K: Copy, V: Copy> Spread<K, V> {
    /// So many pages, all of them vacant.
    pub(crate) fn with_pages(alloc: Global, count: u32) -> Result<Spread<K, V>, AllocError>
        ensures order { IfOk result (λ spread. spread.order ≡ []) }
        ensures spare { IfOk result (λ spread. spread.spare ≡ count) }
    {
        Ok(Spread {
            pool: PagePool::with_room(alloc, count)?,
            order: Vec::with_capacity(alloc, count as usize)?,
            firsts: Vec::with_capacity(alloc, count as usize)?,
            near: 0,
        })
    }

    pub(crate) fn pool(&self) -> &PagePool<(K, V)>
        ensures { result.now ≡ self.now.pool }
    {
        &self.pool
    }

    pub(crate) fn order(&self) -> &Vec<Slot>
        ensures slots { result.now.items ≡ self.now.order }
        ensures distinct { AreDistinct self.now.order }
    {
        &self.order
    }

    /// How many pages are in use.
    pub(crate) fn len(&self) -> usize
        ensures { result ≡ length (pages_in self.now) }
    {
        self.order.len()
    }

    /// The items of a page in use.
    pub(crate) fn page(&self, i: usize) -> &[(K, V)]
        requires { i < length (pages_in self.now) }
        ensures items { result.now ≡ page_of (pages_in self.now) i }
        ensures within { length result.now ≤ 64 }
    {
        self.pool.page(&self.order[i])
    }

    /// The keys with which the pages in use begin, where they have a pair.
    pub(crate) fn firsts(&self) -> &[(K, ())]
        ensures { BeginWith result.now (pages_in self.now) }
    {
        &self.firsts
    }

    /// How many pages to look at first. It says nothing of where a key stands.
    pub(crate) fn near(&self) -> usize {
        self.near
    }

    /// Has so many pages looked at first.
    pub(crate) fn come_near(&mut self, pages: usize)
        ensures { self.new ≡ self.old }
    {
        self.near = pages;
    }

    /// Each page has at most 64 items.
    pub(crate) fn pages_are_small(&self)
        ensures { (i : ℕ) → length (page_of (pages_in self.now) i) ≤ 64 }
    {
        let _ = &self.pool;
    }

    /// So many items of a page go, and the new ones come there.
    pub(crate) fn splice(&mut self, i: usize, at: usize, n: usize, new: &[(K, V)])
        requires page { i < length (pages_in self.old) }
        requires there { at + n ≤ length (page_of (pages_in self.old) i) }
        requires fits { length (page_of (pages_in self.old) i) + length new.now ≤ 64 + n }
        ensures pages { pages_in self.new ≡ slice_set (pages_in self.old) i (spliced at n new.now (page_of (pages_in self.old) i)) }
        ensures spare { self.new.spare ≡ self.old.spare }
    {
        self.near = i.saturating_add(1);
        let slot = self.order[i];
        self.pool.splice(&slot, at, n, new);
        self.firsts[i] = (first_key(self.pool.page(&slot), at, self.firsts[i].0), ());
    }

    /// A vacant page comes into use with these items.
    pub(crate) fn add(&mut self, i: usize, new: &[(K, V)])
        requires spare { 0 < self.old.spare }
        requires place { i ≤ length (pages_in self.old) }
        requires some { 0 < length new.now }
        requires few { length new.now ≤ 64 }
        ensures pages { pages_in self.new ≡ insert (pages_in self.old) i new.now }
        ensures spare { self.new.spare + 1 ≡ self.old.spare }
    {
        self.near = i.saturating_add(1);
        let slot = self.pool.take(new);
        insert(&mut self.order, i, slot);
        insert(&mut self.firsts, i, (new[0].0, ()));
    }

    /// A page goes out of use, with all that it has.
    pub(crate) fn remove(&mut self, i: usize)
        requires { i < length (pages_in self.old) }
        ensures pages { pages_in self.new ≡ remove (pages_in self.old) i }
        ensures spare { self.new.spare ≡ self.old.spare + 1 }
    {
        self.firsts.remove(i);
        let slot = self.order.remove(i);
        self.pool.give(&slot);
    }
}

/// The key with which a page begins that was changed from a place on. Behind its first pair it begins as before, and that
/// pair, which may be far off, isn't read.
fn first_key<K: Copy, V: Copy>(page: &[(K, V)], at: usize, before: K) -> K
    requires before { 0 < at → BeginsWith before page.now }
    ensures { BeginsWith result page.now }
{
    if 0 < at {
        return before;
    }
    match page {
        [(key, _), ..] => *key,
        [] => before,
    }
}

/// Puts an item before a place, for which there is room.
fn insert<T: Copy>(items: &mut Vec<T>, i: usize, item: T)
    requires place { i ≤ length items.old.items }
    requires room { length items.old.items < vec_capacity items.old }
    ensures items { items.new.items ≡ insert items.old.items i item }
    ensures room { vec_capacity items.old ≤ vec_capacity items.new }
{
    match items.insert(i, item) {
        Ok(()) => {}
        Err(_) => unreachable!(),
    }
}
