ghost use Rattle.std.specs.Prelude.{◌≡◌, ℕ, ◌+◌, ◌-◌, ◌*◌, ◌^◌, ◌<◌, ◌≤◌, ◌==◌, [], drop, length, IfOk};
ghost use Rattle.std.specs.List.{slice_get};
ghost use Rattle.page_dir.specs.Pages.{AreDistinct, ArePages, joined, pages_at};
ghost use Rattle.page_dir.specs.Sorted.{Rises, last_at_most, rank};
ghost use Rattle.page_dir.specs.Splices.{spliced};

use crate::between::count_between;
use crate::locating::{Side, first_from, locate, page_near, run_from};
use crate::replacing::replace;
use crate::spread::Spread;
use crate::{PagePool, PageWalk, Steps};
use slot_pool::Slot;
use std::alloc::{AllocError, Global};
use std::marker::Model;
use std::sync::ledger::Ledger;

/// Pairs in the strict order of their keys. Making one takes memory, and nothing after that does.
pub struct PageDir<K: Ord + Copy, V: Copy> {
    spread: Spread<K, V>,
    carry: Vec<(K, V)>,
    len: u32,
    room: u32,
}

// Written out: a derived one is proved again in each function that lets a directory go, this one once.
impl<K: Ord + Copy, V: Copy> Drop for PageDir<K, V> {
    fn drop(self) {
        let PageDir {
            spread: _spread,
            carry: _carry,
            len: _len,
            room: _room,
        } = self;
    }
}

impl<K: Ord + Copy, V: Copy> Model for PageDir<K, V> {
    ghost use Rattle.std.specs.Prelude.{vec_capacity};
    ghost use Rattle.page_dir.specs.Directory.{IsDir, PlainDir};
    ghost use Rattle.page_dir.specs.Pages.{joined};
    ghost use Rattle.page_dir.specs.Spread.{pages_in};

    ghost Value = { PlainDir K V };

    ghost view = { λ d. record { pairs = joined (pages_in d.spread); room = d.room; pool = d.spread.pool; order = d.spread.order } };

    ghost invariant = { λ d. IsDir K.cmp d.spread d.len d.room (vec_capacity d.carry) };
}

impl<K: Ord + Copy, V: Copy> PageDir<K, V> {
    /// No pairs yet, and memory for as many as the room says.
    pub fn with_room(alloc: Global, room: u32) -> Result<PageDir<K, V>, AllocError>
        requires least { 1 ≤ room }
        requires most { room ≤ 2 ^ 30 }
        ensures empty { IfOk result (λ dir. dir.pairs ≡ []) }
        ensures room { IfOk result (λ dir. dir.room ≡ room) }
    {
        Ok(PageDir {
            spread: Spread::with_pages(alloc, 2 * (room / 65) + 3)?,
            carry: Vec::with_capacity(alloc, 64)?,
            len: 0,
            room,
        })
    }

    /// How many pairs there are.
    pub fn len(&self) -> u32
        ensures count { result ≡ length self.now.pairs }
        ensures within { length self.now.pairs ≤ self.now.room }
        ensures rises { Rises K.cmp self.now.pairs }
    {
        self.len
    }

    /// Whether there is no pair.
    pub fn is_empty(&self) -> bool
        ensures { result ≡ (length self.now.pairs == 0) }
    {
        self.len == 0
    }

    /// How many pairs there may be.
    pub fn room(&self) -> u32
        ensures room { result ≡ self.now.room }
        ensures most { self.now.room ≤ 2 ^ 30 }
    {
        self.room
    }

    /// The pool of all pages. The pairs are those of the pages in use, one page after another.
    pub fn pages(&self) -> &PagePool<(K, V)>
        ensures pool { result.now ≡ self.now.pool }
        ensures joined { self.now.pairs ≡ joined (pages_at self.now.pool self.now.order) }
        ensures filled { ArePages (pages_at self.now.pool self.now.order) }
        ensures rises { Rises K.cmp self.now.pairs }
    {
        self.spread.pool()
    }

    /// The slots of the pages in use, in the order of their keys.
    pub fn order(&self) -> &Vec<Slot>
        ensures slots { result.now.items ≡ self.now.order }
        ensures distinct { AreDistinct self.now.order }
    {
        self.spread.order()
    }

    /// The pair with the greatest key that is at most this one. Each comparison of keys is a step; there are at most 8 more
    /// than the length has binary digits.
    pub fn find<L: Ledger>(&self, key: &K, steps: &mut Steps<L>) -> Option<(K, V)>
        ensures found { result ≡ last_at_most K.cmp key.now self.now.pairs }
        ensures counted { steps.old ≤ steps.new }
        ensures cost { 2 ^ (steps.new - steps.old) ≤ 256 * (2 * length self.now.pairs + 1) }
    {
        let (page, at) = locate(&self.spread, key, Side::UpTo, steps);
        if at == 0 {
            return None;
        }
        Some(self.spread.page(page)[at - 1])
    }

    /// The pair with the least key that is at least this one.
    pub fn from(&self, key: &K) -> Option<(K, V)>
        ensures { result ≡ slice_get self.now.pairs (rank K.cmp key.now self.now.pairs) }
    {
        let (page, at) = first_from(&self.spread, key);
        if page == self.spread.len() {
            return None;
        }
        Some(self.spread.page(page)[at])
    }

    /// How many pairs stand from the one key up to the other: two look-ups by halving, and the lengths of the pages between
    /// are added up.
    pub fn count_between(&self, from: &K, until: &K) -> u32
        ensures { result ≡ rank K.cmp until.now self.now.pairs - rank K.cmp from.now self.now.pairs }
    {
        count_between(&self.spread, from, until)
    }

    /// The pairs whose keys are at least this one, rising. Each costs the same.
    pub fn walk_from(&self, key: &K) -> PageWalk<'_, K, V>
        ensures { result ≡ drop (rank K.cmp key.now self.now.pairs) self.now.pairs }
    {
        let (page, at) = first_from(&self.spread, key);
        PageWalk::over(&self.spread, page, at)
    }

    /// Says that what stands near this key is asked for next, which spares the search for its page. It changes nothing.
    pub fn approach(&mut self, key: &K)
        ensures { self.new ≡ self.old }
    {
        let page = page_near(&self.spread, key);
        self.spread.come_near(page);
    }

    /// So many pairs go, from the first key that is at least this one, and the new ones come in their stead.
    pub fn replace_run(&mut self, from: &K, n: u32, new: &[(K, V)])
        requires there { rank K.cmp from.now self.old.pairs + n ≤ length self.old.pairs }
        requires rises { Rises K.cmp (spliced (rank K.cmp from.now self.old.pairs) n new.now self.old.pairs) }
        requires room { length (spliced (rank K.cmp from.now self.old.pairs) n new.now self.old.pairs) ≤ self.old.room }
        ensures pairs { self.new.pairs ≡ spliced (rank K.cmp from.now self.old.pairs) n new.now self.old.pairs }
        ensures room { self.new.room ≡ self.old.room }
    {
        let few = new.len().min(64);
        self.replace_few(from, n, &new[..few]);
        let mut done = few;
        while done < new.len() {
            let more = (new.len() - done).min(64);
            self.replace_few(&new[done].0, 0, &new[done..done + more]);
            done += more;
        }
    }

    /// The same for at most 64 new pairs.
    fn replace_few(&mut self, from: &K, n: u32, new: &[(K, V)])
        requires few { length new.now ≤ 64 }
        requires there { rank K.cmp from.now self.old.pairs + n ≤ length self.old.pairs }
        requires rises { Rises K.cmp (spliced (rank K.cmp from.now self.old.pairs) n new.now self.old.pairs) }
        requires room { length (spliced (rank K.cmp from.now self.old.pairs) n new.now self.old.pairs) ≤ self.old.room }
        ensures pairs { self.new.pairs ≡ spliced (rank K.cmp from.now self.old.pairs) n new.now self.old.pairs }
        ensures room { self.new.room ≡ self.old.room }
    {
        let (page, at) = run_from(&self.spread, from, n);
        replace(&mut self.spread, &mut self.carry, page, at, n as usize, new);
        self.spread.pages_are_small();
        self.len = self.len - n + new.len() as u32;
    }
}
