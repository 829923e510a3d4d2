ghost use Rattle.std.specs.Prelude.{◌≡◌, ◌≢◌, ◌^◌, ◌<◌, ◌≤◌, [], ◌∷◌, None, Some, length, slice_get, IfOk};
ghost use Rattle.std.specs.List.{All};
ghost use Rattle.std.specs.Ordering.{nat_cmp};
ghost use Rattle.page_dir.specs.Sorted.{Rises, rank};
ghost use Rattle.page_dir.specs.Splices.{spliced};
ghost use Rattle.reg_entry.specs.Holders.{holder_number, added_holder, edited_holder, HaveDistinctHandles};

use crate::handle_key::handle_key;
use crate::numbered::Numbered;
use page_dir::PageDir;
use page_dir::laws::{ranks_are_places, splices_rise};
use reg_entry::{Handle, Holder};
use std::alloc::{AllocError, Global};
use std::marker::Model;

/// The holders in the order of their numbers, from 0, each with the day on which its fields were last given. Making one
/// takes memory, and nothing after that does.
pub struct HolderBook {
    holders: Numbered,
    // Their numbers under those of their handles.
    numbers: PageDir<u128, u32>,
}

impl Model for HolderBook {
    ghost use Rattle.holder_book.specs.Book.{PlainHolderBook};
    ghost use Rattle.holder_book.specs.Kept.{IsHolderBook};

    ghost Value = { PlainHolderBook };

    ghost view = { λ b. b.holders };

    ghost invariant = { λ b. IsHolderBook b.holders.holders b.numbers.pairs b.holders.room b.numbers.room };
}

/// The holders and their handles go. It is written out, as a directory's is.
impl Drop for HolderBook {
    fn drop(self) {
        let HolderBook {
            holders: _holders,
            numbers: _numbers,
        } = self;
    }
}

impl HolderBook {
    /// A book without holders, for as many as the room says.
    pub fn with_room(alloc: Global, room: u32) -> Result<HolderBook, AllocError>
        requires least { 1 ≤ room }
        requires most { room ≤ 2 ^ 30 }
        ensures { IfOk result (λ book. book ≡ record { holders = []; room = room }) }
    {
        Ok(HolderBook {
            holders: Numbered::with_room(alloc, room)?,
            numbers: PageDir::with_room(alloc, room)?,
        })
    }

    /// How many holders there are.
    pub fn len(&self) -> u32
        ensures count { result ≡ length self.now.holders }
        ensures within { length self.now.holders ≤ self.now.room }
        ensures distinct { HaveDistinctHandles self.now.holders }
    {
        self.holders.len()
    }

    /// How many holders there may be.
    pub fn room(&self) -> u32
        ensures room { result ≡ self.now.room }
        ensures bound { self.now.room ≤ 2 ^ 30 }
        ensures within { length self.now.holders ≤ self.now.room }
    {
        self.holders.room()
    }

    /// The number of the holder with this handle, found by halving.
    pub fn by_handle(&self, handle: &Handle) -> Option<u32>
        ensures number { result ≡ holder_number self.now.holders handle.now }
        ensures distinct { HaveDistinctHandles self.now.holders }
    {
        let key = handle_key(handle);
        let (found, number) = self.numbers.from(&key)?;
        if found == key { Some(number) } else { None }
    }

    /// The holder with this number, with the day on which its fields were last given.
    pub fn holder(&self, number: u32) -> &(Holder, u32)
        requires { number < length self.now.holders }
        ensures holder { slice_get self.now.holders number ≡ Some result.now }
        ensures distinct { HaveDistinctHandles self.now.holders }
    {
        self.holders.get(number)
    }

    /// Adds a holder under the next number, and gives that.
    pub fn add(&mut self, holder: &Holder, day: u32) -> u32
        requires new { holder_number self.old.holders holder.now.handle ≡ None }
        requires room { length self.old.holders < self.old.room }
        ensures number { result ≡ length self.old.holders }
        ensures holders { self.new.holders ≡ added_holder self.old.holders holder.now day }
        ensures room { self.new.room ≡ self.old.room }
        ensures distinct { HaveDistinctHandles self.new.holders }
    {
        let number = self.holders.len();
        enter(&mut self.numbers, handle_key(&holder.handle), number);
        self.holders.push(holder, day);
        number
    }

    /// Gives the holder of this handle, which has the number, other fields.
    pub fn edit(&mut self, number: u32, holder: &Holder, day: u32)
        requires { holder_number self.old.holders holder.now.handle ≡ Some number }
        ensures holders { self.new.holders ≡ edited_holder self.old.holders holder.now day }
        ensures room { self.new.room ≡ self.old.room }
        ensures distinct { HaveDistinctHandles self.new.holders }
    {
        self.holders.set(number, holder, day);
    }
}

/// Puts a number under a key that isn't there.
fn enter(numbers: &mut PageDir<u128, u32>, key: u128, number: u32)
    requires rises { Rises nat_cmp numbers.old.pairs }
    requires absent { All (λ p. p.0 ≢ key) numbers.old.pairs }
    requires room { length numbers.old.pairs < numbers.old.room }
    ensures pairs { numbers.new.pairs ≡ spliced (rank nat_cmp key numbers.old.pairs) 0 ((key, number) ∷ []) numbers.old.pairs }
    ensures rises { Rises nat_cmp numbers.new.pairs }
    ensures room { numbers.new.room ≡ numbers.old.room }
{
    // Laws: the keys still rise, with the new one at its place.
    splices_rise::<u128, u32>();
    ranks_are_places::<u128, u32>();
    numbers.replace_run(&key, 0, &[(key, number)]);
}
