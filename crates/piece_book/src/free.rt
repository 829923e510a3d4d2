//! The index of free blocks: of each available piece, how large an aligned block it has room for, and where the piece begins.
ghost use Rattle.std.specs.Prelude.{◌≡◌, ◌+◌, ◌≤◌, ◌<◌, ◌^◌, IfOk};
ghost use Rattle.reg_entry.specs.Blocks.{least_block};
ghost use Rattle.reg_entry.specs.Partition.{empty_partition, pieces_in};
ghost use Rattle.piece_book.specs.Free.{IsBlockSize, IsPoolChange, IsIndexed, IsIndexOf};

mod key;
mod keys;

use key::{FreeKey, class_of_size, gap};
use keys::{insert_all, keeps_its_key, least_first, remove_all};
use num_range::Space;
use page_dir::PageDir;
use reg_entry::Touched;
use std::alloc::{AllocError, Global};
use std::marker::Model;

/// The available pieces in the order of the blocks that they have room for. Making one takes memory, and nothing after
/// that does.
#[derive(Drop)]
pub struct FreeIndex {
    keys: PageDir<FreeKey, ()>,
}

impl Model for FreeIndex {
    ghost use Rattle.std.specs.Prelude.{map};
    ghost use Rattle.piece_book.specs.Free.{PlainIndex, key_cmp};
    ghost use Rattle.page_dir.specs.Sorted.{Rises};

    ghost Value = { PlainIndex };

    ghost view = { λ i. record { keys = map (λ p. p.0) i.keys.pairs; room = i.keys.room } };

    ghost invariant = { λ i. Rises key_cmp i.keys.pairs };
}

impl FreeIndex {
    /// The index of no pieces, for as many as the room says.
    pub(crate) fn with_room(alloc: Global, room: u32) -> Result<FreeIndex, AllocError>
        requires least { 1 ≤ room }
        requires most { room ≤ 2 ^ 30 }
        ensures empty { IfOk result (λ index. IsIndexOf index.keys empty_partition) }
        ensures room { IfOk result (λ index. index.room ≡ room) }
    {
        Ok(FreeIndex {
            keys: PageDir::with_room(alloc, room)?,
        })
    }

    /// Takes out the pieces that went, and puts in those that came.
    pub(crate) fn exchange(&mut self, touched: &Touched)
        requires { IsPoolChange self.old touched.now.before.items touched.now.after.items }
        ensures index { (change : IsPoolChange self.old touched.now.before.items touched.now.after.items) → IsIndexOf self.new.keys change.next }
        ensures room { self.new.room ≡ self.old.room }
    {
        if keeps_its_key(&touched.before, &touched.after) {
            return;
        }
        remove_all(&mut self.keys, &touched.before);
        insert_all(&mut self.keys, &touched.after);
    }

    /// The start of the least aligned block of a size, all of whose numbers are available.
    pub fn least_start(&self, space: Space, size: u128) -> Option<u128>
        requires indexed { IsIndexed self.now.keys }
        requires size { IsBlockSize space size }
        ensures { (index : IsIndexed self.now.keys) → result ≡ least_block (pieces_in index.pool space) space size }
    {
        let first = least_first(&self.keys, space, class_of_size(space, size))?;
        Some(first + gap(first, space.alignment(size)))
    }
}
