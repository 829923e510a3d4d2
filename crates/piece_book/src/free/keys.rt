ghost use Rattle.std.specs.Prelude.{◌≡◌, ◌+◌, ◌≤◌, ◌<◌, ◌^◌, ◌&&◌, ℕ, Bool, length, count_by, if◌then◌else◌, min, unwrap_or, IsTrue, Option};
ghost use Rattle.std.specs.List.{AllByRecursion};
ghost use Rattle.page_dir.specs.Sorted.{Rises};
ghost use Rattle.piece_book.specs.declared.free.key.FreeKey.{FreeKey};
ghost use Rattle.piece_book.specs.Free.{free_keys, is_key, key_cmp, passing, serves, IsLeastFirst, AreCounted};

use super::key::FreeKey;
use num_range::Space;
use page_dir::PageDir;
use reg_entry::Piece;

fn insert(keys: &mut PageDir<FreeKey, ()>, key: &FreeKey)
    requires rises { Rises key_cmp keys.old.pairs }
    requires new { passing (is_key key.now) keys.old.pairs ≡ 0 }
    requires room { length keys.old.pairs < keys.old.room }
    ensures rises { Rises key_cmp keys.new.pairs }
    ensures counts { (passes : FreeKey → Bool) → passing passes keys.new.pairs ≡ passing passes keys.old.pairs + (if passes key.now then 1 else 0) }
    ensures room { keys.new.room ≡ keys.old.room }
{
    keys.replace_run(key, 0, &[(*key, ())]);
}

fn remove(keys: &mut PageDir<FreeKey, ()>, key: &FreeKey)
    requires rises { Rises key_cmp keys.old.pairs }
    requires there { 0 < passing (is_key key.now) keys.old.pairs }
    requires room { length keys.old.pairs ≤ keys.old.room }
    ensures rises { Rises key_cmp keys.new.pairs }
    ensures counts { (passes : FreeKey → Bool) → passing passes keys.new.pairs + (if passes key.now then 1 else 0) ≡ passing passes keys.old.pairs }
    ensures room { keys.new.room ≡ keys.old.room }
{
    keys.replace_run(key, 1, &[]);
}

/// Whether an available piece gives way to a shorter one with the same key, behind which nothing available comes: so it is
/// where numbers are taken from its end.
pub(super) fn keeps_its_key(before: &[Piece], after: &[Piece]) -> bool
    requires before { AreCounted before.now }
    requires after { AreCounted after.now }
    ensures { IsTrue result → free_keys before.now ≡ free_keys after.now }
{
    let [old] = before else {
        return false;
    };
    let [low, high] = after else {
        return false;
    };
    old.card.status.is_available()
        && low.card.status.is_available()
        && !high.card.status.is_available()
        && FreeKey::of(old) == FreeKey::of(low)
}

/// The keys of the available pieces come.
pub(super) fn insert_all(keys: &mut PageDir<FreeKey, ()>, pieces: &[Piece])
    requires rises { Rises key_cmp keys.old.pairs }
    requires counted { AreCounted pieces.now }
    requires new { (key : FreeKey) → passing (is_key key) keys.old.pairs + count_by (is_key key) (free_keys pieces.now) ≤ 1 }
    requires room { length keys.old.pairs + length (free_keys pieces.now) ≤ keys.old.room }
    ensures rises { Rises key_cmp keys.new.pairs }
    ensures counts { (passes : FreeKey → Bool) → passing passes keys.new.pairs ≡ passing passes keys.old.pairs + count_by passes (free_keys pieces.now) }
    ensures room { keys.new.room ≡ keys.old.room }
{
    for piece in pieces {
        if piece.card.status.is_available() {
            insert(keys, &FreeKey::of(piece));
        }
    }
}

/// The keys of the available pieces go.
pub(super) fn remove_all(keys: &mut PageDir<FreeKey, ()>, pieces: &[Piece])
    requires rises { Rises key_cmp keys.old.pairs }
    requires counted { AreCounted pieces.now }
    requires there { (key : FreeKey) → count_by (is_key key) (free_keys pieces.now) ≤ passing (is_key key) keys.old.pairs }
    requires room { length keys.old.pairs ≤ keys.old.room }
    ensures rises { Rises key_cmp keys.new.pairs }
    ensures counts { (passes : FreeKey → Bool) → passing passes keys.new.pairs + count_by passes (free_keys pieces.now) ≡ passing passes keys.old.pairs }
    ensures room { keys.new.room ≡ keys.old.room }
{
    for piece in pieces {
        if piece.card.status.is_available() {
            remove(keys, &FreeKey::of(piece));
        }
    }
}

fn lesser(least: Option<u128>, first: u128) -> u128
    ensures { result ≡ min first (unwrap_or least first) }
{
    match least {
        None => first,
        Some(least) => first.min(least),
    }
}

/// The least first number among the keys of a space that serve a class. That is one look-up for each class that is there.
pub(super) fn least_first(keys: &PageDir<FreeKey, ()>, space: Space, class: u32) -> Option<u128>
    requires rises { Rises key_cmp keys.now.pairs }
    requires class { class ≤ 1024 }
    requires classes { AllByRecursion (λ p. p.0.class ≤ 1024) keys.now.pairs }
    ensures { IsLeastFirst (serves space class) keys.now.pairs result }
{
    let mut least = None;
    let mut class = class;
    while let Some((key, ())) = keys.from(&FreeKey {
        space,
        class,
        first: 0,
    }) {
        if !key.is_of(space) {
            return least;
        }
        least = Some(lesser(least, key.first));
        class = key.class + 1;
    }
    least
}
