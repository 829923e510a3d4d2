//! A splice of the items of pages.
ghost use Rattle.std.specs.Prelude.{◌≡◌, ℕ, ◌+◌, ◌-◌, ◌^◌, ◌<◌, ◌≤◌, ◌++◌, [], length, take, drop, vec_capacity};
ghost use Rattle.page_dir.specs.Pages.{HoldsEnough, joined, page_of};
ghost use Rattle.page_dir.specs.Splices.{spliced};
ghost use Rattle.page_dir.specs.Spread.{AreTidy, IsPlace, pages_in, start};

use crate::page_pool::append;
use crate::spread::Spread;
use crate::tidying::tidy;

/// So many items from a place on go, and the new ones come there. Where the run lies in one page and fits, only what is
/// behind it in that page moves.
pub(crate) fn replace<K: Copy, V: Copy>(
    spread: &mut Spread<K, V>,
    carry: &mut Vec<(K, V)>,
    i: usize,
    at: usize,
    n: usize,
    new: &[(K, V)],
)
    requires place { IsPlace (pages_in spread.old) i at }
    requires there { start (pages_in spread.old) i + at + n ≤ length (joined (pages_in spread.old)) }
    requires enough { (k : ℕ) → k < length (pages_in spread.old) → HoldsEnough (pages_in spread.old) k }
    requires few { length new.now ≤ 64 }
    requires spare { 2 ≤ spread.old.spare }
    requires small { length (pages_in spread.old) + spread.old.spare ≤ 2 ^ 30 }
    requires all { length (joined (pages_in spread.old)) ≤ 2 ^ 30 }
    requires carry { 64 ≤ vec_capacity carry.old }
    ensures joined { joined (pages_in spread.new) ≡ spliced (start (pages_in spread.old) i + at) n new.now (joined (pages_in spread.old)) }
    ensures count { length (pages_in spread.new) + spread.new.spare ≡ length (pages_in spread.old) + spread.old.spare }
    ensures enough { (k : ℕ) → k < length (pages_in spread.new) → HoldsEnough (pages_in spread.new) k }
    ensures carry { 64 ≤ vec_capacity carry.new }
{
    if i < spread.len() {
        let here = spread.page(i).len();
        if at + n <= here && here + new.len() <= 64 + n {
            spread.splice(i, at, n, new);
            if n <= new.len() {
                return;
            }
            tidy(spread, carry, i, i + 2);
            return;
        }
    }
    let i = part(spread, carry, i, at);
    cut(spread, i, n);
    if new.is_empty() {
        tidy(spread, carry, i.saturating_sub(1), i + 2);
        return;
    }
    put(spread, i, new);
    tidy(spread, carry, i.saturating_sub(1), i + 3);
}

/// Puts items in where a page begins: at the end of the page before it where they fit there, else as a page of their own.
fn put<K: Copy, V: Copy>(spread: &mut Spread<K, V>, i: usize, new: &[(K, V)])
    requires there { i ≤ length (pages_in spread.old) }
    requires some { 0 < length new.now }
    requires few { length new.now ≤ 64 }
    requires spare { 0 < spread.old.spare }
    requires tidy { AreTidy (pages_in spread.old) (i - 1) (i + 2) }
    ensures joined { joined (pages_in spread.new) ≡ joined (take i (pages_in spread.old)) ++ (new.now ++ joined (drop i (pages_in spread.old))) }
    ensures count { length (pages_in spread.new) + spread.new.spare ≡ length (pages_in spread.old) + spread.old.spare }
    ensures tidy { AreTidy (pages_in spread.new) (i - 1) (i + 3) }
{
    if 0 < i {
        let before = spread.page(i - 1).len();
        if before + new.len() <= 64 {
            spread.splice(i - 1, before, 0, new);
            return;
        }
    }
    spread.add(i, new);
}

/// Parts a page in two at a place, unless a page begins there, and says which page begins there then.
fn part<K: Copy, V: Copy>(
    spread: &mut Spread<K, V>,
    carry: &mut Vec<(K, V)>,
    i: usize,
    at: usize,
) -> usize
    requires place { IsPlace (pages_in spread.old) i at }
    requires enough { (k : ℕ) → k < length (pages_in spread.old) → HoldsEnough (pages_in spread.old) k }
    requires spare { 0 < spread.old.spare }
    requires small { length (pages_in spread.old) ≤ 2 ^ 30 }
    requires carry { 64 ≤ vec_capacity carry.old }
    ensures joined { joined (pages_in spread.new) ≡ joined (pages_in spread.old) }
    ensures there { result ≤ length (pages_in spread.new) }
    ensures place { start (pages_in spread.new) result ≡ start (pages_in spread.old) i + at }
    ensures count { length (pages_in spread.new) + spread.new.spare ≡ length (pages_in spread.old) + spread.old.spare }
    ensures spare { spread.old.spare ≤ spread.new.spare + 1 }
    ensures tidy { AreTidy (pages_in spread.new) (result - 1) (result + 2) }
    ensures carry { 64 ≤ vec_capacity carry.new }
{
    if at == 0 {
        return i;
    }
    let page = spread.page(i);
    let len = page.len();
    if at == len {
        return i + 1;
    }
    carry.clear();
    append(carry, &page[at..]);
    spread.splice(i, at, len - at, no_items());
    spread.add(i + 1, carry);
    i + 1
}

/// Takes so many items away, from a page on.
fn cut<K: Copy, V: Copy>(spread: &mut Spread<K, V>, i: usize, n: usize)
    requires there { i ≤ length (pages_in spread.old) }
    requires enough { n ≤ length (joined (drop i (pages_in spread.old))) }
    requires tidy { AreTidy (pages_in spread.old) (i - 1) (i + 2) }
    ensures there { i ≤ length (pages_in spread.new) }
    ensures front { take i (pages_in spread.new) ≡ take i (pages_in spread.old) }
    ensures rest { joined (drop i (pages_in spread.new)) ≡ drop n (joined (drop i (pages_in spread.old))) }
    ensures count { length (pages_in spread.new) + spread.new.spare ≡ length (pages_in spread.old) + spread.old.spare }
    ensures spare { spread.old.spare ≤ spread.new.spare }
    ensures tidy { AreTidy (pages_in spread.new) (i - 1) (i + 2) }
{
    let mut left = n;
    while left > 0 {
        let here = spread.page(i).len();
        if here <= left {
            spread.remove(i);
            left -= here;
        } else {
            spread.splice(i, 0, left, no_items());
            left = 0;
        }
    }
}

/// An empty list as a value of its own: where `&[]` stands among the arguments the borrow checker takes it for one of pairs
/// that live no longer than the call.
fn no_items<'a, T: Copy>() -> &'a [T]
    ensures { result.now ≡ [] }
{
    &[]
}
