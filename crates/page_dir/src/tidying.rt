//! Pages that were changed are brought back to holding enough: none is empty, and two neighbours have more than 64 items.
ghost use Rattle.std.specs.Prelude.{◌≡◌, ℕ, ◌+◌, ◌<◌, ◌≤◌, length, vec_capacity, if◌then◌else◌};
ghost use Rattle.page_dir.specs.Pages.{HoldsEnough, joined};
ghost use Rattle.page_dir.specs.Spread.{AreTidy, pages_in};

use crate::page_pool::append;
use crate::spread::Spread;

/// Tidies the pages from one place to another. Those before and behind hold enough already.
pub(crate) fn tidy<K: Copy, V: Copy>(
    spread: &mut Spread<K, V>,
    carry: &mut Vec<(K, V)>,
    first: usize,
    until: usize,
)
    requires tidy { AreTidy (pages_in spread.old) first until }
    requires carry { 64 ≤ vec_capacity carry.old }
    ensures joined { joined (pages_in spread.new) ≡ joined (pages_in spread.old) }
    ensures count { length (pages_in spread.new) + spread.new.spare ≡ length (pages_in spread.old) + spread.old.spare }
    ensures enough { (i : ℕ) → i < length (pages_in spread.new) → HoldsEnough (pages_in spread.new) i }
    ensures carry { 64 ≤ vec_capacity carry.new }
{
    let mut i = first;
    while i < until && i < spread.len() {
        if !settle(spread, carry, i) {
            i += 1;
        }
    }
}

/// Takes a page out of use that has nothing, or no more than 64 with the page before it, which then has its items too.
/// Says whether it did.
fn settle<K: Copy, V: Copy>(spread: &mut Spread<K, V>, carry: &mut Vec<(K, V)>, i: usize) -> bool
    requires there { i < length (pages_in spread.old) }
    requires carry { 64 ≤ vec_capacity carry.old }
    ensures joined { joined (pages_in spread.new) ≡ joined (pages_in spread.old) }
    ensures count { length (pages_in spread.new) + spread.new.spare ≡ length (pages_in spread.old) + spread.old.spare }
    ensures fewer { length (pages_in spread.new) + (if result then 1 else 0) ≡ length (pages_in spread.old) }
    ensures tidy { (until : ℕ) → i < until → AreTidy (pages_in spread.old) i until
        → AreTidy (pages_in spread.new) (if result then i else i + 1) until }
    ensures carry { 64 ≤ vec_capacity carry.new }
{
    let here = spread.page(i).len();
    if here == 0 {
        spread.remove(i);
        return true;
    }
    if i == 0 {
        return false;
    }
    let before = spread.page(i - 1).len();
    if before + here > 64 {
        return false;
    }
    carry.clear();
    append(carry, spread.page(i));
    spread.splice(i - 1, before, 0, carry);
    spread.remove(i);
    true
}
