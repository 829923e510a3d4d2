//! How many pairs stand between two places.
ghost use Rattle.std.specs.Prelude.{◌≡◌, ℕ, ◌+◌, ◌-◌, ◌^◌, ◌<◌, ◌≤◌, length};
ghost use Rattle.page_dir.specs.Pages.{HoldsEnough, joined};
ghost use Rattle.page_dir.specs.Sorted.{Rises, rank};
ghost use Rattle.page_dir.specs.Spread.{pages_in, start};

use crate::locating::first_from;
use crate::spread::Spread;

/// How many pairs stand from the one key up to the other. Only the lengths of pages are read between the two places.
pub(crate) fn count_between<K: Ord + Copy, V: Copy>(
    spread: &Spread<K, V>,
    from: &K,
    until: &K,
) -> u32
    requires enough { (i : ℕ) → i < length (pages_in spread.now) → HoldsEnough (pages_in spread.now) i }
    requires rises { Rises K.cmp (joined (pages_in spread.now)) }
    requires small { length (joined (pages_in spread.now)) ≤ 2 ^ 30 }
    ensures { result ≡ rank K.cmp until.now (joined (pages_in spread.now)) - rank K.cmp from.now (joined (pages_in spread.now)) }
{
    let (first, at) = first_from(spread, from);
    let (last, end) = first_from(spread, until);
    if last < first {
        return 0;
    }
    (items_between(spread, first, last) + end).saturating_sub(at) as u32
}

/// The lengths of the pages from one up to another, added up.
fn items_between<K: Copy, V: Copy>(spread: &Spread<K, V>, first: usize, until: usize) -> usize
    requires order { first ≤ until }
    requires there { until ≤ length (pages_in spread.now) }
    requires small { length (joined (pages_in spread.now)) ≤ 2 ^ 30 }
    ensures { start (pages_in spread.now) first + result ≡ start (pages_in spread.now) until }
{
    let mut count = 0;
    for i in first..until {
        count += spread.page(i).len();
    }
    count
}
