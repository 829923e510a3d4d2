//! Finding places by halving, first among the pages and then in one of them.
ghost use Rattle.std.specs.Prelude.{◌≡◌, ℕ, ◌+◌, ◌-◌, ◌*◌, ◌/◌, ◌^◌, ◌<◌, ◌≤◌, true, length};
ghost use Rattle.std.specs.List.{prefix_len};
ghost use Rattle.page_dir.specs.Pages.{HoldsEnough, joined, page_of};
ghost use Rattle.page_dir.specs.Searching.{FailsAt, IsDown, IsTurn, IsWindow, PassesAt, power_bound, stands_before};
ghost use Rattle.page_dir.specs.Sorted.{Rises, rank};
ghost use Rattle.page_dir.specs.Spread.{IsPlace, IsWalk, pages_in, start};

use crate::Steps;
use crate::spread::Spread;
use std::marker::Brand;
use std::sync::ledger::{Blank, Ledger};

/// Which keys stand before the place that is looked for: those below the key, or those up to it.
#[derive(Clone, Copy)]
pub(crate) enum Side {
    Below,
    UpTo,
}

fn stands_before<K: Ord, L: Ledger>(key: &K, limit: &K, side: Side, steps: &mut Steps<L>) -> bool
    ensures before { result ≡ stands_before K.cmp side limit.now key.now }
    ensures counted { steps.new ≡ steps.old + 1 }
{
    steps.tick();
    let order = key.cmp(limit);
    match side {
        Side::Below => order.is_lt(),
        Side::UpTo => order.is_le(),
    }
}

/// Some of the rows of a list, from one on. The place that is looked for is in front of the first of them or behind one.
#[derive(Clone, Copy)]
struct Window {
    low: usize,
    left: usize,
}

/// Halves a window that has more than one row.
#[inline(always)]
fn halve<K: Ord + Copy, V: Copy, L: Ledger>(
    rows: &[(K, V)],
    key: &K,
    side: Side,
    steps: &mut Steps<L>,
    window: Window,
) -> Window
    requires down { IsDown (λ p. stands_before K.cmp side key.now p.0) rows.now }
    requires window { IsWindow
        (PassesAt (λ p. stands_before K.cmp side key.now p.0) rows.now)
        (FailsAt (λ p. stands_before K.cmp side key.now p.0) rows.now)
        (length rows.now) window.low window.left }
    ensures window { IsWindow
        (PassesAt (λ p. stands_before K.cmp side key.now p.0) rows.now)
        (FailsAt (λ p. stands_before K.cmp side key.now p.0) rows.now)
        (length rows.now) result.low result.left }
    ensures fewer { result.left ≡ window.left - window.left / 2 }
    ensures counted { steps.old ≤ steps.new }
    ensures cost { 2 ^ (steps.new - steps.old) * power_bound result.left ≤ power_bound window.left }
{
    if window.left <= 1 {
        return window;
    }
    let half = window.left / 2;
    let middle = window.low + half;
    let left = window.left - half;
    if stands_before(&rows[middle].0, key, side, steps) {
        Window { low: middle, left }
    } else {
        Window {
            low: window.low,
            left,
        }
    }
}

/// Halves a window six times. Here LLVM makes each choice of a half a conditional move; in a loop it would be a branch, and
/// every second of those is mispredicted. First keys stand in a row, so there is nothing to be read ahead.
#[inline(never)]
fn halve_often<K: Ord + Copy, V: Copy, L: Ledger>(
    rows: &[(K, V)],
    key: &K,
    side: Side,
    steps: &mut Steps<L>,
    window: Window,
) -> Window
    requires down { IsDown (λ p. stands_before K.cmp side key.now p.0) rows.now }
    requires window { IsWindow
        (PassesAt (λ p. stands_before K.cmp side key.now p.0) rows.now)
        (FailsAt (λ p. stands_before K.cmp side key.now p.0) rows.now)
        (length rows.now) window.low window.left }
    ensures window { IsWindow
        (PassesAt (λ p. stands_before K.cmp side key.now p.0) rows.now)
        (FailsAt (λ p. stands_before K.cmp side key.now p.0) rows.now)
        (length rows.now) result.low result.left }
    ensures fewer { 1 < window.left → result.left < window.left }
    ensures counted { steps.old ≤ steps.new }
    ensures cost { 2 ^ (steps.new - steps.old) * power_bound result.left ≤ power_bound window.left }
{
    let halved = halve(rows, key, side, steps, window);
    let twice = halve(rows, key, side, steps, halved);
    let thrice = halve(rows, key, side, steps, twice);
    let four_times = halve(rows, key, side, steps, thrice);
    let five_times = halve(rows, key, side, steps, four_times);
    halve(rows, key, side, steps, five_times)
}

/// Whether just so many rows stand before the place: two comparisons say so.
fn is_turn<K: Ord + Copy, V: Copy, L: Ledger>(
    rows: &[(K, V)],
    key: &K,
    side: Side,
    steps: &mut Steps<L>,
    count: usize,
) -> bool
    ensures turn { result ≡ true → IsTurn
        (PassesAt (λ p. stands_before K.cmp side key.now p.0) rows.now)
        (FailsAt (λ p. stands_before K.cmp side key.now p.0) rows.now)
        (length rows.now) count }
    ensures counted { steps.old ≤ steps.new }
    ensures few { steps.new ≤ steps.old + 2 }
{
    if rows.len() < count {
        return false;
    }
    if 0 < count && !stands_before(&rows[count - 1].0, key, side, steps) {
        return false;
    }
    if count == rows.len() {
        return true;
    }
    !stands_before(&rows[count].0, key, side, steps)
}

/// How many rows stand before the place. Whether it is so many as were near is asked first, and then whether it is one less,
/// as where keys fall.
fn rows_before<K: Ord + Copy, V: Copy, L: Ledger>(
    rows: &[(K, V)],
    key: &K,
    side: Side,
    steps: &mut Steps<L>,
    near: usize,
) -> usize
    requires { IsDown (λ p. stands_before K.cmp side key.now p.0) rows.now }
    ensures turn { IsTurn
        (PassesAt (λ p. stands_before K.cmp side key.now p.0) rows.now)
        (FailsAt (λ p. stands_before K.cmp side key.now p.0) rows.now)
        (length rows.now) result }
    ensures counted { steps.old ≤ steps.new }
    ensures cost { 2 ^ (steps.new - steps.old) ≤ 32 * power_bound (length rows.now) }
{
    if is_turn(rows, key, side, steps, near) {
        return near;
    }
    let less = near.saturating_sub(1);
    if is_turn(rows, key, side, steps, less) {
        return less;
    }
    rows_by_halving(rows, key, side, steps)
}

/// How many rows stand before the place, by halving.
fn rows_by_halving<K: Ord + Copy, V: Copy, L: Ledger>(
    rows: &[(K, V)],
    key: &K,
    side: Side,
    steps: &mut Steps<L>,
) -> usize
    requires { IsDown (λ p. stands_before K.cmp side key.now p.0) rows.now }
    ensures turn { IsTurn
        (PassesAt (λ p. stands_before K.cmp side key.now p.0) rows.now)
        (FailsAt (λ p. stands_before K.cmp side key.now p.0) rows.now)
        (length rows.now) result }
    ensures counted { steps.old ≤ steps.new }
    ensures cost { 2 ^ (steps.new - steps.old) ≤ 2 * power_bound (length rows.now) }
{
    if rows.is_empty() {
        return 0;
    }
    let mut window = Window {
        low: 0,
        left: rows.len(),
    };
    while window.left > 1 {
        window = halve_often(rows, key, side, steps, window);
    }
    if stands_before(&rows[window.low].0, key, side, steps) {
        window.low + 1
    } else {
        window.low
    }
}

/// How many pages begin before the place.
fn pages_before<K: Ord + Copy, V: Copy, L: Ledger>(
    spread: &Spread<K, V>,
    key: &K,
    side: Side,
    steps: &mut Steps<L>,
) -> usize
    requires filled { (i : ℕ) → i < length (pages_in spread.now) → 0 < length (page_of (pages_in spread.now) i) }
    requires down { IsDown (λ p. stands_before K.cmp side key.now p.0) (joined (pages_in spread.now)) }
    ensures turn { IsTurn
        (λ i. PassesAt (λ p. stands_before K.cmp side key.now p.0) (page_of (pages_in spread.now) i) 0)
        (λ i. FailsAt (λ p. stands_before K.cmp side key.now p.0) (page_of (pages_in spread.now) i) 0)
        (length (pages_in spread.now)) result }
    ensures counted { steps.old ≤ steps.new }
    ensures cost { 2 ^ (steps.new - steps.old) ≤ 32 * power_bound (length (pages_in spread.now)) }
{
    rows_before(spread.firsts(), key, side, steps, spread.near())
}

/// How many pairs of a page stand before the place. Here a branch is right: a page is seldom at hand, and what the processor
/// reads ahead behind a branch is read in time.
fn pairs_before<K: Ord + Copy, V: Copy, L: Ledger>(
    page: &[(K, V)],
    key: &K,
    side: Side,
    steps: &mut Steps<L>,
) -> usize
    requires { length page.now ≤ 64 }
    ensures turn { IsTurn
        (PassesAt (λ p. stands_before K.cmp side key.now p.0) page.now)
        (FailsAt (λ p. stands_before K.cmp side key.now p.0) page.now)
        (length page.now) result }
    ensures counted { steps.old ≤ steps.new }
    ensures cost { 2 ^ (steps.new - steps.old) ≤ 2 * length page.now + 1 }
{
    let (mut low, mut high) = (0, page.len());
    while low < high {
        let middle = low + (high - low) / 2;
        if stands_before(&page[middle].0, key, side, steps) {
            low = middle + 1;
        } else {
            high = middle;
        }
    }
    low
}

/// The page and the place in it behind all pairs that stand before.
pub(crate) fn locate<K: Ord + Copy, V: Copy, L: Ledger>(
    spread: &Spread<K, V>,
    key: &K,
    side: Side,
    steps: &mut Steps<L>,
) -> (usize, usize)
    requires enough { (i : ℕ) → i < length (pages_in spread.now) → HoldsEnough (pages_in spread.now) i }
    requires rises { Rises K.cmp (joined (pages_in spread.now)) }
    ensures place { IsPlace (pages_in spread.now) result.0 result.1 }
    ensures front { result.1 ≡ 0 → result.0 ≡ 0 }
    ensures before { start (pages_in spread.now) result.0 + result.1
        ≡ prefix_len (λ p. stands_before K.cmp side key.now p.0) (joined (pages_in spread.now)) }
    ensures counted { steps.old ≤ steps.new }
    ensures cost { 2 ^ (steps.new - steps.old) ≤ 256 * (2 * length (joined (pages_in spread.now)) + 1) }
{
    let pages = pages_before(spread, key, side, steps);
    if pages == 0 {
        return (0, 0);
    }
    let at = pairs_before(spread.page(pages - 1), key, side, steps);
    (pages - 1, at)
}

/// The place of the first key that is at least this one; nobody counts the comparisons.
pub(crate) fn place_of<K: Ord + Copy, V: Copy, L: Ledger>(
    spread: &Spread<K, V>,
    key: &K,
    blank: Blank,
) -> (usize, usize)
    requires name { blank.name ≡ L.name }
    requires parts { blank.parts ≡ L.parts }
    requires some { 0 < blank.parts }
    requires enough { (i : ℕ) → i < length (pages_in spread.now) → HoldsEnough (pages_in spread.now) i }
    requires rises { Rises K.cmp (joined (pages_in spread.now)) }
    ensures place { IsPlace (pages_in spread.now) result.0 result.1 }
    ensures before { start (pages_in spread.now) result.0 + result.1 ≡ rank K.cmp key.now (joined (pages_in spread.now)) }
{
    let mut steps = Steps::<L>::new(blank);
    locate(spread, key, Side::Below, &mut steps)
}

/// How many pages there are up to the one that the key belongs in; nobody counts the comparisons.
fn pages_up_to<K: Ord + Copy, V: Copy, L: Ledger>(
    spread: &Spread<K, V>,
    key: &K,
    blank: Blank,
) -> usize
    requires name { blank.name ≡ L.name }
    requires parts { blank.parts ≡ L.parts }
    requires some { 0 < blank.parts }
    requires enough { (i : ℕ) → i < length (pages_in spread.now) → HoldsEnough (pages_in spread.now) i }
    requires rises { Rises K.cmp (joined (pages_in spread.now)) }
{
    let mut steps = Steps::<L>::new(blank);
    pages_before(spread, key, Side::UpTo, &mut steps)
}

/// The same place, as one of the next page where it is the end of a page.
pub(crate) fn forward<K: Copy, V: Copy>(
    spread: &Spread<K, V>,
    i: usize,
    at: usize,
) -> (usize, usize)
    requires { IsPlace (pages_in spread.now) i at }
    ensures place { IsPlace (pages_in spread.now) result.0 result.1 }
    ensures same { start (pages_in spread.now) result.0 + result.1 ≡ start (pages_in spread.now) i + at }
    ensures inside { result.0 < length (pages_in spread.now) → 0 < length (page_of (pages_in spread.now) result.0)
        → result.1 < length (page_of (pages_in spread.now) result.0) }
{
    if i < spread.len() && at == spread.page(i).len() {
        (i + 1, 0)
    } else {
        (i, at)
    }
}

/// The pair with the first key that is at least this one, by its page and its place there.
pub(crate) fn first_from<K: Ord + Copy, V: Copy>(spread: &Spread<K, V>, key: &K) -> (usize, usize)
    requires enough { (i : ℕ) → i < length (pages_in spread.now) → HoldsEnough (pages_in spread.now) i }
    requires rises { Rises K.cmp (joined (pages_in spread.now)) }
    ensures place { IsWalk (pages_in spread.now) result.0 result.1 }
    ensures before { start (pages_in spread.now) result.0 + result.1 ≡ rank K.cmp key.now (joined (pages_in spread.now)) }
{
    let (page, at) = place_of::<K, V, Brand>(spread, key, Blank::new(1));
    forward(spread, page, at)
}

/// How many pages there are up to the one that the key belongs in.
pub(crate) fn page_near<K: Ord + Copy, V: Copy>(spread: &Spread<K, V>, key: &K) -> usize
    requires enough { (i : ℕ) → i < length (pages_in spread.now) → HoldsEnough (pages_in spread.now) i }
    requires rises { Rises K.cmp (joined (pages_in spread.now)) }
{
    pages_up_to::<K, V, Brand>(spread, key, Blank::new(1))
}

/// The place where a run of so many pairs begins: at the end of a page only where there is nothing in the run.
pub(crate) fn run_from<K: Ord + Copy, V: Copy>(
    spread: &Spread<K, V>,
    key: &K,
    n: u32,
) -> (usize, usize)
    requires enough { (i : ℕ) → i < length (pages_in spread.now) → HoldsEnough (pages_in spread.now) i }
    requires rises { Rises K.cmp (joined (pages_in spread.now)) }
    ensures place { IsPlace (pages_in spread.now) result.0 result.1 }
    ensures before { start (pages_in spread.now) result.0 + result.1 ≡ rank K.cmp key.now (joined (pages_in spread.now)) }
{
    let (page, at) = place_of::<K, V, Brand>(spread, key, Blank::new(1));
    if n == 0 {
        return (page, at);
    }
    forward(spread, page, at)
}
