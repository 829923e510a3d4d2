ghost use Rattle.std.specs.Prelude.{◌≡◌, ◌+◌, ◌≤◌, ◌<◌, true, length, drop, if◌then◌else◌};
ghost use Rattle.std.specs.Bool.{OnTrue};
ghost use Rattle.std.specs.List.{slice_get};
ghost use Rattle.std.specs.Option.{IfSome};
ghost use Rattle.std.specs.Ordering.{is_le};
ghost use Rattle.page_dir.specs.Sorted.{MeetsBelow, Rises, last_at_most, rank};
ghost use Rattle.page_dir.specs.Splices.{spliced};

use page_dir::{PageDir, Steps};
use std::alloc::{AllocError, Global};
use std::marker::{Brand, Model};
use std::sync::ledger::{Blank, Ledger};
use std::test::Fail;

/// A caller's struct, which is seen as the list of its pairs.
#[derive(Drop)]
struct Listed<K: Ord + Copy, V: Copy> {
    dir: PageDir<K, V>,
}

impl<K: Ord + Copy, V: Copy> Model for Listed<K, V> {
    ghost use Rattle.std.specs.Prelude.{List};

    ghost Value = { List (K × V) };

    ghost view = { λ l. l.dir.pairs };
}

impl<K: Ord + Copy, V: Copy> Listed<K, V> {
    /// Splices where the pairs that go are there, the order stays strict and there is room, and says whether that is so.
    fn splice(&mut self, from: &K, n: u32, new: &[(K, V)]) -> bool
        ensures { self.new ≡ (if result then spliced (rank K.cmp from.now self.old) n new.now self.old else self.old) }
    {
        if !begins_from(new, from) || !rises(new) || !ends_below(&self.dir, from, n, new) {
            return false;
        }
        let rest = (self.dir.len() - n) as usize;
        if new.len() > self.dir.room() as usize - rest {
            return false;
        }
        self.dir.replace_run(from, n, new);
        true
    }
}

fn begins_from<K: Ord, V>(pairs: &[(K, V)], from: &K) -> bool
    ensures { OnTrue result (IfSome (slice_get pairs.now 0) (λ p. is_le (K.cmp from.now p.0) ≡ true)) }
{
    match pairs.first() {
        None => true,
        Some(first) => from.cmp(&first.0).is_le(),
    }
}

fn rises<K: Ord + Copy, V: Copy>(pairs: &[(K, V)]) -> bool
    ensures { OnTrue result (Rises K.cmp pairs.now) }
{
    for i in 1..pairs.len() {
        let (before, _) = pairs[i - 1];
        let (here, _) = pairs[i];
        if !before.cmp(&here).is_lt() {
            return false;
        }
    }
    true
}

fn ends_below<K: Ord + Copy, V: Copy>(dir: &PageDir<K, V>, from: &K, n: u32, new: &[(K, V)]) -> bool
    ensures there { OnTrue result (rank K.cmp from.now dir.now.pairs + n ≤ length dir.now.pairs) }
    ensures meets { OnTrue result (MeetsBelow K.cmp new.now (drop (rank K.cmp from.now dir.now.pairs + n) dir.now.pairs)) }
{
    let mut walk = dir.walk_from(from);
    for _ in 0..n {
        let Some(_) = walk.next() else {
            return false;
        };
    }
    let Some((next, _)) = walk.next() else {
        return true;
    };
    match new {
        [] => true,
        [.., (last, _)] => last.cmp(&next).is_lt(),
    }
}

/// Keys that stand for numbers, in their order.
trait Key: Ord + Copy {
    fn of(number: u64) -> Self;
}

impl Key for u128 {
    fn of(number: u64) -> u128 {
        u128::from(number)
    }
}

impl Key for (u64, u8) {
    fn of(number: u64) -> (u64, u8) {
        (number / 256, (number % 256) as u8)
    }
}

impl Key for [u8; 8] {
    fn of(number: u64) -> [u8; 8] {
        number.to_be_bytes()
    }
}

/// Numbers that look random.
#[derive(Drop)]
struct Numbers {
    state: u64,
}

impl Numbers {
    fn below(&mut self, bound: u64) -> u64
        requires { 0 < bound }
        ensures { result < bound }
    {
        self.state ^= self.state << 13;
        self.state ^= self.state >> 7;
        self.state ^= self.state << 17;
        self.state % bound
    }
}

/// How many pairs stand below a number.
fn below(plain: &[(u64, u64)], number: u64) -> usize {
    for i in 0..plain.len() {
        if plain[i].0 >= number {
            return i;
        }
    }
    plain.len()
}

/// Whether new pairs fit between so many and the rest.
fn fits(at: usize, new: &[(u64, u64)], rest: &[(u64, u64)], room: usize) -> bool {
    if let (Some(last), Some(next)) = (new.last(), rest.first()) {
        if last.0 >= next.0 {
            return false;
        }
    }
    rest.len().saturating_add(at).saturating_add(new.len()) <= room
}

/// The same splice of a plain list, where the same holds of it.
fn splice_plain(
    alloc: Global,
    plain: &mut Vec<(u64, u64)>,
    from: u64,
    n: u64,
    new: &[(u64, u64)],
    room: usize,
) -> Result<bool, AllocError> {
    let at = below(plain, from);
    let Some(rest) = plain.as_slice().get(at.saturating_add(n as usize)..) else {
        return Ok(false);
    };
    if !fits(at, new, rest, room) {
        return Ok(false);
    }
    let rest = rest.to_vec(alloc)?;
    plain.truncate(at);
    plain.extend_from_slice(new)?;
    plain.extend_from_slice(&rest)?;
    Ok(true)
}

fn agrees<K: Key>(dir: &PageDir<K, u64>, plain: &[(u64, u64)]) -> bool {
    let mut walk = dir.walk_from(&K::of(0));
    for (number, value) in plain {
        match walk.next() {
            Some((key, v)) if key.cmp(&K::of(*number)).is_eq() && v == *value => {}
            _ => return false,
        }
    }
    walk.next().is_none() && dir.len() as usize == plain.len()
}

fn found<K: Ord + Copy, V: Copy, L: Ledger>(
    dir: &PageDir<K, V>,
    key: &K,
    blank: Blank,
) -> Option<(K, V)>
    requires name { blank.name ≡ L.name }
    requires parts { blank.parts ≡ L.parts }
    requires some { 0 < blank.parts }
{
    let mut steps = Steps::<L>::new(blank);
    dir.find(key, &mut steps)
}

/// What is found at a number, from above and from below.
fn finds_alike<K: Key>(dir: &PageDir<K, u64>, plain: &[(u64, u64)], number: u64) -> bool {
    let key = K::of(number);
    let below = plain.iter().rev().find(|p| p.0 <= number).map(|p| p.1);
    let above = plain.iter().find(|p| p.0 >= number).map(|p| p.1);
    found::<K, u64, Brand>(dir, &key, Blank::new(1)).map(|p| p.1) == below
        && dir.from(&key).map(|p| p.1) == above
}

/// How many pairs stand from one number up to another.
fn counts_alike<K: Key>(
    dir: &PageDir<K, u64>,
    plain: &[(u64, u64)],
    from: u64,
    until: u64,
) -> bool {
    let between = below(plain, until).saturating_sub(below(plain, from));
    dir.count_between(&K::of(from), &K::of(until)) as usize == between
}

/// One splice of each list, mostly a short one.
fn splice_both<K: Key>(
    alloc: Global,
    dir: &mut Listed<K, u64>,
    plain: &mut Vec<(u64, u64)>,
    numbers: &mut Numbers,
) -> Result<bool, AllocError> {
    let from = numbers.below(1_000_000);
    let most = if numbers.below(40) == 0 { 150 } else { 4 };
    let n = numbers.below(most);
    let come = numbers.below(most);
    let mut new = Vec::new(alloc);
    let mut keyed = Vec::new(alloc);
    for i in 0..come {
        let value = numbers.below(1_000);
        new.push((from + i, value))?;
        keyed.push((K::of(from + i), value))?;
    }
    let did = splice_plain(alloc, plain, from, n, &new, 3_000)?;
    Ok(dir.splice(&K::of(from), n as u32, &keyed) == did)
}

/// Splices both lists, and compares them after each hundred.
fn drive_both<K: Key>(
    alloc: Global,
    dir: &mut Listed<K, u64>,
    plain: &mut Vec<(u64, u64)>,
    splices: u32,
) -> Result<bool, AllocError> {
    let mut numbers = Numbers {
        state: 88_172_645_463_325_252,
    };
    for i in 0..splices {
        if !splice_both(alloc, dir, plain, &mut numbers)? {
            return Ok(false);
        }
        if i % 100 == 99 {
            let number = numbers.below(1_000_000);
            let (from, until) = (numbers.below(1_000_000), numbers.below(1_000_000));
            let alike = agrees(&dir.dir, plain) && finds_alike(&dir.dir, plain, number);
            if !alike || !counts_alike(&dir.dir, plain, from, until) {
                return Ok(false);
            }
        }
    }
    Ok(true)
}

fn drive<K: Key>(alloc: Global, splices: u32) -> Result<bool, AllocError> {
    let mut plain = Vec::new(alloc);
    let mut dir = Listed {
        dir: PageDir::<K, u64>::with_room(alloc, 3_000)?,
    };
    drive_both(alloc, &mut dir, &mut plain, splices)
}

#[test]
fn random_splices(rt: HostRuntime) -> Result<(), Fail> {
    assert!(rt; drive::<u128>(rt.alloc(), 20_000)?);
    assert!(rt; drive::<(u64, u8)>(rt.alloc(), 2_000)?);
    assert!(rt; drive::<[u8; 8]>(rt.alloc(), 2_000)?);
    Ok(())
}

/// From which number on, how many pairs go, how many come with the numbers from there on, whether that may be, and how many
/// pages and pairs there are then; none where more than one count of pages is right.
type Row = (u64, u32, u64, bool, Option<usize>, u32);

/// The rows of a directory with room for 200.
const SPLICES: [Row; 23] = [
    (1000, 0, 64, true, Some(1), 64),
    (1064, 0, 1, true, Some(2), 65),
    (1064, 1, 0, true, Some(1), 64),
    (999, 0, 1, true, Some(2), 65),
    (999, 1, 0, true, Some(1), 64),
    (1000, 65, 0, false, Some(1), 64),
    (1010, 0, 1, false, Some(1), 64),
    (1010, 0, 0, true, Some(1), 64),
    (1010, 54, 54, true, Some(1), 64),
    (1000, 64, 0, true, Some(0), 0),
    (1000, 1, 0, false, Some(0), 0),
    (1000, 0, 0, true, Some(0), 0),
    (0, 0, 200, true, None, 200),
    (500, 0, 1, false, None, 200),
    (100, 1, 1, true, None, 200),
    (3, 150, 100, true, None, 150),
    (5, 1, 52, false, None, 150),
    (0, 150, 65, true, Some(2), 65),
    (0, 1, 0, true, Some(1), 64),
    (0, 65, 0, false, Some(1), 64),
    (1, 64, 0, true, Some(0), 0),
    (7, 0, 1, true, Some(1), 1),
    (7, 1, 0, true, Some(0), 0),
];

/// So many pairs with the numbers from there on.
fn pairs_from(alloc: Global, from: u64, count: u64) -> Result<Vec<(u128, u64)>, AllocError> {
    let mut pairs = Vec::new(alloc);
    for i in 0..count {
        pairs.push((u128::from(from) + u128::from(i), i))?;
    }
    Ok(pairs)
}

/// Whether it goes as the row says.
fn goes_as_told(alloc: Global, dir: &mut Listed<u128, u64>, row: &Row) -> Result<bool, AllocError> {
    let (from, n, come, fits, pages, len) = *row;
    let new = pairs_from(alloc, from, come)?;
    let did = dir.splice(&u128::from(from), n, &new);
    let order = dir.dir.order().len();
    Ok(did == fits && pages.unwrap_or(order) == order && dir.dir.len() == len)
}

/// Whether all rows go so, and then the directory is as it was made: seven pages are enough for 200 pairs, and two are spare.
fn go_as_told(alloc: Global, dir: &mut Listed<u128, u64>) -> Result<bool, AllocError> {
    for row in SPLICES.iter() {
        if !goes_as_told(alloc, dir, row)? {
            return Ok(false);
        }
    }
    Ok(dir.dir.room() == 200 && dir.dir.is_empty() && dir.dir.pages().spare() == 9)
}

/// Whether all rows go so in a directory of their own.
fn all_go(alloc: Global) -> Result<bool, AllocError> {
    let mut dir = Listed {
        dir: PageDir::with_room(alloc, 200)?,
    };
    go_as_told(alloc, &mut dir)
}

#[test]
fn splices_at_the_ends(rt: HostRuntime) -> Result<(), Fail> {
    assert!(rt; all_go(rt.alloc())?);
    Ok(())
}

/// A number that is seen as itself, as the types of the layers above are.
#[derive(Clone, Copy, PartialEq, Eq, Debug)]
struct Mark {
    code: u8,
}

impl Model for Mark {
    ghost use Rattle.std.specs.Prelude.{ℕ};

    ghost Value = { ℕ };

    ghost view = { λ m. m.code };

    ghost inverse = { λ n. record { code = n } };
}

#[derive(Clone, Copy, PartialEq, Eq, Debug)]
struct Part {
    last: u128,
    mark: Mark,
}

fn part_until(last: u128) -> Part {
    Part {
        last,
        mark: Mark { code: 7 },
    }
}

/// Seventy pairs come one by one, and all go but the first ten and the last.
fn keeps_structs(dir: &mut Listed<u128, Part>) -> bool {
    for number in 0..70u64 {
        let first = u128::from(number);
        if !dir.splice(&first, 0, &[(first, part_until(first + 5))]) {
            return false;
        }
    }
    let last = Some((69, part_until(74)));
    dir.splice(&10, 59, &[])
        && dir.dir.from(&10) == last
        && dir.dir.walk_from(&10).next() == last
        && dir.dir.order().len() == 1
}

/// Whether a directory keeps structs.
fn holds(alloc: Global) -> Result<bool, AllocError> {
    let mut dir = Listed {
        dir: PageDir::<u128, Part>::with_room(alloc, 70)?,
    };
    Ok(keeps_structs(&mut dir))
}

#[test]
fn holds_structs(rt: HostRuntime) -> Result<(), Fail> {
    assert!(rt; holds(rt.alloc())?);
    Ok(())
}
