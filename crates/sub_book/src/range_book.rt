ghost use Rattle.std.specs.Prelude.{◌≡◌, ◌+◌, ◌-◌, ◌^◌, ◌<◌, ◌≤◌, ◌&&◌, [], None, filter, is_some, length, if◌then◌else◌, IfOk, IsSome, vec_capacity};
ghost use Rattle.std.specs.Option.{option_map, option_to_list};
ghost use Rattle.std.specs.List.{slice_get};
ghost use Rattle.num_range.specs.Number.{number_before};
ghost use Rattle.num_range.specs.Range.{IsRange, first_number, lies_inside, range_holds};
ghost use Rattle.reg_entry.specs.Pieces.{IsPoolRange};
ghost use Rattle.reg_entry.specs.Ranges.{AreApart, first_meeting, ranges_inside, value_of_range, with_range, without_inside, without_range};
ghost use Rattle.reg_entry.specs.Decision.{straddling};
ghost use Rattle.reg_entry.specs.Sums.{ranges_size};
ghost use Rattle.page_dir.specs.Splices.{spliced};
ghost use Rattle.sub_book.specs.Book.{NoneStraddles, enclosing, ranges_meeting};
ghost use Rattle.sub_book.specs.Order.{coming, ended_below, next_inside};

use crate::RangeWalk;
use crate::by_last::ByLast;
use num_range::{Number, Range};
use page_dir::PageDir;
use std::alloc::{AllocError, Global};
use std::marker::Model;

/// Disjoint ranges of the three spaces in their order, each with a value. Making one takes memory, and nothing after that
/// does.
#[derive(Drop)]
pub struct RangeBook<T: Copy> {
    dir: PageDir<ByLast, T>,
    // The range that comes in: memory for one, since an array of a type parameter has no known size.
    coming: Vec<(ByLast, T)>,
}

impl<T: Copy> Model for RangeBook<T> {
    ghost use Rattle.std.specs.Prelude.{vec_capacity};
    ghost use Rattle.sub_book.specs.Book.{IsRangeBook, PlainRangeBook};

    ghost Value = { PlainRangeBook T };

    ghost view = { λ b. record { ranges = b.dir.pairs; room = b.dir.room } };

    ghost invariant = { λ b. IsRangeBook b.dir.pairs (vec_capacity b.coming) };
}

impl<T: Copy> RangeBook<T> {
    /// No ranges yet, and memory for as many as the room says.
    pub fn with_room(alloc: Global, room: u32) -> Result<RangeBook<T>, AllocError>
        requires least { 1 ≤ room }
        requires most { room ≤ 2 ^ 30 }
        ensures { IfOk result (λ book. book ≡ record { ranges = []; room = room }) }
    {
        Ok(RangeBook {
            dir: PageDir::with_room(alloc, room)?,
            coming: Vec::with_capacity(alloc, 1)?,
        })
    }

    /// Tells callers what every book keeps: its ranges rise and have no number in common, and there are no more than there
    /// is room for.
    pub fn are_apart(&self)
        ensures apart { AreApart self.now.ranges }
        ensures within { length self.now.ranges ≤ self.now.room }
        ensures bound { self.now.room ≤ 2 ^ 30 }
    {
        let _room = self.dir.room();
        let _len = self.dir.len();
    }

    /// How many ranges there are.
    pub fn len(&self) -> u32
        ensures count { result ≡ length self.now.ranges }
        ensures within { length self.now.ranges ≤ self.now.room }
    {
        self.dir.len()
    }

    /// How many ranges there may be.
    pub fn room(&self) -> u32
        ensures room { result ≡ self.now.room }
        ensures bound { self.now.room ≤ 2 ^ 30 }
    {
        self.dir.room()
    }

    /// The first range that ends at the number or above.
    fn next_ending(&self, n: Number) -> Option<(Range, T)>
        ensures found { result ≡ slice_get self.now.ranges (ended_below n self.now.ranges) }
        ensures apart { AreApart self.now.ranges }
    {
        let (key, value) = self.dir.from(&ByLast::ending_at(n))?;
        Some((key.range(), value))
    }

    /// The first range that ends at the first number of this one or above.
    fn first_reaching(&self, r: &Range) -> Option<(Range, T)>
        ensures found { result ≡ slice_get self.now.ranges (ended_below (first_number r.now) self.now.ranges) }
        ensures apart { AreApart self.now.ranges }
        ensures valid { IsRange r.now }
    {
        let _first = r.first();
        self.next_ending(r.first_number())
    }

    /// The least range that has a number in common with this one. It is one look-up by halving, as each of the next three
    /// calls is.
    pub fn first_met(&self, r: &Range) -> Option<(Range, T)>
        ensures { result ≡ first_meeting self.now.ranges r.now }
    {
        let (range, value) = self.first_reaching(r)?;
        if range.meets(r) {
            Some((range, value))
        } else {
            None
        }
    }

    /// The value of this very range.
    pub fn exact(&self, r: &Range) -> Option<T>
        ensures { result ≡ value_of_range self.now.ranges r.now }
    {
        let (range, value) = self.first_reaching(r)?;
        if range == *r { Some(value) } else { None }
    }

    /// The range that this one lies inside.
    pub fn enclosing(&self, r: &Range) -> Option<(Range, T)>
        ensures range { result ≡ enclosing self.now.ranges r.now }
        ensures only { filter (λ p. lies_inside r.now p.0) self.now.ranges ≡ option_to_list result }
    {
        let (range, value) = self.first_reaching(r)?;
        if r.inside(&range) {
            Some((range, value))
        } else {
            None
        }
    }

    /// The range that holds the number and the one before it, which parting before the number would cut.
    pub fn straddling(&self, at: Number) -> Option<Range>
        ensures { result ≡ straddling self.now.ranges at }
    {
        let (range, _) = self.next_ending(at)?;
        if straddles(&range, at) {
            Some(range)
        } else {
            None
        }
    }

    /// The ranges that have a number in common with this one, rising. The first is found by halving, and each costs the same.
    pub fn walk(&self, r: &Range) -> RangeWalk<'_, T>
        ensures { result ≡ ranges_meeting self.now.ranges r.now }
    {
        RangeWalk::over(*r, self.dir.walk_from(&ByLast::ending_at(r.first_number())))
    }

    /// How many ranges lie inside this one. Two look-ups by halving, between which the lengths of pages are added up, count
    /// those that end inside, short of the last number; one more at each end says of the range there whether it lies inside.
    pub fn count_inside(&self, r: &Range) -> u32
        ensures { result ≡ length (ranges_inside self.now.ranges r.now) }
    {
        self.are_apart();
        let (first, last) = (r.first_number(), Number::of(r.space(), r.last()));
        let ending = self.count_ending(first, last);
        let at_end = self.count_next(last, r);
        if ending == 0 {
            return at_end;
        }
        ending - 1 + self.count_next(first, r) + at_end
    }

    /// How many ranges end at the one number or above, and below the other.
    fn count_ending(&self, from: Number, until: Number) -> u32
        ensures { result ≡ ended_below until self.now.ranges - ended_below from self.now.ranges }
    {
        self.dir
            .count_between(&ByLast::ending_at(from), &ByLast::ending_at(until))
    }

    /// 1 where the first range that ends at the number or above lies inside this one.
    fn count_next(&self, n: Number, r: &Range) -> u32
        ensures { result ≡ next_inside n self.now.ranges r.now }
    {
        match self.next_ending(n) {
            Some((range, _)) if range.inside(r) => 1,
            _ => 0,
        }
    }

    /// How many numbers the ranges that lie inside this one have. One look-up, and each range that meets this one is gone
    /// over.
    pub fn numbers_inside(&self, r: &Range) -> u128
        requires { IsPoolRange r.now }
        ensures { result ≡ ranges_size (ranges_inside self.now.ranges r.now) }
    {
        self.are_apart();
        let _first = r.first();
        let mut numbers = 0;
        for (range, _) in self.walk(r) {
            if range.inside(r) {
                numbers += range.size();
            }
        }
        numbers
    }

    /// Gives the range this value, where the range is there, and else adds it: one look-up, and one splice of a page.
    pub fn put(&mut self, r: Range, value: T)
        requires free { value_of_range self.old.ranges r ≡ None → first_meeting self.old.ranges r ≡ None }
        requires room { value_of_range self.old.ranges r ≡ None → length self.old.ranges < self.old.room }
        ensures ranges { self.new.ranges ≡ with_range self.old.ranges r value }
        ensures room { self.new.room ≡ self.old.room }
    {
        self.are_apart();
        let _first = r.first();
        let gone = self.count_exact(&r);
        self.replace(&r, gone, Some(value));
    }

    /// Takes out the range, by one splice of a page.
    pub fn take_out(&mut self, r: &Range)
        requires { IsSome (value_of_range self.old.ranges r.now) }
        ensures ranges { self.new.ranges ≡ without_range self.old.ranges r.now }
        ensures room { self.new.room ≡ self.old.room }
    {
        self.are_apart();
        let _first = r.first();
        self.replace(r, 1, None);
    }

    /// Takes out the ranges that lie inside this one, which are counted first by look-ups, and then go in one splice.
    pub fn drop_inside(&mut self, r: &Range)
        requires { NoneStraddles self.old.ranges r.now }
        ensures ranges { self.new.ranges ≡ without_inside self.old.ranges r.now }
        ensures room { self.new.room ≡ self.old.room }
    {
        self.are_apart();
        let gone = self.count_inside(r);
        self.replace(r, gone, None);
    }

    /// From the first range that ends at the first number of this one or above, so many go, and this one comes in their
    /// stead if there is a value for it.
    fn replace(&mut self, r: &Range, gone: u32, value: Option<T>)
        requires there { ended_below (first_number r.now) self.old.ranges + gone ≤ length self.old.ranges }
        requires apart { AreApart (spliced (ended_below (first_number r.now) self.old.ranges) gone (coming r.now value) self.old.ranges) }
        requires room { length (spliced (ended_below (first_number r.now) self.old.ranges) gone (coming r.now value) self.old.ranges) ≤ self.old.room }
        ensures ranges { self.new.ranges ≡ spliced (ended_below (first_number r.now) self.old.ranges) gone (coming r.now value) self.old.ranges }
        ensures room { self.new.room ≡ self.old.room }
    {
        hold(&mut self.coming, r, value);
        self.dir
            .replace_run(&ByLast::ending_at(r.first_number()), gone, &self.coming);
    }

    /// 1 where this very range is there.
    fn count_exact(&self, r: &Range) -> u32
        ensures { result ≡ (if is_some (value_of_range self.now.ranges r.now) then 1 else 0) }
    {
        if self.exact(r).is_some() { 1 } else { 0 }
    }
}

/// Whether the range has both the number and the one before it.
fn straddles(range: &Range, at: Number) -> bool
    ensures { result ≡ (range_holds range.now at && range_holds range.now (number_before at)) }
{
    range.holds(at) && range.holds(at.before())
}

/// Makes the list that of the range with its value, if there is one. Memory for it is reserved.
fn hold<T: Copy>(held: &mut Vec<(ByLast, T)>, r: &Range, value: Option<T>)
    requires { 1 ≤ vec_capacity held.old }
    ensures items { held.new.items ≡ coming r.now value }
    ensures capacity { 1 ≤ vec_capacity held.new }
{
    held.clear();
    if let Some(value) = value {
        held.push_reserved((ByLast::of(r), value));
    }
}
