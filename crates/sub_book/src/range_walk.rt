use crate::by_last::ByLast;
use num_range::Range;
use page_dir::PageWalk;
use std::marker::Model;

/// Goes over the ranges that have a number in common with one, rising, each with its value.
#[derive(Drop)]
pub struct RangeWalk<'a, T: Copy> {
    met: Range,
    rest: PageWalk<'a, ByLast, T>,
}

impl<'a, T: Copy> Model for RangeWalk<'a, T> {
    ghost use Rattle.std.specs.Prelude.{List};
    ghost use Rattle.num_range.specs.Range.{PlainRange};
    ghost use Rattle.sub_book.specs.Book.{ranges_meeting};
    ghost use Rattle.sub_book.specs.Walk.{MeetFirst};

    ghost Value = { List (PlainRange × T) };

    ghost view = { λ w. ranges_meeting w.rest w.met };

    ghost invariant = { λ w. MeetFirst w.met w.rest };
}

impl<T: Copy> RangeWalk<'_, T> {
    ghost use Rattle.std.specs.Prelude.{◌≡◌};
    ghost use Rattle.sub_book.specs.Book.{ranges_meeting};
    ghost use Rattle.sub_book.specs.Walk.{MeetFirst};

    pub(crate) fn over<'a>(met: Range, rest: PageWalk<'a, ByLast, T>) -> RangeWalk<'a, T>
        requires { MeetFirst met rest }
        ensures { result ≡ ranges_meeting rest.entry met }
    {
        RangeWalk { met, rest }
    }
}

impl<T: Copy> Iterator for RangeWalk<'_, T> {
    ghost use Rattle.std.specs.Iterator.{YieldsFirst, item_count};

    type Item = (Range, T);

    ghost next_gives = { YieldsFirst (λ w. w) };

    ghost remaining = { item_count (λ w. w) };

    fn next(&mut self) -> Option<(Range, T)> {
        let (key, value) = self.rest.next()?;
        let range = key.range();
        if range.meets(&self.met) {
            Some((range, value))
        } else {
            None
        }
    }
}
