//! Ranges with a value, in a sorted list: looked up and changed, each by one walk.
ghost use Rattle.std.specs.Prelude.{◌≡◌, ◌+◌, ◌<◌, ◌≤◌, true, not, filter, IfSome, length, vec_len, vec_capacity};
ghost use Rattle.num_range.specs.Range.{same_range, range_before, ranges_meet};
ghost use Rattle.reg_entry.specs.Ranges.{first_meeting, value_of_range, ranges_inside, with_range, without_range, without_inside};
ghost use Rattle.reg_entry.specs.Decision.{straddling};

use num_range::{Number, Range};

/// `==`, as a call whose contract is the definition's test.
fn is_same(a: &Range, b: &Range) -> bool
    ensures { result ≡ same_range a.now b.now }
{
    a == b
}

/// `<`, as a call whose contract is the definition's test.
fn is_before(a: &Range, b: &Range) -> bool
    ensures { result ≡ range_before a.now b.now }
{
    a < b
}

/// The two have a number in common, so that the first begins no later than the second ends.
fn meets(a: &Range, b: &Range) -> bool
    ensures test { result ≡ ranges_meet a.now b.now }
    ensures begins { result ≡ true → a.now.first ≤ b.now.last }
{
    a.meets(b) && a.first() <= b.last()
}

/// The first range that has a number in common with this one.
pub(crate) fn first_meeting<T: Copy>(ranges: &[(Range, T)], range: &Range) -> Option<(Range, T)>
    ensures first { result ≡ first_meeting ranges.now range.now }
    ensures begins { IfSome result (λ p. p.0.first ≤ range.now.last) }
{
    for p in ranges {
        if meets(&p.0, range) {
            return Some(*p);
        }
    }
    None
}

/// The first range but this very one that has a number in common with it.
pub(crate) fn first_meeting_other<T: Copy>(
    ranges: &[(Range, T)],
    range: &Range,
) -> Option<(Range, T)>
    ensures first { result ≡ first_meeting (filter (λ p. not (same_range p.0 range.now)) ranges.now) range.now }
    ensures begins { IfSome result (λ p. p.0.first ≤ range.now.last) }
{
    for p in ranges {
        if !is_same(&p.0, range) && meets(&p.0, range) {
            return Some(*p);
        }
    }
    None
}

/// The value of this very range.
pub(crate) fn value_of_range<T: Copy>(ranges: &[(Range, T)], range: &Range) -> Option<T>
    ensures { result ≡ value_of_range ranges.now range.now }
{
    for p in ranges {
        if is_same(&p.0, range) {
            return Some(p.1);
        }
    }
    None
}

/// How many ranges lie inside this one.
pub(crate) fn count_inside<T: Copy>(ranges: &[(Range, T)], range: &Range) -> usize
    ensures count { result ≡ length (ranges_inside ranges.now range.now) }
    ensures bound { result ≤ length ranges.now }
{
    let mut count = 0;
    for p in ranges {
        if p.0.inside(range) {
            count += 1;
        }
    }
    count
}

/// The first range that holds the number and the one before it.
pub(crate) fn straddling<T: Copy>(ranges: &[(Range, T)], at: Number) -> Option<Range>
    ensures { result ≡ straddling ranges.now at }
{
    for p in ranges {
        if p.0.holds(at) && p.0.holds(at.before()) {
            return Some(p.0);
        }
    }
    None
}

/// Gives the range a value, in its place in the list.
pub(crate) fn put<T: Copy>(ranges: &mut Vec<(Range, T)>, range: &Range, value: T)
    requires { vec_len ranges.old < vec_capacity ranges.old }
    ensures items { ranges.new.items ≡ with_range ranges.old.items range.now value }
    ensures capacity { vec_capacity ranges.old ≤ vec_capacity ranges.new }
{
    for i in 0..ranges.len() {
        let here = ranges[i].0;
        if is_same(&here, range) {
            ranges[i] = (*range, value);
            return;
        }
        if is_before(range, &here) {
            // There is room, so it can't fail.
            let _ = ranges.insert(i, (*range, value));
            return;
        }
    }
    ranges.push_reserved((*range, value));
}

/// Takes this very range out.
pub(crate) fn take_out<T: Copy>(ranges: &mut Vec<(Range, T)>, range: &Range)
    ensures items { ranges.new.items ≡ without_range ranges.old.items range.now }
    ensures capacity { vec_capacity ranges.new ≡ vec_capacity ranges.old }
{
    ranges.retain(|p| !is_same(&p.0, range));
}

/// Takes out the ranges that lie inside this one.
pub(crate) fn drop_inside<T: Copy>(ranges: &mut Vec<(Range, T)>, range: &Range)
    ensures items { ranges.new.items ≡ without_inside ranges.old.items range.now }
    ensures capacity { vec_capacity ranges.new ≡ vec_capacity ranges.old }
{
    ranges.retain(|p| !p.0.inside(range));
}
