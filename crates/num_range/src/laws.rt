//! Laws over the definitions on numbers and ranges, each proved as the contract of a function that does nothing.
ghost use Rattle.std.specs.Prelude.{◌≡◌, ◌↔◌, true};
ghost use Rattle.std.specs.Ordering.{is_lt};
ghost use Rattle.num_range.specs.Number.{PlainNumber};
ghost use Rattle.num_range.specs.Range.{PlainRange, Holds, IsInside, Meets, range_holds, lies_inside, ranges_meet, range_before};

use crate::Range;

/// The tests of ranges pass just where the relations of their names hold.
pub fn tests_are_relations()
    ensures holds { (r : PlainRange) (n : PlainNumber) → (range_holds r n ≡ true) ↔ Holds r n }
    ensures inside { (r s : PlainRange) → (lies_inside r s ≡ true) ↔ IsInside r s }
    ensures meets { (r s : PlainRange) → (ranges_meet r s ≡ true) ↔ Meets r s }
{}

/// Ranges compare by space, then by first, then by last number.
pub fn ranges_are_in_order()
    ensures { (r s : PlainRange) → is_lt (⟦<Range as Ord>⟧.cmp r s) ≡ range_before r s }
{}
