//! Laws over covers and cuts, each proved as the contract of a function that does nothing.
ghost use Rattle.std.specs.Prelude.{◌≡◌, ◌*◌, ◌^◌, ◌≤◌, ◌↔◌, Contains, List, length, sum_by};
ghost use Rattle.num_range.specs.Space.{width_of};
ghost use Rattle.num_range.specs.Range.{PlainRange, IsRange, size_of};
ghost use Rattle.num_range.specs.Cover.{least_cover, reverse_cuts};
ghost use Rattle.cidr_cover.specs.Blocks.{IsCoverOf, IsRising};
ghost use Rattle.cidr_cover.specs.Cuts.{IsReverseCut};

/// The least cover of a range is a list of blocks that hold exactly the range's numbers. They rise and are disjoint,
/// and their sizes add up to the range's.
pub fn cover_is_exact()
    ensures exact { (r : PlainRange) → IsRange r → IsCoverOf r (least_cover r) }
    ensures rises { (r : PlainRange) → IsRising (least_cover r) }
    ensures sizes { (r : PlainRange) → IsRange r → sum_by size_of (least_cover r) ≡ size_of r }
{}

/// No list of blocks that hold exactly a range's numbers is shorter than its least cover. That has at most twice as many
/// blocks as a number has bits.
pub fn cover_is_least()
    ensures least { (r : PlainRange) (bs : List PlainRange) → IsRange r → IsCoverOf r bs
        → length (least_cover r) ≤ length bs }
    ensures few { (r : PlainRange) → length (least_cover r) ≤ 2 * width_of r.space }
{}

/// The reverse cuts of a range are the blocks of a cut's length that lie inside the range and in no shorter such block
/// inside it. They rise and are disjoint.
pub fn cuts_are_widest()
    ensures cuts { (r b : PlainRange) → Contains (reverse_cuts r) b ↔ IsReverseCut r b }
    ensures rises { (r : PlainRange) → IsRising (reverse_cuts r) }
{}

/// A range has no more than 2^24 reverse cuts: 2^16 for each block of its least cover.
pub fn cuts_are_few()
    ensures { (r : PlainRange) → length (reverse_cuts r) ≤ 2 ^ 24 }
{}
