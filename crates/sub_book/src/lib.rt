//! Ranges that carry a value, sorted and disjoint: sub-assignments and reverse entries are kept so.
#![tactic(auto)]

mod by_last;
mod range_book;
mod range_walk;

pub use range_book::RangeBook;
pub use range_walk::RangeWalk;
