//! A reader that may be refused, with the count of its refusals.
#![tactic(auto)]

mod edge;

pub use edge::EdgeReader;
