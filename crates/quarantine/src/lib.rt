//! The pieces in quarantine that may be released on a day.
#![tactic(auto)]

mod due_walk;
pub mod laws;
mod pool_walk;

pub use due_walk::{DueWalk, due, due_count};
