//! A load: what a register does with the requests that are drawn from a seed, and its summary.
#![tactic(auto)]

pub mod laws;
mod load;
mod summary;

pub use summary::write_load;
