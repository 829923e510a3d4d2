//! Ranges written in blocks: the least cover of a range, and the blocks at which its reverse zones are cut. Both walk
//! greedily from the low end and take no memory.
#![tactic(auto)]

mod cover_walk;
mod cut_walk;
mod front;
pub mod laws;

pub use cover_walk::{CoverWalk, cover};
pub use cut_walk::{CutWalk, cuts};
