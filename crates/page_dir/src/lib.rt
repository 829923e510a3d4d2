//! A strictly sorted list of pairs in pages of 64, which a pool holds from the start: after the list is made, nothing takes
//! memory, and a change moves no more than the pages that it meets.
#![tactic(auto)]

mod between;
mod directory;
pub mod laws;
mod locating;
mod page_pool;
mod replacing;
mod spread;
mod steps;
mod tidying;
mod walk;

pub use directory::PageDir;
pub use page_pool::PagePool;
pub use steps::Steps;
pub use walk::PageWalk;
