//! A pool of a fixed number of places, each vacant or with a value, which are named by small slots. All memory is taken
//! when the pool is made; placing a value, taking it out and looking at it cost the same at every size.
#![tactic(auto)]

mod pool;
mod slot;

pub use pool::Pool;
pub use slot::Slot;
