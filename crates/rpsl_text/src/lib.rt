//! Objects of the register as text of the Routing Policy Specification Language, and such text read (RFC 2622 2).
#![tactic(auto)]

mod attrs;
mod fault;
pub mod laws;
mod lines;
mod read;
mod write;

pub use attrs::{Attrs, PairWalk};
pub use fault::RpslFault;
pub use lines::{continuation_of, next_word};
pub use read::read_object;
pub use write::{append_attribute, append_object, write_object};
