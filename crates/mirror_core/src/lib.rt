//! A mirror of the register's objects: it is fed the change stream in any pieces, and plays it (NRTM version 3).
#![tactic(auto)]

mod draft;
mod fault;
mod framing;
mod keys;
pub mod laws;
mod line_ends;
mod mirror;
mod names;
mod object_lines;
mod objects;
mod replica;
mod words;

pub use fault::FeedFault;
pub use mirror::Mirror;
pub use objects::{ObjectWalk, Objects, append_attributes};
