//! The operations of an entry: what it changes in the objects of a register, from what it touches alone; and the window of the
//! change stream, its last operations with how many there were in all.
#![tactic(auto)]

mod changes;
pub mod laws;
mod noted;
mod window;

pub use changes::{comes, goes};
pub use noted::{Brief, Noted};
pub use window::OpWindow;
