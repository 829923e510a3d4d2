//! A log that threads share, of entries put behind a list: what of the list one has seen, and whether another list begins
//! with it.
#![tactic(auto)]

mod append;
mod front;
mod log;

pub use append::Append;
pub use front::Front;
pub use log::{Log, LogRule, open, open_with};
