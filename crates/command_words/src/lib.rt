//! The words of the command line, and the command that they are.
#![tactic(auto)]

mod command;
pub mod laws;
mod number;
mod table;

pub use command::{Command, Publication};
