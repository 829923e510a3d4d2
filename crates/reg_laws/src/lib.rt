//! Laws over the register's definitions, each proved as the contract of a function that does nothing.
#![tactic(auto)]

pub mod board;
pub mod conservation;
pub mod holders;
pub mod holdings;
pub mod narrowest;
pub mod next;
pub mod objects;
pub mod painting;
pub mod pieces;
pub mod reached;
pub mod reverses;
pub mod subs;
pub mod usage;
pub mod whole;
