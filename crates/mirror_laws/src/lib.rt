//! Laws over a mirror that is fed the register's own stream; no code.
#![tactic(auto)]

pub mod laws;
