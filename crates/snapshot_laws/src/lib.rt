//! What the steps of running snapshots move, and that each is the course's event on the counts.
#![tactic(auto)]

pub mod laws;
