//! The course of a register: every list of submits, publications, lookups and pulls, over the definitions on plain lists, and
//! what holds at each moment of it.
#![tactic(auto)]

mod course;
mod decision;
mod event;
pub mod laws;
mod policy_rules;
mod proposal;

pub use course::Course;
pub use event::{Event, Said};
