//! The decision on a request: a refusal, or the entry that it becomes.
#![tactic(auto)]

mod decision;
mod policy_rules;
mod proposal;

pub use decision::{decide, decide_on_day, undated_refusal};
