//! The register on plain vectors: each rule as its definition reads, by walks over whole lists.
#![tactic(auto)]

mod changes;
mod conditions;
mod covers;
mod early_rules;
mod holders;
mod late_rules;
mod laying;
mod least_block;
mod pieces;
mod pool;
mod pooled;
mod ranges;
mod register;
mod reverse_conditions;
mod sub_conditions;
mod sums;

pub use register::PlainRegister;
