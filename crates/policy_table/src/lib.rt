//! The hostmasters' rules, read from a TOML file to their value or to their first fault.
#![tactic(auto)]

mod fault;
mod hostmaster;
mod hostmasters;
mod policy;
mod rows;
mod section;
mod token;
mod zone;

pub use fault::PolicyFault;
pub use policy::Policy;
pub use reg_entry::{Row, ZoneTerms};
