//! The register: what the entries so far amount to, which entry may come next, and the step of one.
#![tactic(auto)]

mod board;
mod books;
mod conditions;
mod covers;
mod early_rules;
mod late_rules;
mod lens;
mod next;
mod operations;
mod pooled;
mod reverse_conditions;
mod sub_conditions;
mod subject;

pub use board::Board;
pub use lens::{Answer, Body, Lens, Media};
pub use reg_entry::{Found, Rooms, Servers, SubCard};
pub use subject::Subject;
