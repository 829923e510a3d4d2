//! Snapshots of the register: one thread puts entries and publishes them, others look at what is published and take no lock.
#![tactic(auto)]

mod fault;
mod opening;
mod pass;
mod press;
mod put;
mod rule;
mod shown;
mod told;
mod view;

pub use fault::{LookFault, Shut};
pub use opening::open_snapshots;
pub use pass::Pass;
pub use press::Press;
pub use told::Told;
