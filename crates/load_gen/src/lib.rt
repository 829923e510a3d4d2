//! What a load asks of the register: the requests that it begins with, and those that it draws from a seed.
#![tactic(auto)]

mod draw;
mod draws;
mod holders;
pub mod laws;
mod opening;

pub use draw::{Draw, FIRST_DAY};
pub use draws::Draws;
pub use opening::{OPENING_REQUESTS, opening_request};
