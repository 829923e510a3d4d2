//! The numbers that the registry delegates: AS numbers, IPv4 and IPv6 addresses, and ranges of them.
#![tactic(auto)]

mod blocks;
pub mod laws;
mod number;
mod range;
mod space;

pub use blocks::{block, masked};
pub use number::Number;
pub use range::Range;
pub use space::Space;
