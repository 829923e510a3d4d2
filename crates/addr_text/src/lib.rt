//! Addresses, blocks, AS numbers and ranges as text, and the decimals beside them. IPv4 is dotted decimal, and IPv6 is read
//! as RFC 4291 2.2 and written as RFC 5952 4 has it.
#![tactic(auto)]

mod address;
mod block;
mod decimal;
mod fitting;
mod ipv6;
mod laws;
mod number;
mod parted;
mod range;

pub use address::read_addr;
pub use block::read_block;
pub use decimal::{read_decimal, read_long_decimal};
pub use fitting::{append, append_decimal, append_number};
pub use laws::{computes_spelled, reads_written, shortens_longest, spells_one, spells_valid};
pub use number::{read_asn, read_number, write_number};
pub use parted::parted_at;
pub use range::{read_range, write_range};
