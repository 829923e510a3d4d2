//! What a path of the Registration Data Access Protocol asks for (RFC 9082 3.1).
#![tactic(auto)]

mod ask;
pub mod laws;
mod path;

pub use ask::RdapAsk;
pub use path::read_path;
