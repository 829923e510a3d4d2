//! RDAP answers: the narrowest registration round a range as JSON (RFC 9083), with its holder.
#![tactic(auto)]

mod facts;
mod found;
pub mod laws;
mod members;
mod network;
mod rdap_lens;
mod texts;
mod vcard;

pub use facts::{NetFacts, NetKind};
pub use network::network_value;
pub use rdap_lens::RdapLens;
