//! The reverse zones of the register, as the master files of the domain name system have them.
#![tactic(auto)]

mod apex;
mod apex_walk;
mod domain;
mod labels;
pub mod laws;
mod lines;
mod pooled;
mod zone;
mod zone_lens;

pub use apex::{Apex, read_apex};
pub use apex_walk::{ApexWalk, apexes};
pub use domain::reverse_name;
pub use pooled::in_pool;
pub use zone::write_zone;
pub use zone_lens::ZoneLens;
