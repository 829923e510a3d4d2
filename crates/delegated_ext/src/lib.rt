//! The statistics file of the RIR statistics exchange format, in the extended form of the NRO's allocation and assignment
//! reports.
#![tactic(auto)]

mod append;
pub mod laws;
mod record_count;
mod record_line;
mod record_text;
mod records;
mod statistics;
mod stats_lens;

pub use record_line::RecordLine;
pub use statistics::write_stats;
pub use stats_lens::StatsLens;
