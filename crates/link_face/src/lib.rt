//! The outside world as the program sees it: where bytes come from, where they go, and what day it
//! is. Each is a trait with a written meaning, with forms in memory for tests and theorems
//! (`MemSource`, `MemSink`, the two that fail at chosen calls, `FixedDay`) and one over what std
//! gives (`InSource`, `OutSink`, `SystemDay`).
//!
//! A source and a sink count their faults. The count never falls, and a call answers `Failed` only
//! where it rose in that call or stands at `u64::MAX`. Code that is generic over the trait cannot
//! raise the count, so a contract that ties an error to it refuses a body that just gives up.
#![tactic(auto)]

pub use clock::Clock;
pub use failed::Failed;
pub use failing_sink::FailingSink;
pub use failing_source::FailingSource;
pub use fault_plan::FaultPlan;
pub use fixed_day::FixedDay;
pub use in_source::InSource;
pub use joined::{FailingLink, Joined, MemLink};
pub use link::Link;
pub use mem_sink::MemSink;
pub use mem_source::MemSource;
pub use out_sink::OutSink;
pub use sink::Sink;
pub use socket_link::SocketLink;
pub use source::Source;
pub use system_day::SystemDay;

pub mod clock;
pub mod failed;
pub mod failing_sink;
pub mod failing_source;
pub mod fault_plan;
pub mod fixed_day;
pub mod in_source;
pub mod joined;
pub mod link;
pub mod mem_sink;
pub mod mem_source;
pub mod out_sink;
pub mod sink;
pub mod socket_link;
pub mod source;
pub mod system_day;
