//! Serving a register at both doors: so many workers at each, all side by side, from an empty register to the end of the
//! last way. Each worker serves the links of one way, one after another.
#![tactic(auto)]

mod along;
mod back;
mod door_duty;
mod duties;
mod fault;
mod http_duty;
mod http_service;
mod line_duty;
mod line_service;
mod served;
mod service;
mod serving;

pub use door_duty::DoorDuty;
pub use fault::ServeFault;
pub use http_duty::HttpDuty;
pub use line_duty::LineDuty;
pub use served::Served;
pub use serving::{Doors, serve};
