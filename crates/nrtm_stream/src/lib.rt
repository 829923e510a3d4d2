//! The change stream: what is asked of it, and what is answered (NRTM version 3).
#![tactic(auto)]

mod ask;
pub mod laws;
mod nrtm_lens;
mod query;
mod source;
mod stream;

pub use ask::{Ask, AskFault, error_line};
pub use nrtm_lens::NrtmLens;
pub use query::read_ask;
pub use source::source_of;
