//! The texts that the desk writes: requests, entries, replies, and the answers to questions, each without its line end.
#![tactic(auto)]

mod append;
mod due_text;
mod entry_text;
pub mod laws;
mod reply_text;
mod request_text;
mod shown_text;
mod vocabulary;

pub use due_text::{write_due_count, write_due_piece};
pub use entry_text::write_entry;
pub use reply_text::write_reply;
pub use request_text::write_request;
pub use shown_text::{write_none, write_piece};
