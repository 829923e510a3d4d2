//! The desk language: the lines in which hostmasters ask, read as what they mean or as the place where they go wrong,
//! and the entries of the journal. The texts that the desk writes are those of desk_text.
#![tactic(auto)]

mod entry_line;
pub mod laws;
mod line;
mod rest;
mod values;
mod verb;
mod writable;

pub use addr_text::parted_at;
pub use desk_text::{
    write_due_count, write_due_piece, write_entry, write_none, write_piece, write_reply,
    write_request,
};
pub use entry_line::{is_writable_entry, next_is_writable, read_entry};
pub use line::{LINE_ROOM, Line, read_line};
pub use rest::Malformed;
pub use writable::is_writable;
