//! The pool: the pieces into which the numbers of the three spaces are parted.
#![tactic(auto)]

mod book;
mod free;
mod painting;
mod part;
mod parting;
mod run;
mod space_book;
mod sums;
mod touched;
mod walk;

pub use book::PieceBook;
pub use free::FreeIndex;
pub use part::Part;
pub use reg_entry::Touched;
pub use walk::PieceWalk;
