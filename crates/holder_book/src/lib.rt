//! The register's holders: by their numbers, and by their handles without a walk over them all; and how many numbers of each
//! space each of them holds, so that no request has to walk over all pieces.
#![tactic(auto)]

mod book;
mod handle_key;
mod holding_book;
mod numbered;

pub use book::HolderBook;
pub use holding_book::HoldingBook;
