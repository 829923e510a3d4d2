//! The book, to which one writer at a time submits, and the desk, which puts it behind a lock: whoever submits there has seen,
//! once it is answered, all that the answer tells of.
#![tactic(auto)]

mod book;
mod desk;
mod fault;
mod locked;
mod naming;

pub use book::Book;
pub use desk::Desk;
pub use fault::{DeskFault, SubmitFault};
pub use naming::Naming;
