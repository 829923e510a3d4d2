//! One HTTP connection over a register: lookups, the published files, and the desk.
#![tactic(auto)]

mod answers;
mod ask;
mod backend;
mod board_backend;
mod connection;
mod desk_backend;
pub mod laws;
mod line;
mod lookup;
mod path;
mod receive;
mod reply;
mod stream;

pub use ask::Ask;
pub use backend::{Backend, Fault};
pub use connection::{serve, serve_conn};
pub use lookup::Lookup;
pub use stream::serve_line;
