//! What the register keeps: cards, pieces, holders, requests, entries, and the definitions by which they change.
#![tactic(auto)]

mod card;
mod cc;
mod days;
mod entry;
mod found;
mod handle;
mod holder;
mod host;
mod kind;
mod label;
pub mod laws;
mod name;
mod object;
mod piece;
mod policy;
mod refusal;
mod request;
mod rooms;
mod servers;
mod sub_card;
mod text;
mod touched;

pub use card::{Card, Status};
pub use cc::Cc;
pub use days::{LAST_DATE, clamped_day, day_text, read_day};
pub use entry::{Entry, Reply};
pub use found::Found;
pub use handle::Handle;
pub use holder::Holder;
pub use host::Host;
pub use kind::Kind;
pub use label::Label;
pub use name::Name;
pub use object::{Act, Key, Object, Op};
pub use piece::Piece;
pub use policy::{Row, ZoneTerms};
pub use refusal::Refusal;
pub use request::{Delegation, Request};
pub use rooms::Rooms;
pub use servers::{SERVER_ROOM, Servers};
pub use sub_card::SubCard;
pub use text::Text;
pub use touched::Touched;
