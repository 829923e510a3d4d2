//! HTTP/1.1 messages from any pieces: the framer, what a head says, and the heads and error bodies of replies.
#![tactic(auto)]

mod first_step;
mod framer;
mod front;
mod head;
mod laws;
mod message;
mod reply;
mod reply_error;

pub use framer::Framer;
pub use head::Head;
pub use laws::{faults_stay, messages_are_unique, pieces_do_not_matter};
pub use message::{ConnEnd, Message, Step};
pub use reply::{ReplyHead, is_reply_code, write_head};
pub use reply_error::write_error;
