use crate::{Card, Name, Refusal, Request};
use num_range::Range;
use std::marker::Model;

/// A request that was accepted, as the journal keeps it.
#[derive(Clone, Copy, PartialEq, Eq)]
pub struct Entry {
    /// The entry's place in the journal, from 1.
    pub seq: u64,
    pub day: u32,
    /// The hostmaster who asked.
    pub who: Name,
    pub request: Request,
    /// The range that the entry paints or reshapes.
    pub cover: Option<Range>,
    /// The card that the numbers of the cover have from then on.
    pub card: Option<Card>,
}

impl Model for Entry {
    ghost use Rattle.reg_entry.specs.Entry.{PlainEntry};

    ghost Value = { PlainEntry };

    ghost view = { λ e. record { seq = e.seq; day = e.day; who = e.who; request = e.request; cover = e.cover; card = e.card } };

    ghost inverse = { λ e. record { seq = e.seq; day = e.day; who = e.who; request = e.request; cover = e.cover; card = e.card } };
}

/// The answer to a request.
#[derive(Clone, Copy, PartialEq, Eq)]
pub enum Reply {
    Accepted(Entry),
    Refused(Refusal),
}
