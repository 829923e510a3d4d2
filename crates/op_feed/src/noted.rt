//! What a window of the change stream notes of an operation.

use num_range::Range;
use reg_entry::{Act, Handle, Status};

/// What is noted of an object. A holder's fields and the servers of a cut are large, and stand apart.
#[derive(Clone, Copy)]
pub enum Brief {
    Block {
        range: Range,
        status: Status,
        handle: Option<Handle>,
        day: u32,
        until: u32,
    },
    Sub {
        range: Range,
        handle: Handle,
        day: u32,
    },
    /// Of the holders that stand apart the one of this number, counted from 0.
    Org(u64),
    /// Of the cuts that stand apart the one of this number, counted from 0.
    Cut(u64),
}

/// What is noted of an operation.
#[derive(Clone, Copy)]
pub struct Noted {
    pub act: Act,
    pub brief: Brief,
}
