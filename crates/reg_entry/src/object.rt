use crate::{Handle, Holder, Servers, Status};
use num_range::Range;
use std::marker::Model;

/// What the register publishes of one thing that it keeps (RFC 2622 names the classes but for the sub-assignment).
#[derive(Clone, Copy, PartialEq, Eq)]
pub enum Object {
    /// A holder, with the day on which its fields were last given.
    Org {
        holder: Holder,
        day: u32,
    },
    /// A piece, with its holder's handle.
    Block {
        range: Range,
        status: Status,
        handle: Option<Handle>,
        day: u32,
        until: u32,
    },
    Sub {
        range: Range,
        handle: Handle,
        day: u32,
    },
    /// A block of reverse names with its servers.
    Cut {
        block: Range,
        servers: Servers,
    },
}

/// What tells one object of the register from all others. Keys are ordered by class, then by handle or range.
#[derive(Clone, Copy, PartialEq, Eq, PartialOrd, Ord)]
pub enum Key {
    Org(Handle),
    Block(Range),
    Sub(Range),
    Cut(Range),
}

/// What an operation does with its object.
#[derive(Clone, Copy, PartialEq, Eq)]
pub enum Act {
    /// The object is there from now on, in the place of the one of its key.
    Add,
    /// The object goes.
    Del,
}

/// One step of the change stream. Serials count from 1 without gaps.
#[derive(Clone, Copy, PartialEq, Eq)]
pub struct Op {
    pub serial: u64,
    pub act: Act,
    pub object: Object,
}

impl Model for Op {
    ghost use Rattle.reg_entry.specs.Op.{PlainOp};

    ghost Value = { PlainOp };

    ghost view = { λ o. record { serial = o.serial; act = o.act; object = o.object } };

    ghost inverse = { λ o. record { serial = o.serial; act = o.act; object = o.object } };
}
