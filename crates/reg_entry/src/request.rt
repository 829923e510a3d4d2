ghost use Rattle.std.specs.Prelude.{◌≡◌, IsTrue};

use crate::{Handle, Holder, Servers, Status};
use num_range::{Number, Range, Space};

/// How a holder may use what is delegated to it.
#[derive(Clone, Copy, PartialEq, Eq)]
pub enum Delegation {
    /// The holder makes sub-assignments.
    Allocate,
    /// The holder uses the numbers itself.
    Assign,
}

impl Delegation {
    ghost use Rattle.reg_entry.specs.Request.{status_of};

    /// The status of the piece that is delegated so.
    pub fn status(self) -> Status
        ensures { result ≡ status_of self }
    {
        match self {
            Delegation::Allocate => Status::Allocated,
            Delegation::Assign => Status::Assigned,
        }
    }
}

/// What a hostmaster may ask of the register.
#[derive(Clone, Copy, PartialEq, Eq)]
pub enum Request {
    /// A range comes into the pool.
    Receive {
        range: Range,
    },
    AddHolder {
        holder: Holder,
    },
    /// The holder of this handle has these other fields from now on.
    EditHolder {
        holder: Holder,
    },
    /// The least available block of a size goes to a holder. The amount is a prefix length, or a count of AS numbers.
    Delegate {
        space: Space,
        amount: u32,
        status: Delegation,
        handle: Handle,
    },
    /// The registry keeps available numbers back.
    Reserve {
        range: Range,
    },
    Unreserve {
        range: Range,
    },
    /// A range inside an allocated piece goes to a holder.
    SubAssign {
        range: Range,
        handle: Handle,
    },
    SubReturn {
        range: Range,
    },
    /// A holder gives a piece back, which is in quarantine from then on.
    Return {
        range: Range,
        handle: Handle,
    },
    /// A piece whose quarantine is over is available again.
    Release {
        range: Range,
    },
    /// A delegated piece is cut before this number.
    Split {
        at: Number,
    },
    /// The piece that begins at this number is joined with the one before it.
    Join {
        at: Number,
    },
    Transfer {
        range: Range,
        from: Handle,
        to: Handle,
    },
    /// The name servers of a range's reverse names (RFC 1035 3.5, RFC 3596 2.5).
    SetReverse {
        range: Range,
        servers: Servers,
    },
    ClearReverse {
        range: Range,
    },
}

impl Request {
    ghost use Rattle.reg_entry.specs.Request.{is_request};

    /// Tells callers that the request's ranges and numbers are those of their spaces, and its servers one to four, as
    /// their types keep them.
    pub fn has_ranges(&self)
        ensures { IsTrue (is_request self.now) }
    {
        match self {
            Request::Receive { range }
            | Request::Reserve { range }
            | Request::Unreserve { range }
            | Request::SubReturn { range }
            | Request::Release { range }
            | Request::ClearReverse { range } => {
                let _ = range.first();
            }
            Request::SubAssign { range, .. }
            | Request::Return { range, .. }
            | Request::Transfer { range, .. } => {
                let _ = range.first();
            }
            Request::SetReverse { range, servers } => {
                let _ = range.first();
                let _ = servers.hosts();
            }
            Request::Split { at } | Request::Join { at } => {
                let _ = at.value();
            }
            Request::AddHolder { .. } | Request::EditHolder { .. } | Request::Delegate { .. } => {}
        }
    }
}
