use num_range::Range;
use reg_entry::Holder;

/// How numbers are registered.
#[derive(Clone, Copy)]
pub enum NetKind {
    /// To a holder who makes sub-assignments.
    Allocated,
    /// To a holder for its own network.
    Assigned,
    /// By a holder, from what is allocated to it.
    Sub,
}

/// What is told of a registration of numbers.
#[derive(Clone, Copy)]
pub struct NetFacts {
    pub range: Range,
    pub kind: NetKind,
    pub holder: Holder,
    /// The day of the registration, counted from 1970-01-01.
    pub day: u32,
    /// Of a sub-assignment, the range of the piece that it lies in.
    pub parent: Option<Range>,
}
