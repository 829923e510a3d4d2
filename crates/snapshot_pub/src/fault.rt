//! Why nothing is seen.

/// Why a look has no answer.
#[derive(Clone, Copy, Debug, PartialEq, Eq)]
pub enum LookFault {
    /// Nothing can be read, as once the press is closed.
    Shut,
    /// There is no memory for the answer.
    NoMemory,
}

/// Nothing can be read, or what is read doesn't begin with what was told.
#[derive(Clone, Copy, Debug, PartialEq, Eq)]
pub struct Shut;
