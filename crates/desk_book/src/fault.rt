//! Why a request has no answer.

/// Why a book has no answer.
#[derive(Clone, Copy, Debug, PartialEq, Eq)]
pub enum SubmitFault {
    /// There is no memory: with a number, for publishing the request, which is the entry of this number by then and is
    /// published before all else by the next settling or submit; with none, for entering it.
    NoMemory { entered: Option<u64> },
}

/// Why a desk has no answer.
#[derive(Clone, Copy, Debug, PartialEq, Eq)]
pub enum DeskFault {
    /// The book has no memory, as it says.
    NoMemory { entered: Option<u64> },
    /// The pass can't read what is published. With a number the request is the entry of this number, and is published; with
    /// none this call entered nothing.
    Shut { entered: Option<u64> },
}
