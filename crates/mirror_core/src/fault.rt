ghost use Rattle.std.specs.Prelude.{◌≡◌};
ghost use Rattle.mirror_core.specs.declared.fault.FeedFault.TheVariants.{NoMemory as TheNoMemory};

use std::alloc::AllocError;
use std::fmt;
use thiserror::Error;

/// Why a mirror takes nothing more. A place is the offset of a line's first byte in all that was fed, from 0; from 2^64 - 1 on
/// places aren't told apart.
#[derive(Clone, Copy, PartialEq, Eq, Error)]
pub enum FeedFault {
    /// A line that can't stand where it stands.
    #[error("Spelling")]
    Spelling { place: u64 },
    /// A stream that begins behind the operation that the mirror wants next.
    #[error("Gap")]
    Gap { want: u64, got: u64 },
    /// A stream or an object of another source.
    #[error("ForeignSource")]
    ForeignSource { place: u64 },
    /// An object of a class that the register doesn't have.
    #[error("ClassOut")]
    ClassOut { place: u64 },
    /// The stream's server announces a fault of its own.
    #[error("Announced")]
    Announced { place: u64 },
    #[error("NoMemory")]
    NoMemory,
}

/// As it is shown to a person.
impl fmt::Debug for FeedFault {
    fn fmt<W: fmt::Write>(&self, f: &mut fmt::Formatter<W>) -> fmt::Result {
        fmt::Display::fmt(self, f)
    }
}

impl From<AllocError> for FeedFault {
    ghost from_gives = { λ _ e. e ≡ TheNoMemory };

    fn from(_e: AllocError) -> FeedFault {
        FeedFault::NoMemory
    }
}
