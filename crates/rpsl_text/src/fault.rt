ghost use Rattle.std.specs.Prelude.{◌≡◌};
ghost use Rattle.rpsl_text.specs.declared.fault.RpslFault.TheVariants.{NoMemory as TheNoMemory};

use std::alloc::{AllocError, AllocFailed};
use thiserror::Error;

/// Why no attributes are read.
#[derive(Clone, Copy, Debug, PartialEq, Eq, Error)]
pub enum RpslFault {
    /// This line, from 1, is the first that neither begins an attribute nor goes on with one. From 2^32 - 1 on lines aren't
    /// told apart.
    #[error("line {0} is no attribute")]
    Line(u32),
    #[error("no memory")]
    NoMemory,
}

impl From<AllocError> for RpslFault {
    ghost from_gives = { λ _ e. e ≡ TheNoMemory };

    fn from(_e: AllocError) -> RpslFault {
        RpslFault::NoMemory
    }
}

impl<T: Drop> From<AllocFailed<T>> for RpslFault {
    ghost from_gives = { λ _ e. e ≡ TheNoMemory };

    fn from(_e: AllocFailed<T>) -> RpslFault {
        RpslFault::NoMemory
    }
}
