ghost use Rattle.std.specs.Prelude.{◌≡◌};
ghost use Rattle.policy_table.specs.declared.fault.PolicyFault.TheVariants.{NoMemory};

use std::alloc::{AllocError, AllocFailed};
use std::fmt;
use thiserror::Error;

/// Why there is no policy. The number is that of the first of the file's 39 keys that has a fault.
#[derive(Clone, Copy, PartialEq, Eq, Error)]
pub enum PolicyFault {
    /// The file has more than 65,536 bytes.
    #[error("the policy has more than 65536 bytes")]
    TooLong,
    /// The bytes are no TOML document.
    #[error("the policy is no TOML document")]
    Text,
    /// The key isn't there.
    #[error("key {0} of the policy is missing")]
    Missing(u8),
    /// The key's value is of another type.
    #[error("key {0} of the policy has another type")]
    Wrong(u8),
    /// The key's value is outside its bounds, or not of its form.
    #[error("key {0} of the policy is out of bounds")]
    Bounds(u8),
    #[error("no memory")]
    NoMemory,
}

/// As it is shown to a person.
impl fmt::Debug for PolicyFault {
    fn fmt<W: fmt::Write>(&self, f: &mut fmt::Formatter<W>) -> fmt::Result {
        fmt::Display::fmt(self, f)
    }
}

impl From<AllocError> for PolicyFault {
    ghost from_gives = { λ _ e. e ≡ NoMemory };

    fn from(_e: AllocError) -> PolicyFault {
        PolicyFault::NoMemory
    }
}

impl<T: Drop> From<AllocFailed<T>> for PolicyFault {
    ghost from_gives = { λ _ e. e ≡ NoMemory };

    fn from(_e: AllocFailed<T>) -> PolicyFault {
        PolicyFault::NoMemory
    }
}
