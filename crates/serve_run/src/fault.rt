use std::alloc::AllocError;

/// Why not all was served.
#[derive(Clone, Copy, Debug, PartialEq, Eq)]
pub enum ServeFault {
    /// There was no memory for the register, its workers or their duties. No link was served.
    NoMemory,
    /// The gate gave no way, and no link was served; or a way failed, and the others were served to their end.
    Gate,
    /// Some worker couldn't be set to work. The others have served their ways to the end.
    Spawn,
}

impl From<AllocError> for ServeFault {
    ghost use Rattle.std.specs.Prelude.{◌≡◌};
    ghost use Rattle.serve_run.specs.declared.fault.ServeFault.TheVariants.{NoMemory};

    ghost from_gives = { λ _ fault. fault ≡ NoMemory };

    fn from(_: AllocError) -> Self {
        ServeFault::NoMemory
    }
}
