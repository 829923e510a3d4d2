//! How the program ends.
ghost use Rattle.std.specs.Prelude.{◌≡◌};
ghost use Rattle.registry_main.specs.Exit.{exit_status};

use mirror_core::FeedFault;
use policy_table::PolicyFault;
use std::fmt;

/// The end of a run.
#[derive(Clone, Copy, PartialEq, Eq)]
pub enum Exit {
    /// All was done.
    Done,
    /// The words aren't those of a command.
    Usage,
    /// The policy's bytes are no policy.
    PolicyRefused(PolicyFault),
    /// The policy or the script couldn't be read on, or a door couldn't be served on.
    ReadFault,
    /// A reply, or what is published, couldn't be written.
    WriteFault,
    /// There was no memory.
    NoMemory,
    /// Some worker couldn't be set to work; the others have served to their end.
    SpawnFault,
    /// The script is no feed that leaves a mirror at rest.
    FeedRefused(FeedFault),
}

impl Exit {
    /// The status of the process.
    pub fn status(&self) -> u8
        ensures { result ≡ exit_status self.now }
    {
        match self {
            Exit::Done => 0,
            Exit::Usage => 2,
            Exit::PolicyRefused(_) => 3,
            Exit::ReadFault => 5,
            Exit::WriteFault => 6,
            Exit::NoMemory => 8,
            Exit::SpawnFault => 9,
            Exit::FeedRefused(_) => 10,
        }
    }
}

/// The line on standard error, without its end; nothing where all was done.
impl fmt::Display for Exit {
    ghost use Rattle.std.specs.Prelude.{Some};
    ghost use Rattle.registry_main.specs.Exit.{fault_text};

    ghost output = { λ exit. Some (fault_text exit) };

    fn fmt<W: fmt::Write>(&self, f: &mut fmt::Formatter<W>) -> fmt::Result {
        match self {
            Exit::Done => Ok(()),
            Exit::Usage => f.write_str(
                "usage: registry_main batch | serve HTTP LINE WORKERS | stats | zones | mirror | load SEED N",
            ),
            Exit::PolicyRefused(PolicyFault::TooLong) => f.write_str("policy: too long"),
            Exit::PolicyRefused(PolicyFault::Text) => f.write_str("policy: text"),
            Exit::PolicyRefused(PolicyFault::Missing(key)) => write!(f, "policy: missing {key}"),
            Exit::PolicyRefused(PolicyFault::Wrong(key)) => write!(f, "policy: wrong {key}"),
            Exit::PolicyRefused(PolicyFault::Bounds(key)) => write!(f, "policy: bounds {key}"),
            Exit::PolicyRefused(PolicyFault::NoMemory) => f.write_str("policy: no memory"),
            Exit::ReadFault => f.write_str("read fault"),
            Exit::WriteFault => f.write_str("write fault"),
            Exit::NoMemory => f.write_str("no memory"),
            Exit::SpawnFault => f.write_str("spawn fault"),
            Exit::FeedRefused(FeedFault::Spelling { .. }) => f.write_str("feed: Spelling"),
            Exit::FeedRefused(FeedFault::Gap { .. }) => f.write_str("feed: Gap"),
            Exit::FeedRefused(FeedFault::ForeignSource { .. }) => f.write_str(
                "feed: ForeignSource",
            ),
            Exit::FeedRefused(FeedFault::ClassOut { .. }) => f.write_str("feed: ClassOut"),
            Exit::FeedRefused(FeedFault::Announced { .. }) => f.write_str("feed: Announced"),
            Exit::FeedRefused(FeedFault::NoMemory) => f.write_str("feed: NoMemory"),
        }
    }
}

/// As it is shown to a person.
impl fmt::Debug for Exit {
    fn fmt<W: fmt::Write>(&self, f: &mut fmt::Formatter<W>) -> fmt::Result {
        fmt::Display::fmt(self, f)
    }
}
