//! What is asked of the stream, and why a line may not ask.
ghost use Rattle.std.specs.Prelude.{◌≡◌, ◌++◌, codes};
ghost use Rattle.nrtm_stream.specs.Ask.{fault_text};

use thiserror::Error;

/// The serials of the operations that are asked for.
#[derive(Clone, Copy)]
pub struct Ask {
    pub first: u64,
    /// The last serial, or nothing for the word `LAST`: the register's last, whatever that is.
    pub last: Option<u64>,
}

/// Why nothing is asked, each where none before it holds.
#[derive(Clone, Copy, Debug, PartialEq, Eq, Error)]
pub enum AskFault {
    /// The line isn't of the form `-g SOURCE:VERSION:FIRST-LAST`.
    #[error("malformed query")]
    Malformed,
    /// The stream is asked for in another version than 3.
    #[error("version is not 3")]
    Version,
    /// The line asks for another source.
    #[error("unknown source")]
    Source,
}

/// The one line that answers the fault, with its end.
pub fn error_line(fault: AskFault) -> &'static [u8]
    ensures { result.now ≡ codes "%ERROR: " ++ fault_text fault ++ codes "\n" }
{
    match fault {
        AskFault::Malformed => b"%ERROR: malformed query\n",
        AskFault::Version => b"%ERROR: version is not 3\n",
        AskFault::Source => b"%ERROR: unknown source\n",
    }
}
