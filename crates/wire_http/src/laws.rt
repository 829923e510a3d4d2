//! Laws over the definitions.
ghost use Rattle.wire_http.specs.Pieces.{FaultsStay, MessagesAreUnique, PiecesDoNotMatter};

/// The messages of bytes, what stands behind them once the bytes have ended, and the code of a fault are the only ones.
pub fn messages_are_unique()
    ensures { MessagesAreUnique }
{}

/// However bytes are cut, and whenever messages are taken in between, the messages are those of all the bytes.
pub fn pieces_do_not_matter()
    ensures { PiecesDoNotMatter }
{}

/// A fault that stands behind the messages while the input is open stands there whatever comes.
pub fn faults_stay()
    ensures { FaultsStay }
{}
