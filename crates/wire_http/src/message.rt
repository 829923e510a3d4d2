//! Messages, and what a framer answers.

/// A message that a framer gave: how many bytes its head has with the empty line that ends it, and how many its body.
#[derive(Clone, Copy)]
pub struct Message {
    pub head: usize,
    pub body: usize,
}

/// What stands at the front of what has come.
#[derive(Clone, Copy)]
pub enum Step {
    Message(Message),
    /// More bytes are wanted.
    More,
    /// What comes is no message, and the connection ends behind the reply of this code.
    Bad(u16),
    /// The input ended, and no byte is left.
    End,
}

/// How a connection ended.
#[derive(Clone, Copy, Debug, PartialEq, Eq)]
pub enum ConnEnd {
    /// The input ended, or a message or its fault ended the connection.
    Closed,
    ReadFault,
    WriteFault,
    NoMemory,
    /// The register is shut.
    Shut,
}
