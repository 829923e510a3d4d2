//! What is published of the register, and how it is read.
ghost use Rattle.std.specs.Prelude.{◌≡◌, ◌++◌, [], IfOk, OnOk, OnErr};
ghost use Rattle.reg_entry.specs.Operations.{PlainBoard};
ghost use Rattle.board.specs.declared.lens.Answer.{Answer as TheAnswer};

use crate::Board;
use std::alloc::{AllocError, Global};
use std::marker::Model;

/// The bytes of a published text, in memory of its own.
#[derive(Drop)]
pub struct Body {
    bytes: Vec<u8>,
}

impl Model for Body {
    ghost use Rattle.std.specs.Prelude.{List, ℕ};

    ghost Value = { List ℕ };

    ghost view = { λ b. b.bytes.items };
}

impl Body {
    /// A body without bytes, which has no memory yet.
    pub fn new(alloc: Global) -> Body
        ensures { result ≡ [] }
    {
        Body {
            bytes: Vec::new(alloc),
        }
    }

    pub fn bytes(&self) -> &[u8]
        ensures { result.now ≡ self.now }
    {
        self.bytes.as_slice()
    }

    /// Adds the text behind the bytes. Where their memory is full it grows to twice as much; where it can't, nothing is
    /// added.
    pub fn append(&mut self, text: &[u8]) -> Result<(), AllocError>
        ensures ok { OnOk result (self.new ≡ self.old ++ text.now) }
        ensures err { OnErr result (self.new ≡ self.old) }
    {
        self.bytes.extend_from_slice(text)
    }
}

/// How a body is to be read.
#[derive(Clone, Copy, PartialEq, Eq)]
pub enum Media {
    /// JSON of the Registration Data Access Protocol (RFC 9083 4.2).
    Json,
    /// Plain text (RFC 2046 4.1.3).
    Plain,
}

/// What is answered to a question about the register.
#[derive(Drop)]
pub struct Answer {
    /// The status code (RFC 9110 15).
    pub status: u16,
    pub media: Media,
    pub body: Body,
    /// How many entries the register has that was asked.
    pub entries: u64,
}

/// A question about the register.
pub trait Lens {
    // which answers a board has to the question
    ghost answers: { Self → PlainBoard → TheAnswer → Type 0 };

    /// Answers the question from the board. It takes memory for the answer alone, and fails where there is none.
    fn read(&self, alloc: Global, board: &Board) -> Result<Answer, AllocError>
        ensures answer { IfOk result (λ a. answers self.now board.now a) }
        ensures entries { IfOk result (λ a. a.entries ≡ board.now.register.entries) };
}
