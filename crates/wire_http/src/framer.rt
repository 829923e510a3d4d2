//! The framer, which gives the messages of a connection one after the other.
ghost use Rattle.std.specs.Prelude.{◌≡◌, ◌+◌, ◌<◌, ◌≤◌, ◌++◌, [], drop, length, IfOk};
ghost use Rattle.wire_http.specs.Framer.{empty_framer, framer_room, no_message, Takes, LeavesRoom};
ghost use Rattle.wire_http.specs.Step.{AreLengthsOf};

use crate::first_step::first_step;
use crate::message::{Message, Step};
use std::alloc::{AllocError, Global};
use std::marker::Model;

/// How many bytes a framer has room for: those of the longest message.
const ROOM: usize = 8192 + 4096;

/// The bytes that came and aren't taken yet. They stand in one buffer, which is taken when the framer is made. What is
/// left of it is moved to the front only where no whole message stands in it, so each byte is moved at most once.
#[derive(Drop)]
pub struct Framer {
    buffer: Vec<u8>,
    // Where the message that was given last stands, and before which all is used up.
    at: usize,
    given: Message,
    // How many of the bytes behind it are known to have no head at their front.
    seen: usize,
}

impl Model for Framer {
    ghost use Rattle.std.specs.Prelude.{vec_capacity};
    ghost use Rattle.wire_http.specs.Framer.{PlainFramer, framer_of, IsFramer};

    ghost Value = { PlainFramer };

    ghost view = { λ f. framer_of f.buffer.items f.at f.given };

    ghost invariant = { λ f. IsFramer f.buffer.items f.at f.given f.seen (vec_capacity f.buffer) };
}

/// The bytes from there on.
fn from_there(bytes: &[u8], at: usize) -> &[u8]
    requires { at ≤ length bytes.now }
    ensures { result.now ≡ drop at bytes.now }
{
    &bytes[at..]
}

const NO_MESSAGE: Message = Message { head: 0, body: 0 };

impl Framer {
    /// An empty framer. Nothing of it takes memory after this.
    pub fn new(alloc: Global) -> Result<Framer, AllocError>
        ensures { IfOk result (λ framer. framer ≡ empty_framer) }
    {
        Ok(Framer {
            buffer: Vec::with_capacity(alloc, ROOM)?,
            at: 0,
            given: NO_MESSAGE,
            seen: 0,
        })
    }

    /// Forgets all that came.
    pub fn clear(&mut self)
        ensures { self.new ≡ empty_framer }
    {
        self.buffer.clear();
        self.at = 0;
        self.given = NO_MESSAGE;
        self.seen = 0;
    }

    /// How many bytes may be pushed.
    pub fn spare(&self) -> usize
        ensures { result ≡ self.now.spare }
    {
        ROOM - self.buffer.len()
    }

    /// Appends bytes that came. The message that was given last is lent no longer.
    pub fn push(&mut self, bytes: &[u8])
        requires { length bytes.now ≤ self.old.spare }
        ensures bytes { self.new.bytes ≡ self.old.bytes ++ bytes.now }
        ensures given { self.new.given ≡ no_message }
        ensures spare { self.new.spare + length bytes.now ≡ self.old.spare }
    {
        self.at += self.given.head + self.given.body;
        self.given = NO_MESSAGE;
        match self.buffer.extend_from_slice(bytes) {
            Ok(()) => {}
            Err(_) => unreachable!(),
        }
    }

    /// The next message, or what stands in its place: `ended` says that no byte comes behind those that were pushed.
    pub fn next(&mut self, ended: bool) -> Step
        ensures step { Takes result self.old ended self.new }
        ensures spare { LeavesRoom result self.old self.new }
    {
        let at = self.at + self.given.head + self.given.body;
        let found = first_step(from_there(&self.buffer, at), self.seen, ended);
        self.at = at;
        self.given = NO_MESSAGE;
        self.seen = found.seen;
        match found.step {
            Step::Message(message) => {
                self.given = message;
                self.seen = 0;
            }
            Step::More if at > 0 => self.move_to_front(),
            Step::More | Step::Bad(_) | Step::End => {}
        }
        found.step
    }

    /// Moves what isn't taken yet to the front.
    fn move_to_front(&mut self)
        ensures bytes { self.new.bytes ≡ self.old.bytes }
        ensures given { self.new.given ≡ no_message }
        ensures spare { self.new.spare + length self.new.bytes ≡ framer_room }
    {
        let at = self.at + self.given.head + self.given.body;
        drop(self.buffer.drain(..at));
        self.at = 0;
        self.given = NO_MESSAGE;
    }

    /// The head of the message that was given last, with the empty line that ends it.
    pub fn head(&self, m: &Message) -> &[u8]
        requires { AreLengthsOf m.now self.now.given }
        ensures { result.now ≡ self.now.given.head }
    {
        &self.buffer[self.at..self.at + m.head]
    }

    /// The body of the message that was given last.
    pub fn body(&self, m: &Message) -> &[u8]
        requires { AreLengthsOf m.now self.now.given }
        ensures { result.now ≡ self.now.given.body }
    {
        let start = self.at + m.head;
        &self.buffer[start..start + m.body]
    }
}
