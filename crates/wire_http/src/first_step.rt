//! What stands at the front of bytes.
ghost use Rattle.std.specs.Prelude.{◌≡◌, ◌==◌, ◌<◌, ◌≤◌, false, drop, length, IsFalse};
ghost use Rattle.std.specs.List.{list_any};
ghost use Rattle.httparse.specs.Grammar.{RequestHead};
ghost use Rattle.wire_http.specs.Found.{IsFound};
ghost use Rattle.wire_http.specs.Head.{IsSearched};
ghost use Rattle.wire_http.specs.Step.{HasHead, IsFirst};

use crate::front::{Front, LONGEST_HEAD, read_front};
use crate::message::{Message, Step};

/// A step, and how many bytes from the front on have no head.
#[derive(Clone, Copy)]
pub(crate) struct Found {
    pub step: Step,
    pub seen: usize,
}

/// What stands at the front, where a head of so many bytes does, with this body.
fn step_behind(body: Result<usize, u16>, size: usize, bytes: &[u8], ended: bool) -> Step
    requires { (h : RequestHead) × HasHead bytes.now size body h }
    ensures { IsFirst result bytes.now ended }
{
    match body {
        Err(code) => Step::Bad(code),
        Ok(body) if body <= bytes.len() - size => Step::Message(Message { head: size, body }),
        Ok(_) if ended => Step::Bad(400),
        Ok(_) => Step::More,
    }
}

/// Whether a head may have ended behind the bytes that were looked at: it ends with a line, and 8,192 bytes are too many.
fn may_have_ended(bytes: &[u8], seen: usize) -> bool
    requires { seen ≤ length bytes.now }
    ensures short { IsFalse result → length bytes.now < 8192 }
    ensures none { IsFalse result → list_any (λ b. b == 10) (drop seen bytes.now) ≡ false }
{
    bytes.len() >= LONGEST_HEAD || bytes[seen..].contains(&b'\n')
}

/// What stands at the front, of whose first bytes it is known that they have no head.
pub(crate) fn first_step(bytes: &[u8], seen: usize, ended: bool) -> Found
    requires { IsSearched seen bytes.now }
    ensures { IsFound result bytes.now ended }
{
    if bytes.is_empty() {
        let step = if ended { Step::End } else { Step::More };
        return Found { step, seen: 0 };
    }
    if !ended && !may_have_ended(bytes, seen) {
        return Found {
            step: Step::More,
            seen: bytes.len(),
        };
    }
    match read_front(bytes) {
        Front::Whole(head, size) => Found {
            step: step_behind(head.body_length(), size, bytes, ended),
            seen: 0,
        },
        Front::Partial if !ended => Found {
            step: Step::More,
            seen: bytes.len(),
        },
        Front::Partial => Found {
            step: Step::Bad(400),
            seen: 0,
        },
        Front::Never => Found {
            step: Step::Bad(400),
            seen: 0,
        },
    }
}
