//! The head at the front of what has come.
ghost use Rattle.std.specs.Prelude.{◌≡◌, take};
ghost use Rattle.wire_http.specs.Front.{IsFront};

use crate::head::Head;
use httparse::Status;
use httparse::spans::{EMPTY_HEADER_SPAN, parse_request};

/// How many bytes the longest head has.
pub(crate) const LONGEST_HEAD: usize = 8192;

/// What stands at the front of the bytes.
#[derive(Drop)]
pub(crate) enum Front<'a> {
    /// A head, and how many bytes it has.
    Whole(Head<'a>, usize),
    /// No head, and too few bytes to say that there will be none.
    Partial,
    /// No head, however the bytes go on.
    Never,
}

/// The first bytes, at most so many.
fn first(bytes: &[u8], most: usize) -> &[u8]
    ensures { result.now ≡ take most bytes.now }
{
    if bytes.len() > most {
        &bytes[..most]
    } else {
        bytes
    }
}

pub(crate) fn read_front(bytes: &[u8]) -> Front<'_>
    ensures { IsFront result bytes.now }
{
    let front = first(bytes, LONGEST_HEAD);
    let mut headers = [EMPTY_HEADER_SPAN; 64];
    match parse_request(front, &mut headers) {
        Ok(Status::Complete(spans)) => {
            let size = spans.len;
            Front::Whole(Head::new(front, spans, headers), size)
        }
        Ok(Status::Partial) => {
            if bytes.len() < LONGEST_HEAD {
                Front::Partial
            } else {
                Front::Never
            }
        }
        Err(_) => Front::Never,
    }
}
