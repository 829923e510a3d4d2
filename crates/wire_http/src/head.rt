//! What the head of a message says.
ghost use Rattle.std.specs.Prelude.{◌≡◌, ◌-◌, ◌^◌, [], ◌∷◌, length, codes, All, IfSome, IfNone};
ghost use Rattle.std.specs.Option.{option_copied};
ghost use Rattle.std.specs.Str.{bytes_eq, str_eq_ignore_ascii_case};
ghost use Rattle.httparse.specs.Spans.{IsHeaderWithin, IsRequestWithin};
ghost use Rattle.wire_http.specs.Head.{head_at, IsHead, plain_head};
ghost use Rattle.httparse.specs.Grammar.{RequestHead};
ghost use Rattle.addr_text.specs.Reading.{decimal_up_to};
ghost use Rattle.wire_http.specs.Fields.{occurs_of, field, is_close, asks_to_close, bearer_key, key_of, at_least_of};
ghost use Rattle.wire_http.specs.Body.{body_length, given_length, served_length};
ghost use Rattle.wire_http.specs.Occurrence.{occurs, values_in};

use crate::front::{Front, read_front};
use addr_text::{read_decimal, read_long_decimal};
use httparse::spans::{HeaderSpan, RequestSpans};
use std::marker::Model;

/// How many bytes the longest body has that is served.
pub(crate) const LONGEST_BODY: u32 = 4096;

/// A head that was read.
#[derive(Drop)]
pub struct Head<'a> {
    bytes: &'a [u8],
    spans: RequestSpans,
    headers: [HeaderSpan; 64],
}

impl<'a> Model for Head<'a> {
    ghost use Rattle.httparse.specs.Spans.{IsRequestWithin};
    ghost use Rattle.wire_http.specs.Head.{PlainHead, head_at};

    ghost Value = { PlainHead };

    ghost view = { λ h. head_at h.bytes.now h.headers h.spans };

    ghost invariant = { λ h. IsRequestWithin h.bytes.now h.headers h.spans };
}

/// How often a name stands among the header lines of a head.
#[derive(Clone, Copy)]
pub(crate) enum Occurrence<'a> {
    Never,
    Once(&'a [u8]),
    Repeated,
}

fn same_name(a: &[u8], b: &[u8]) -> bool
    ensures { result ≡ str_eq_ignore_ascii_case a.now b.now }
{
    a.eq_ignore_ascii_case(b)
}

/// The value of the first header line of the name, and the lines behind it.
fn next_named<'a, 'h>(
    bytes: &'a [u8],
    headers: &'h [HeaderSpan],
    name: &[u8],
) -> Option<(&'a [u8], &'h [HeaderSpan])>
    requires { All (IsHeaderWithin (length bytes.now)) headers.now }
    ensures some { IfSome result (λ next. values_in bytes.now headers.now name.now ≡ next.0.now ∷ values_in bytes.now next.1.now name.now) }
    ensures within { IfSome result (λ next. All (IsHeaderWithin (length bytes.now)) next.1.now) }
    ensures none { IfNone result (values_in bytes.now headers.now name.now ≡ []) }
{
    let mut left = headers;
    while let [header, rest @ ..] = left {
        if same_name(header.name.of(bytes), name) {
            return Some((header.value.of(bytes), rest));
        }
        left = rest;
    }
    None
}

fn occurrence_in<'a>(bytes: &'a [u8], headers: &[HeaderSpan], name: &[u8]) -> Occurrence<'a>
    requires { All (IsHeaderWithin (length bytes.now)) headers.now }
    ensures { occurs result ≡ occurs_of (values_in bytes.now headers.now name.now) }
{
    let Some((value, rest)) = next_named(bytes, headers, name) else {
        return Occurrence::Never;
    };
    match next_named(bytes, rest, name) {
        None => Occurrence::Once(value),
        Some(_) => Occurrence::Repeated,
    }
}

fn is_close(connection: Occurrence<'_>) -> bool
    ensures { result ≡ is_close (occurs connection.entry) }
{
    match connection {
        Occurrence::Once(value) => same_name(value, b"close"),
        Occurrence::Never | Occurrence::Repeated => false,
    }
}

fn bearer_key(value: &[u8]) -> Option<&[u8]>
    ensures { option_copied result ≡ bearer_key value.now }
{
    let (scheme, key) = value.split_at(value.len().min(7));
    if same_name(scheme, b"Bearer ") {
        Some(key)
    } else {
        None
    }
}

fn served_length(value: &[u8]) -> Result<usize, u16>
    ensures { result ≡ served_length (decimal_up_to (2 ^ 32 - 1) value.now) }
{
    match read_decimal(value) {
        None => Err(400),
        Some(length) if length <= LONGEST_BODY => Ok(length as usize),
        Some(_) => Err(413),
    }
}

impl<'a> Head<'a> {
    /// The head whose parts stand at these places of the bytes.
    pub(crate) fn new(bytes: &'a [u8], spans: RequestSpans, headers: [HeaderSpan; 64]) -> Head<'a>
        requires { IsRequestWithin bytes.now headers spans }
        ensures { result ≡ head_at bytes.now headers spans }
    {
        Head {
            bytes,
            spans,
            headers,
        }
    }

    /// The head that the bytes are, all of them (RFC 9112 2.1).
    pub fn read(bytes: &'a [u8]) -> Option<Head<'a>>
        ensures some { IfSome result (λ head. (h : RequestHead) × IsHead bytes.now h × (head ≡ plain_head h)) }
        ensures none { IfNone result ((h : RequestHead) → ¬ (IsHead bytes.now h)) }
    {
        match read_front(bytes) {
            Front::Whole(head, size) if size == bytes.len() => Some(head),
            Front::Whole(..) => None,
            Front::Partial => None,
            Front::Never => None,
        }
    }

    pub fn method(&self) -> &'a [u8]
        ensures { result.now ≡ self.now.method }
    {
        self.spans.method.of(self.bytes)
    }

    /// What is asked for, as it stands in the request line.
    pub fn target(&self) -> &'a [u8]
        ensures { result.now ≡ self.now.target }
    {
        self.spans.path.of(self.bytes)
    }

    /// The minor version of HTTP/1.
    pub fn minor(&self) -> u8
        ensures { result ≡ self.now.minor }
    {
        self.spans.version
    }

    /// How often the name occurs.
    fn field(&self, name: &[u8]) -> Occurrence<'a>
        ensures { occurs result ≡ field name.now self.now }
    {
        occurrence_in(self.bytes, &self.headers[..self.spans.headers], name)
    }

    /// Whether the connection ends behind this message (RFC 9112 9.3).
    pub fn asks_to_close(&self) -> bool
        ensures { result ≡ asks_to_close self.now }
    {
        self.minor() == 0 || is_close(self.field(b"Connection"))
    }

    /// The key of the one Authorization line, where its scheme is `Bearer` (RFC 6750 2.1).
    pub fn key(&self) -> Option<&'a [u8]>
        ensures { option_copied result ≡ key_of self.now }
    {
        match self.field(b"Authorization") {
            Occurrence::Once(value) => bearer_key(value),
            Occurrence::Never | Occurrence::Repeated => None,
        }
    }

    /// How many entries the one Register-At-Least line asks for, and 0 where there is none. Nothing where there are two,
    /// or what stands there is no number of 64 bits.
    pub fn at_least(&self) -> Option<u64>
        ensures { result ≡ at_least_of self.now }
    {
        match self.field(b"Register-At-Least") {
            Occurrence::Never => Some(0),
            Occurrence::Once(value) => read_long_decimal(value),
            Occurrence::Repeated => None,
        }
    }

    fn is_post(&self) -> bool
        ensures { result ≡ bytes_eq self.now.method (codes "POST") }
    {
        self.method() == b"POST".as_slice()
    }

    fn given_length(&self) -> Result<usize, u16>
        ensures { result ≡ given_length (bytes_eq self.now.method (codes "POST")) (field (codes "Content-Length") self.now) }
    {
        match self.field(b"Content-Length") {
            Occurrence::Never if self.is_post() => Err(411),
            Occurrence::Never => Ok(0),
            Occurrence::Once(value) => served_length(value),
            Occurrence::Repeated => Err(400),
        }
    }

    /// The length of the body, or the code of the reply to a head whose body isn't served (RFC 9112 6.3).
    pub fn body_length(&self) -> Result<usize, u16>
        ensures { result ≡ body_length self.now }
    {
        match self.field(b"Transfer-Encoding") {
            Occurrence::Never => self.given_length(),
            Occurrence::Once(_) | Occurrence::Repeated => Err(400),
        }
    }
}
