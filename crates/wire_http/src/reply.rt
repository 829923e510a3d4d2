//! The heads of replies (RFC 9112 4, RFC 9110 15).
ghost use Rattle.std.specs.Prelude.{◌≡◌, ◌+◌, ◌≤◌, ◌++◌, [], length, codes, IsTrue};
ghost use Rattle.arrayvec.specs.ArrayVec.{array_vec_len};
ghost use Rattle.wire_http.specs.Reply.{is_reply_code, title_of, status_line, content_type, content_length, serial_line, refusal_line, close_line, head_text};

use addr_text::{append, append_decimal};
use arrayvec::ArrayVec;

/// What the head of a reply says.
#[derive(Clone, Copy)]
pub struct ReplyHead {
    pub code: u16,
    /// Whether the body is JSON, and else plain text.
    pub json: bool,
    /// How many bytes the body has.
    pub length: u64,
    /// How many entries the register had that was asked.
    pub serial: Option<u64>,
    /// Whether what was asked for takes POST, and else GET and HEAD; a 405 says it.
    pub post: bool,
    /// Whether the connection ends behind the reply.
    pub close: bool,
}

/// Whether replies have the code.
pub fn is_reply_code(code: u16) -> bool
    ensures { result ≡ is_reply_code code }
{
    matches!(
        code,
        200 | 400 | 401 | 404 | 405 | 409 | 411 | 413 | 500 | 503
    )
}

/// The reason phrase of the code.
#[tactic(auto, unfolding(crate::specs::Reply::title_of))]
pub(crate) fn title(code: u16) -> &'static [u8]
    requires { IsTrue (is_reply_code code) }
    ensures text { result.now ≡ title_of code }
    ensures short { length result.now ≤ 21 }
{
    match code {
        200 => b"OK",
        400 => b"Bad Request",
        401 => b"Unauthorized",
        404 => b"Not Found",
        405 => b"Method Not Allowed",
        409 => b"Conflict",
        411 => b"Length Required",
        413 => b"Content Too Large",
        500 => b"Internal Server Error",
        503 => b"Service Unavailable",
        _ => unreachable!(),
    }
}

fn append_status_line(code: u16, out: &mut ArrayVec<u8, 512>)
    requires code { IsTrue (is_reply_code code) }
    requires room { array_vec_len out.old + 80 ≤ 512 }
    ensures text { out.new.items ≡ out.old.items ++ status_line code }
    ensures len { array_vec_len out.new ≤ array_vec_len out.old + 80 }
{
    append(b"HTTP/1.1 ", out);
    append_decimal(u64::from(code), out);
    append(b" ", out);
    append(title(code), out);
    append(b"\r\n", out);
}

fn append_content_type(json: bool, out: &mut ArrayVec<u8, 512>)
    requires room { array_vec_len out.old + 60 ≤ 512 }
    ensures text { out.new.items ≡ out.old.items ++ content_type json }
    ensures len { array_vec_len out.new ≤ array_vec_len out.old + 60 }
{
    if json {
        append(b"Content-Type: application/rdap+json\r\n", out);
    } else {
        append(b"Content-Type: text/plain\r\n", out);
    }
}

fn append_content_length(length: u64, out: &mut ArrayVec<u8, 512>)
    requires room { array_vec_len out.old + 60 ≤ 512 }
    ensures text { out.new.items ≡ out.old.items ++ content_length length }
    ensures len { array_vec_len out.new ≤ array_vec_len out.old + 60 }
{
    append(b"Content-Length: ", out);
    append_decimal(length, out);
    append(b"\r\n", out);
}

fn append_serial(serial: Option<u64>, out: &mut ArrayVec<u8, 512>)
    requires room { array_vec_len out.old + 60 ≤ 512 }
    ensures text { out.new.items ≡ out.old.items ++ serial_line serial }
    ensures len { array_vec_len out.new ≤ array_vec_len out.old + 60 }
{
    if let Some(serial) = serial {
        append(b"Register-Serial: ", out);
        append_decimal(serial, out);
        append(b"\r\n", out);
    }
}

/// What a 401 and a 405 say beside the rest.
fn append_refusal(code: u16, post: bool, out: &mut ArrayVec<u8, 512>)
    requires room { array_vec_len out.old + 60 ≤ 512 }
    ensures text { out.new.items ≡ out.old.items ++ refusal_line code post }
    ensures len { array_vec_len out.new ≤ array_vec_len out.old + 60 }
{
    match code {
        401 => append(b"WWW-Authenticate: Bearer realm=\"desk\"\r\n", out),
        405 if post => append(b"Allow: POST\r\n", out),
        405 => append(b"Allow: GET, HEAD\r\n", out),
        _ => {}
    }
}

fn append_close(close: bool, out: &mut ArrayVec<u8, 512>)
    requires room { array_vec_len out.old + 60 ≤ 512 }
    ensures text { out.new.items ≡ out.old.items ++ close_line close }
    ensures len { array_vec_len out.new ≤ array_vec_len out.old + 60 }
{
    if close {
        append(b"Connection: close\r\n", out);
    }
}

/// Writes the head of a reply with the empty line that ends it.
pub fn write_head(h: &ReplyHead, out: &mut ArrayVec<u8, 512>)
    requires empty { out.old.items ≡ [] }
    requires code { IsTrue (is_reply_code h.now.code) }
    ensures { out.new.items ≡ head_text h.now }
{
    append_status_line(h.code, out);
    append_content_type(h.json, out);
    append_content_length(h.length, out);
    append_serial(h.serial, out);
    append_refusal(h.code, h.post, out);
    append_close(h.close, out);
    append(b"\r\n", out);
}
