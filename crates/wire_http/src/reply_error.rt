//! The bodies of errors (RFC 9083 6). They take no memory.
ghost use Rattle.std.specs.Prelude.{◌≡◌, ◌≢◌, ◌+◌, ◌≤◌, ◌++◌, [], IsTrue};
ghost use Rattle.arrayvec.specs.ArrayVec.{array_vec_len};
ghost use Rattle.wire_http.specs.Reply.{is_reply_code};
ghost use Rattle.wire_http.specs.ErrorBody.{description_of, description_member, code_member, title_member, error_text};

use crate::reply::title;
use addr_text::{append, append_decimal};
use arrayvec::ArrayVec;

#[tactic(auto, unfolding(crate::specs::ErrorBody::description_of))]
fn append_description(code: u16, entries: u64, shut: bool, out: &mut ArrayVec<u8, 256>)
    requires code { IsTrue (is_reply_code code) }
    requires not_ok { code ≢ 200 }
    requires room { array_vec_len out.old + 70 ≤ 256 }
    ensures text { out.new.items ≡ out.old.items ++ description_of code entries shut }
    ensures len { array_vec_len out.new ≤ array_vec_len out.old + 70 }
{
    match code {
        400 => append(b"malformed query", out),
        401 => append(b"no such key", out),
        404 => append(b"no such object", out),
        405 => append(b"method not served here", out),
        409 => {
            append(b"the register has ", out);
            append_decimal(entries, out);
            append(b" entries", out);
        }
        411 => append(b"no content length", out),
        413 => append(b"body over 4096 bytes", out),
        500 => append(b"the disk failed", out),
        503 if shut => append(b"no snapshot", out),
        503 => append(b"no memory", out),
        _ => unreachable!(),
    }
}

fn append_description_member(code: u16, entries: u64, shut: bool, out: &mut ArrayVec<u8, 256>)
    requires code { IsTrue (is_reply_code code) }
    requires not_ok { code ≢ 200 }
    requires room { array_vec_len out.old + 90 ≤ 256 }
    ensures text { out.new.items ≡ out.old.items ++ description_member code entries shut }
    ensures len { array_vec_len out.new ≤ array_vec_len out.old + 90 }
{
    append(b"\"description\":[\"", out);
    append_description(code, entries, shut, out);
    append(b"\"]", out);
}

fn append_code_member(code: u16, out: &mut ArrayVec<u8, 256>)
    requires room { array_vec_len out.old + 60 ≤ 256 }
    ensures text { out.new.items ≡ out.old.items ++ code_member code }
    ensures len { array_vec_len out.new ≤ array_vec_len out.old + 60 }
{
    append(b"\"errorCode\":", out);
    append_decimal(u64::from(code), out);
}

fn append_title_member(code: u16, out: &mut ArrayVec<u8, 256>)
    requires code { IsTrue (is_reply_code code) }
    requires room { array_vec_len out.old + 40 ≤ 256 }
    ensures text { out.new.items ≡ out.old.items ++ title_member code }
    ensures len { array_vec_len out.new ≤ array_vec_len out.old + 40 }
{
    append(b"\"title\":\"", out);
    append(title(code), out);
    append(b"\"", out);
}

/// Writes the body of an error. That of a 409 says how many entries the register has; that of a 503 that there is no
/// snapshot, where the register is shut, and else no memory.
pub fn write_error(code: u16, entries: u64, shut: bool, out: &mut ArrayVec<u8, 256>)
    requires empty { out.old.items ≡ [] }
    requires code { IsTrue (is_reply_code code) }
    requires not_ok { code ≢ 200 }
    ensures { out.new.items ≡ error_text code entries shut }
{
    append(b"{", out);
    append_description_member(code, entries, shut, out);
    append(b",", out);
    append_code_member(code, out);
    append(b",\"rdapConformance\":[\"rdap_level_0\"],", out);
    append_title_member(code, out);
    append(b"}", out);
}
