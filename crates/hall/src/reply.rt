//! Replies, written to a link.
ghost use Rattle.std.specs.Prelude.{◌≡◌, ◌≤◌, ◌+◌, ◌++◌, ℕ, Bool, true, [], length, if◌then◌else◌, IsTrue, OnOk, OnErr, bytes_eq, codes};
ghost use Rattle.std.specs.Io.KnownBytes.{Appends};
ghost use Rattle.arrayvec.specs.ArrayVec.{array_vec_len};
ghost use Rattle.link_face.specs.Bytes.{AppendsPrefix};
ghost use Rattle.link_face.specs.Faults.{HasCause};
ghost use Rattle.wire_http.specs.Reply.{head_text, is_reply_code};
ghost use Rattle.wire_http.specs.ErrorBody.{error_text};
ghost use Rattle.hall.specs.Reply.{IsErrorCode, is_head_only, reply_to, refusal_reply, fault_reply, is_json, answer_reply, line_reply, closing_reply};
ghost use Rattle.hall.specs.Standing.{fault_code, is_shut};
ghost use Rattle.desk_text.specs.ReplyText.{reply_text, ReplyHasDate};
ghost use Rattle.hall.specs.Written.{IsWritten, ReadSide, read_side};

use crate::Fault;
use arrayvec::ArrayVec;
use board::{Answer, Media};
use desk_text::write_reply;
use link_face::{Failed, Link};
use reg_entry::Reply;
use wire_http::{Head, ReplyHead, write_error, write_head};

/// How many bytes of a reply are written at once.
const WHOLE: usize = 4096;

/// The head and the body behind it, which fit.
fn joined(head: &[u8], body: &[u8]) -> ArrayVec<u8, 4096>
    requires { length head.now + length body.now ≤ 4096 }
    ensures { result.items ≡ head.now ++ body.now }
{
    let mut whole = ArrayVec::new();
    let _fits = whole.try_extend_from_slice(head);
    let _fits = whole.try_extend_from_slice(body);
    whole
}

/// Writes one piece behind the other. A short reply is one write, so that it goes out as one segment.
fn write_pieces<L: Link>(link: &mut L, head: &[u8], body: &[u8]) -> Result<(), Failed>
    ensures written { IsWritten result (L.written link.old) (head.now ++ body.now) (L.written link.new) }
    ensures cause { HasCause (L.Source.faults link.old) (L.Source.faults link.new) result }
    ensures reading { read_side (L.taken link.new) (L.left link.new) (L.budget link.new) ≡ read_side (L.taken link.old) (L.left link.old) (L.budget link.old) }
    ensures end { L.has_ended link.old → L.has_ended link.new }
{
    if head.len() > 512 || body.len() > WHOLE - 512 {
        link.write(head)?;
        return link.write(body);
    }
    link.write(joined(head, body).as_slice())
}

/// Writes the reply of this head.
fn write<L: Link>(link: &mut L, head: &ReplyHead, body: &[u8]) -> Result<(), Failed>
    requires { IsTrue (is_reply_code head.now.code) }
    ensures written { IsWritten result (L.written link.old) (head_text head.now ++ body.now) (L.written link.new) }
    ensures cause { HasCause (L.Source.faults link.old) (L.Source.faults link.new) result }
    ensures reading { read_side (L.taken link.new) (L.left link.new) (L.budget link.new) ≡ read_side (L.taken link.old) (L.left link.old) (L.budget link.old) }
    ensures end { L.has_ended link.old → L.has_ended link.new }
{
    let mut text = ArrayVec::new();
    write_head(head, &mut text);
    write_pieces(link, text.as_slice(), body)
}

fn is_head_only(head: &Head<'_>) -> bool
    ensures { result ≡ is_head_only head.now }
{
    head.method() == b"HEAD".as_slice()
}

/// Writes the reply to a message.
#[tactic(auto, unfolding(crate::specs::Reply::reply_to))]
fn reply_to<L: Link>(
    link: &mut L,
    head: &Head<'_>,
    code: u16,
    json: bool,
    post: bool,
    serial: Option<u64>,
    body: &[u8],
) -> Result<(), Failed>
    requires { IsTrue (is_reply_code code) }
    ensures written { IsWritten result (L.written link.old) (reply_to head.now code json post serial body.now) (L.written link.new) }
    ensures cause { HasCause (L.Source.faults link.old) (L.Source.faults link.new) result }
    ensures reading { read_side (L.taken link.new) (L.left link.new) (L.budget link.new) ≡ read_side (L.taken link.old) (L.left link.old) (L.budget link.old) }
    ensures end { L.has_ended link.old → L.has_ended link.new }
{
    let reply = ReplyHead {
        code,
        json,
        length: body.len() as u64,
        serial,
        post,
        close: head.asks_to_close(),
    };
    if is_head_only(head) {
        write(link, &reply, &[])
    } else {
        write(link, &reply, body)
    }
}

/// Refuses a message.
#[tactic(auto, unfolding(crate::specs::Reply::refusal_reply))]
pub(crate) fn refuse<L: Link>(
    link: &mut L,
    head: &Head<'_>,
    code: u16,
    post: bool,
) -> Result<(), Failed>
    requires { IsErrorCode code }
    ensures written { IsWritten result (L.written link.old) (refusal_reply head.now code post) (L.written link.new) }
    ensures cause { HasCause (L.Source.faults link.old) (L.Source.faults link.new) result }
    ensures reading { read_side (L.taken link.new) (L.left link.new) (L.budget link.new) ≡ read_side (L.taken link.old) (L.left link.old) (L.budget link.old) }
    ensures end { L.has_ended link.old → L.has_ended link.new }
{
    let mut body = ArrayVec::new();
    write_error(code, 0, false, &mut body);
    reply_to(link, head, code, true, post, None, body.as_slice())
}

/// The code of the reply that tells of the fault.
fn fault_code(fault: Fault) -> u16
    ensures { result ≡ fault_code fault }
{
    match fault {
        Fault::NoMemory | Fault::Shut => 503,
        Fault::DiskFailed => 500,
    }
}

fn is_shut(fault: Fault) -> bool
    ensures { result ≡ is_shut fault }
{
    match fault {
        Fault::Shut => true,
        Fault::NoMemory | Fault::DiskFailed => false,
    }
}

/// Tells of a fault.
#[tactic(auto, unfolding(crate::specs::Reply::fault_reply))]
pub(crate) fn tell_fault<L: Link>(link: &mut L, head: &Head<'_>, fault: Fault) -> Result<(), Failed>
    ensures written { IsWritten result (L.written link.old) (fault_reply head.now fault) (L.written link.new) }
    ensures cause { HasCause (L.Source.faults link.old) (L.Source.faults link.new) result }
    ensures reading { read_side (L.taken link.new) (L.left link.new) (L.budget link.new) ≡ read_side (L.taken link.old) (L.left link.old) (L.budget link.old) }
    ensures end { L.has_ended link.old → L.has_ended link.new }
{
    let code = fault_code(fault);
    let mut body = ArrayVec::new();
    write_error(code, 0, is_shut(fault), &mut body);
    reply_to(link, head, code, true, false, None, body.as_slice())
}

/// Tells what a lookup is answered.
pub(crate) fn tell_answer<L: Link>(
    link: &mut L,
    head: &Head<'_>,
    answer: &Answer,
) -> Result<(), Failed>
    requires { IsTrue (is_reply_code answer.now.status) }
    ensures written { IsWritten result (L.written link.old) (answer_reply head.now answer.now) (L.written link.new) }
    ensures cause { HasCause (L.Source.faults link.old) (L.Source.faults link.new) result }
    ensures reading { read_side (L.taken link.new) (L.left link.new) (L.budget link.new) ≡ read_side (L.taken link.old) (L.left link.old) (L.budget link.old) }
    ensures end { L.has_ended link.old → L.has_ended link.new }
{
    let json = match answer.media {
        Media::Json => true,
        Media::Plain => false,
    };
    let serial = Some(answer.entries);
    reply_to(
        link,
        head,
        answer.status,
        json,
        false,
        serial,
        answer.body.bytes(),
    )
}

/// Tells what became of a line of the desk.
pub(crate) fn tell_line<L: Link>(
    link: &mut L,
    head: &Head<'_>,
    serial: Option<u64>,
    reply: &Reply,
) -> Result<(), Failed>
    requires { ReplyHasDate reply.now }
    ensures written { IsWritten result (L.written link.old) (line_reply head.now serial reply.now) (L.written link.new) }
    ensures cause { HasCause (L.Source.faults link.old) (L.Source.faults link.new) result }
    ensures reading { read_side (L.taken link.new) (L.left link.new) (L.budget link.new) ≡ read_side (L.taken link.old) (L.left link.old) (L.budget link.old) }
    ensures end { L.has_ended link.old → L.has_ended link.new }
{
    let mut line = ArrayVec::new();
    write_reply(reply, &mut line);
    line.push(b'\n');
    reply_to(link, head, 200, false, false, serial, line.as_slice())
}

/// Tells what is wrong with what is no message, and that the connection ends.
#[tactic(auto, unfolding(crate::specs::Reply::closing_reply))]
pub(crate) fn tell_closing<L: Link>(link: &mut L, code: u16) -> Result<(), Failed>
    requires { IsErrorCode code }
    ensures written { IsWritten result (L.written link.old) (closing_reply code) (L.written link.new) }
    ensures cause { HasCause (L.Source.faults link.old) (L.Source.faults link.new) result }
    ensures end { L.has_ended link.old → L.has_ended link.new }
    ensures taken { L.taken link.new ≡ L.taken link.old }
    ensures left { L.left link.new ≡ L.left link.old }
{
    let mut body = ArrayVec::new();
    write_error(code, 0, false, &mut body);
    let head = ReplyHead {
        code,
        json: true,
        length: body.len() as u64,
        serial: None,
        post: false,
        close: true,
    };
    write(link, &head, body.as_slice())
}
