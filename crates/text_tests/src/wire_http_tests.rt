//! Whole conversations, however their bytes come, and replies byte for byte.
use arrayvec::ArrayVec;
use std::alloc::Global;
use std::fmt::Write;
use std::test::Fail;
use wire_http::{Framer, Head, ReplyHead, Step, is_reply_code, write_error, write_head};

// Each row is what comes, and the steps that are answered: a message by the lengths of its head and its body, a fault by its
// code, `more` where the input stays open, and `end`. `~N*TEXT~` is the text N times.
const CONVERSATIONS: &str = "=>end
|GET / HTTP/1.1\r\nHost: r\r\n\r\n=>27+0 end
|GET / HTTP/1.1\n\n=>16+0 end
|\r\n\r\nGET / HTTP/1.0\r\n\r\n=>22+0 end
|GET / HTTP/1.1\r\n\r\nHEAD /a HTTP/1.1\r\n\r\n=>18+0 20+0 end
|POST /desk HTTP/1.1\r\ncontent-length: 3\r\n\r\ndueGET / HTTP/1.1\r\n\r\n=>42+3 18+0 end
|GET / HTTP/1.1\r\nContent-Length: 2\r\n\r\nab=>37+2 end
|GET / HTTP/1.1\r\n=>400
|GET / HTTP/1.1\r\n=>more
|GET / HTTP/2\r\n=>400
|GET / HTTP/1.1\r\n\r\nGET=>18+0 400
|POST / HTTP/1.1\r\n\r\n=>411
|POST / HTTP/1.1\r\nContent-Length: 1\r\n\r\n=>400
|POST / HTTP/1.1\r\nContent-Length: 1\r\n\r\n=>more
|POST / HTTP/1.1\r\nContent-Length: 1\r\nContent-Length: 1\r\n\r\na=>400
|POST / HTTP/1.1\r\nContent-Length: 01\r\n\r\na=>400
|POST / HTTP/1.1\r\nContent-Length: 4294967295\r\n\r\n=>413
|POST / HTTP/1.1\r\nContent-Length: 4294967296\r\n\r\n=>400
|POST / HTTP/1.1\r\nTransfer-Encoding: chunked\r\nContent-Length: 4097\r\n\r\n=>400
|GET / HTTP/1.1\r\n~64*a: b\r\n~\r\n=>402+0 end
|GET / HTTP/1.1\r\n~65*a: b\r\n~\r\n=>400
|POST / HTTP/1.1\r\nContent-Length: 4096\r\n\r\n~4096*a~GET / HTTP/1.1\r\n\r\n=>41+4096 18+0 end
|POST / HTTP/1.1\r\nContent-Length: 4097\r\n\r\n~4097*a~=>413
|GET / HTTP/1.1\r\na: ~8169*b~\r\n\r\n=>8192+0 end
|GET / HTTP/1.1\r\na: ~8170*b~\r\n\r\n=>400
|GET / HTTP/1.1\r\na: ~8171*b~=>more
|GET / HTTP/1.1\r\na: ~8173*b~=>400
|POST / HTTP/1.1\r\nContent-Length: 4096\r\na: ~8146*b~\r\n\r\n~4096*a~POST=>8192+4096 400";

// What the text stands for.
fn expanded(alloc: Global, text: &str) -> Result<Vec<u8>, Fail> {
    let mut bytes = Vec::new(alloc);
    for part in text.split('~') {
        match part.split_once('*') {
            None => bytes.extend_from_slice(part.as_bytes())?,
            Some((count, repeated)) => {
                for _ in 0..count.parse::<u16>()? {
                    bytes.extend_from_slice(repeated.as_bytes())?;
                }
            }
        }
    }
    Ok(bytes)
}

// The steps of a framer to which the input comes in a first piece and then in others of a size.
fn steps(
    alloc: Global,
    framer: &mut Framer,
    input: &[u8],
    first: usize,
    others: usize,
    is_open: bool,
) -> Result<String, Fail> {
    let mut told = String::new(alloc);
    let (mut left, mut size) = (input, first);
    framer.clear();
    for _ in 0..100_000u32 {
        match framer.next(left.is_empty() && !is_open) {
            Step::Message(m) => {
                let (head, body) = (framer.head(&m).len(), framer.body(&m).len());
                write!(told, "{head}+{body} ")?;
            }
            Step::More if left.is_empty() => {
                told.push_str("more")?;
                return Ok(told);
            }
            Step::More => {
                let (piece, rest) = left.split_at(size.min(left.len()).min(framer.spare()));
                framer.push(piece);
                (left, size) = (rest, others);
            }
            Step::Bad(code) => {
                write!(told, "{code}")?;
                return Ok(told);
            }
            Step::End => {
                told.push_str("end")?;
                return Ok(told);
            }
        }
    }
    Ok(told)
}

// Whether the row's steps are answered, whole, in single bytes and cut once at each place.
fn is_answered(alloc: Global, framer: &mut Framer, row: &str) -> Result<bool, Fail> {
    let Some((text, wanted)) = row.split_once("=>") else {
        return Ok(false);
    };
    let wanted = wanted.trim();
    let input = expanded(alloc, text)?;
    let is_open = wanted.ends_with("more");
    if steps(alloc, framer, &input, 1, 1, is_open)?.as_str() != wanted {
        return Ok(false);
    }
    for cut in 0..=input.len() {
        if steps(alloc, framer, &input, cut, input.len(), is_open)?.as_str() != wanted {
            return Ok(false);
        }
    }
    Ok(true)
}

// The number of the first row, from 1, that isn't answered so; 0 where all are.
fn first_wrong(alloc: Global, framer: &mut Framer) -> Result<u32, Fail> {
    for (i, row) in CONVERSATIONS.split('|').enumerate() {
        if !is_answered(alloc, framer, row)? {
            return Ok(u32::try_from(i)?.saturating_add(1));
        }
    }
    Ok(0)
}

#[test]
fn conversations(rt: HostRuntime) -> Result<(), Fail> {
    let mut framer = Framer::new(rt.alloc())?;
    assert_eq!(rt; first_wrong(rt.alloc(), &mut framer)?, 0);
    Ok(())
}

// Each row is a code, the entries of the register, whether it is shut, and the body.
const ERRORS: &str =
    r#"400 0 open {"description":["malformed query"],"errorCode":400,"rdapConformance":["rdap_level_0"],"title":"Bad Request"}
401 0 open {"description":["no such key"],"errorCode":401,"rdapConformance":["rdap_level_0"],"title":"Unauthorized"}
404 0 open {"description":["no such object"],"errorCode":404,"rdapConformance":["rdap_level_0"],"title":"Not Found"}
405 0 open {"description":["method not served here"],"errorCode":405,"rdapConformance":["rdap_level_0"],"title":"Method Not Allowed"}
409 3 open {"description":["the register has 3 entries"],"errorCode":409,"rdapConformance":["rdap_level_0"],"title":"Conflict"}
411 0 open {"description":["no content length"],"errorCode":411,"rdapConformance":["rdap_level_0"],"title":"Length Required"}
413 0 open {"description":["body over 4096 bytes"],"errorCode":413,"rdapConformance":["rdap_level_0"],"title":"Content Too Large"}
500 0 open {"description":["the disk failed"],"errorCode":500,"rdapConformance":["rdap_level_0"],"title":"Internal Server Error"}
503 0 open {"description":["no memory"],"errorCode":503,"rdapConformance":["rdap_level_0"],"title":"Service Unavailable"}
503 0 shut {"description":["no snapshot"],"errorCode":503,"rdapConformance":["rdap_level_0"],"title":"Service Unavailable"}"#;

fn is_error_body(row: &str) -> Option<bool> {
    let (code, rest) = row.split_once(' ')?;
    let (entries, rest) = rest.split_once(' ')?;
    let (word, body) = rest.split_once(' ')?;
    let code = code.parse::<u16>().ok()?;
    if !is_reply_code(code) || code == 200 {
        return None;
    }
    let mut out = ArrayVec::new();
    write_error(code, entries.parse::<u64>().ok()?, word == "shut", &mut out);
    Some(out.as_slice() == body.as_bytes())
}

// Each row is a code, the kind of the body and its length, the serial or 0, the method, whether the connection ends, and
// the head.
const HEADS: &str =
    "200 text 28 3 post keep HTTP/1.1 200 OK\r\nContent-Type: text/plain\r\nContent-Length: 28\r\nRegister-Serial: 3\r\n\r\n|\
200 json 546 0 get close HTTP/1.1 200 OK\r\nContent-Type: application/rdap+json\r\nContent-Length: 546\r\nConnection: close\r\n\r\n|\
401 json 104 0 post keep HTTP/1.1 401 Unauthorized\r\nContent-Type: application/rdap+json\r\nContent-Length: 104\r\nWWW-Authenticate: Bearer realm=\"desk\"\r\n\r\n|\
405 json 121 0 post close HTTP/1.1 405 Method Not Allowed\r\nContent-Type: application/rdap+json\r\nContent-Length: 121\r\nAllow: POST\r\nConnection: close\r\n\r\n|\
405 json 121 0 get keep HTTP/1.1 405 Method Not Allowed\r\nContent-Type: application/rdap+json\r\nContent-Length: 121\r\nAllow: GET, HEAD\r\n\r\n|\
409 json 118 3 get keep HTTP/1.1 409 Conflict\r\nContent-Type: application/rdap+json\r\nContent-Length: 118\r\nRegister-Serial: 3\r\n\r\n";

fn is_head(row: &str) -> Option<bool> {
    let (code, rest) = row.split_once(' ')?;
    let (kind, rest) = rest.split_once(' ')?;
    let (length, rest) = rest.split_once(' ')?;
    let (serial, rest) = rest.split_once(' ')?;
    let (method, rest) = rest.split_once(' ')?;
    let (word, head) = rest.split_once(' ')?;
    let code = code.parse::<u16>().ok()?;
    if !is_reply_code(code) {
        return None;
    }
    let reply = ReplyHead {
        code,
        json: kind == "json",
        length: length.parse::<u64>().ok()?,
        serial: serial.parse::<u64>().ok().filter(|serial| *serial > 0),
        post: method == "post",
        close: word == "close",
    };
    let mut out = ArrayVec::new();
    write_head(&reply, &mut out);
    Some(out.as_slice() == head.as_bytes())
}

// Each row is a head, whether it asks to close the connection, its key or `-`, and the entries that it asks for or `-`.
const SAID: &str = "GET / HTTP/1.0\r\n\r\n=>true - 0
|GET / HTTP/1.1\r\nCONNECTION: Close\r\n\r\n=>true - 0
|GET / HTTP/1.1\r\nConnection: close\r\nConnection: close\r\n\r\n=>false - 0
|GET / HTTP/1.1\r\nConnection: keep-alive, close\r\n\r\n=>false - 0
|GET / HTTP/1.1\r\nauthorization: bEaReR k-local-0001\r\n\r\n=>false k-local-0001 0
|GET / HTTP/1.1\r\nAuthorization: Basic abc\r\n\r\n=>false - 0
|GET / HTTP/1.1\r\nAuthorization: Bearer\r\n\r\n=>false - 0
|GET / HTTP/1.1\r\nAuthorization: Bearer a\r\nAuthorization: Bearer a\r\n\r\n=>false - 0
|GET / HTTP/1.1\r\nRegister-At-Least: 18446744073709551615\r\n\r\n=>false - 18446744073709551615
|GET / HTTP/1.1\r\nRegister-At-Least: 18446744073709551616\r\n\r\n=>false - -
|GET / HTTP/1.1\r\nRegister-At-Least: 04\r\n\r\n=>false - -
|GET / HTTP/1.1\r\nregister-at-least: 4\r\nRegister-At-Least: 4\r\n\r\n=>false - -";

fn is_said(row: &str) -> Option<bool> {
    let (bytes, said) = row.split_once("=>")?;
    let (close, said) = said.trim().split_once(' ')?;
    let (key, at_least) = said.split_once(' ')?;
    let head = Head::read(bytes.as_bytes())?;
    let same_key = head.key().unwrap_or(b"-") == key.as_bytes();
    let same_number = head.at_least() == at_least.parse::<u64>().ok();
    Some((close == "true") == head.asks_to_close() && same_key && same_number)
}

#[test]
fn replies_and_heads(rt: HostRuntime) {
    for row in ERRORS.split('\n') {
        assert_eq!(rt; is_error_body(row), Some(true), "{row}");
    }
    for row in HEADS.split('|') {
        assert_eq!(rt; is_head(row), Some(true), "{row}");
    }
    for row in SAID.split('|') {
        assert_eq!(rt; is_said(row), Some(true), "{row}");
    }
}
