//! Objects of each class against a text by hand, and texts that are read, by a table.
ghost use Rattle.std.specs.Prelude.{IfSome};
ghost use Rattle.rpsl_text.specs.Object.{HasDates};

use num_range::{Range, Space};
use reg_entry::{Cc, Handle, Holder, Host, Kind, Object, Servers, Status, Text};
use rpsl_text::{RpslFault, read_object, write_object};
use std::alloc::{AllocError, Global};
use std::test::Fail;

// Each row is a text, and what is read of it: its attributes, or the line of its fault. Addresses are of RFC 5737.
const READ: &str = "person: x\nremarks: a # b\n+ c\n=>person=x;remarks=a c;
|+ c\n=>line 1
|=>
|inetnum:\t 192.0.2.0 \t - 192.0.2.255 \r\nSTATUS:available\r\n=>inetnum=192.0.2.0 - 192.0.2.255;status=available;
|Org-Name:  Alpha \t Net=>org-name=Alpha Net;
|a: b\n # c\n\td\n=>a=b d;
|a: b\n+c\n+\n+ #\n+d=>a=b c d;
|a:#b\n  c\n=>a=c;
|a:\nb: \t \nc:d\n=>a=;b=;c=d;
|9-Z: b: c\n=>9-z=b: c;
|a: b\rc\r=>a=b\rc\r;
|a: b\r\r\n c=>a=b\r c;
|a: b\n\nc: d\n=>line 2
|a: b\r\n\r\n=>line 2
|a: b\n \t\n=>line 2
|a: b\n c\n+ d\ne\n+ f\ng\n=>line 4
|# a: b\n=>line 1
|a b: c=>line 1
|a#: c=>line 1
|a_b: c=>line 1
|: c=>line 1
| a: b=>line 1
|\n=>line 1";

fn shown(alloc: Global, text: &str) -> Result<Vec<u8>, Fail> {
    let mut shown = Vec::new(alloc);
    match read_object(alloc, text.as_bytes()) {
        Ok(attrs) => {
            for (name, value) in attrs.walk() {
                shown.extend_from_slice(name)?;
                shown.push(b'=')?;
                shown.extend_from_slice(value)?;
                shown.push(b';')?;
            }
        }
        Err(RpslFault::Line(line)) => {
            shown.extend_from_slice(format!(in alloc; "line {line}")?.as_bytes())?;
        }
        Err(RpslFault::NoMemory) => shown.extend_from_slice(b"no memory")?,
    }
    Ok(shown)
}

/// The first text that isn't read as the table says.
fn first_misread(alloc: Global) -> Result<Option<&'static str>, Fail> {
    for row in READ.split('|') {
        if let Some((text, read)) = row.split_once("=>") {
            let shown = shown(alloc, text)?;
            if shown.as_slice() != read.trim_end_matches('\n').as_bytes() {
                return Ok(Some(text));
            }
        }
    }
    Ok(None)
}

#[test]
fn texts_are_read(rt: HostRuntime) -> Result<(), Fail> {
    assert_eq!(rt; first_misread(rt.alloc())?, None);
    Ok(())
}

/// 2024-03-01 and 2024-03-31.
const DAY: u32 = 19783;

const UNTIL: u32 = 19813;

/// 2001:db8::/32 (RFC 3849).
const SIX_FIRST: u128 = 0x2001_0db8 << 96;

const SIX_LAST: u128 = SIX_FIRST + ((1 << 96) - 1);

const WRITTEN: &str = "organisation: ORG-A
org-name: Alpha Net
org-type: lir
country: DE
e-mail: noc@alpha.example
date: 20240301
source: EXREG

as-block: AS64496 - AS64499
status: quarantine
until: 20240331
source: EXREG

inetnum: 192.0.2.0 - 192.0.2.255
status: available
source: EXREG

inetnum: 192.0.2.0 - 192.0.2.63
status: allocated
org: ORG-A
date: 20240301
source: EXREG

inet6num: 2001:db8:: - 2001:db8:ffff:ffff:ffff:ffff:ffff:ffff
status: assigned
org: ORG-A
date: 20240301
source: EXREG

sub-assignment: 192.0.2.0 - 192.0.2.31
org: ORG-A
date: 20240301
source: EXREG

domain: 2.0.192.in-addr.arpa
nserver: ns1.alpha.example
nserver: ns2.alpha.example
source: EXREG

domain: 8.b.d.0.1.0.0.2.ip6.arpa
nserver: ns1.alpha.example
nserver: ns2.alpha.example
source: EXREG

";

fn holder() -> Option<Holder> {
    Some(Holder {
        handle: Handle::read(b"ORG-A")?,
        kind: Kind::Lir,
        cc: Cc::read(b"DE")?,
        name: Text::read(b"Alpha Net")?,
        email: Text::read(b"noc@alpha.example")?,
    })
}

fn servers() -> Option<Servers> {
    let first = Host::read(b"ns1.alpha.example")?;
    let second = Host::read(b"ns2.alpha.example")?;
    Servers::new(&[first, second])
}

/// 192.0.2.0 up to this octet.
fn front(last: u8) -> Option<Range> {
    Range::new(Space::Ipv4, 0xc000_0200, 0xc000_0200 + u128::from(last))
}

fn piece(range: Option<Range>, status: Status, held: bool, day: u32, until: u32) -> Option<Object>
    ensures { IfSome result HasDates }
{
    let handle = if held { Handle::read(b"ORG-A") } else { None };
    Some(Object::Block {
        range: range?,
        status,
        handle,
        day: day.min(UNTIL),
        until: until.min(UNTIL),
    })
}

fn named(block: Option<Range>) -> Option<Object>
    ensures { IfSome result HasDates }
{
    Some(Object::Cut {
        block: block?,
        servers: servers()?,
    })
}

fn object(number: u8) -> Option<Object>
    ensures { IfSome result HasDates }
{
    match number {
        0 => Some(Object::Org {
            holder: holder()?,
            day: DAY,
        }),
        1 => piece(
            Range::new(Space::Asn, 64496, 64499),
            Status::Quarantine,
            false,
            0,
            UNTIL,
        ),
        2 => piece(front(255), Status::Available, false, 0, 0),
        3 => piece(front(63), Status::Allocated, true, DAY, 0),
        4 => piece(
            Range::new(Space::Ipv6, SIX_FIRST, SIX_LAST),
            Status::Assigned,
            true,
            DAY,
            0,
        ),
        5 => Some(Object::Sub {
            range: front(31)?,
            handle: Handle::read(b"ORG-A")?,
            day: DAY,
        }),
        6 => named(front(255)),
        7 => named(Range::new(Space::Ipv6, SIX_FIRST, SIX_LAST)),
        _ => None,
    }
}

/// Appends the text of the object, and an empty line.
fn append_written(alloc: Global, number: u8, out: &mut Vec<u8>) -> Result<(), AllocError> {
    if let Some(o) = object(number) {
        let body = write_object(alloc, &o, b"EXREG")?;
        out.extend_from_slice(body.bytes())?;
        out.push(b'\n')?;
    }
    Ok(())
}

#[test]
fn objects_are_written(rt: HostRuntime) -> Result<(), Fail> {
    let mut written = Vec::new(rt.alloc());
    for number in 0..8 {
        append_written(rt.alloc(), number, &mut written)?;
    }
    assert_eq!(rt; written.as_slice(), WRITTEN.as_bytes());
    Ok(())
}
