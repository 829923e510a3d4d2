//! That each type of the register can be kept in a list of the library's.
use num_range::{Range, Space};
use reg_entry::*;
use std::alloc::{AllocError, Global};
use std::test::Fail;

fn handle(bytes: &[u8]) -> Result<Handle, Fail> {
    Ok(Handle::read(bytes).ok_or("a handle")?)
}

fn holder() -> Result<Holder, Fail> {
    Ok(Holder {
        handle: handle(b"ORG-A")?,
        kind: Kind::Lir,
        cc: Cc::read(b"DE").ok_or("a country")?,
        name: Text::read(b"Alpha Net").ok_or("a text")?,
        email: Text::read(b"noc@alpha.example").ok_or("a text")?,
    })
}

/// How many there are in a list to which it is pushed.
fn kept<T: Copy>(alloc: Global, item: T) -> Result<usize, AllocError> {
    let mut list = Vec::new(alloc);
    list.push(item)?;
    Ok(list.len())
}

#[test]
fn lists_of_each_type(rt: HostRuntime) -> Result<(), Fail> {
    let range = Range::between(Space::Ipv4, 0xc000_0200, 0xc000_02ff);
    let card = Card::plain();
    let holder = holder()?;
    let object = Object::Org { holder, day: 19783 };
    let op = Op {
        serial: 1,
        act: Act::Add,
        object,
    };
    let entry = Entry {
        seq: 1,
        day: 19783,
        who: Name::read(b"local").ok_or("a name")?,
        request: Request::Receive { range },
        cover: Some(range),
        card: Some(card),
    };
    assert_eq!(rt; kept(rt.alloc(), Piece { range, card })?, 1);
    assert_eq!(rt; kept(rt.alloc(), holder)?, 1);
    assert_eq!(rt; kept(rt.alloc(), object)?, 1);
    assert_eq!(rt; kept(rt.alloc(), op)?, 1);
    assert_eq!(rt; kept(rt.alloc(), entry)?, 1);
    Ok(())
}

/// The first and the last day, and the days round the ends of February and of years (ISO 8601).
const DAYS: &str = "\
1 19700102
364 19701231
365 19710101
789 19720229
11016 20000229
19417 20230301
19783 20240301
20148 20250301
47541 21000301
2932896 99991231";

/// Texts that are no date.
const NO_DAYS: &str = "\
19700101
20230229
21000229
20231301
20230001
20230132
2023010
202301011
2023-1-1";

fn is_day(row: &str) -> Option<bool> {
    let (day, text) = row.split_once(' ')?;
    let day: u32 = day.parse().ok()?;
    if day > LAST_DATE {
        return None;
    }
    let is_written = day_text(day).as_slice() == text.as_bytes();
    Some(is_written && read_day(text.as_bytes()) == Some(day))
}

/// The first row that isn't so.
fn first_other_day() -> Option<&'static str> {
    for row in DAYS.lines() {
        if is_day(row) != Some(true) {
            return Some(row);
        }
    }
    None
}

/// The first text that is read as a date, where none is one.
fn first_day_read() -> Option<&'static str> {
    for text in NO_DAYS.lines() {
        if read_day(text.as_bytes()).is_some() {
            return Some(text);
        }
    }
    None
}

#[test]
fn days_of_the_calendar(rt: HostRuntime) -> Result<(), Fail> {
    assert_eq!(rt; first_other_day(), None);
    assert_eq!(rt; first_day_read(), None);
    Ok(())
}

/// Hosts, and texts of none.
const HOSTS: &str = "\
ns1.alpha.example
a.b
1.2
xn--a.example";

const NO_HOSTS: &str = "\
example
a..b
.a.b
a.b.
-a.b
a-.b
A.b";

/// The first text that isn't read as it stands in the two lists.
fn first_misread_host() -> Option<&'static str> {
    for text in HOSTS.lines() {
        if Host::read(text.as_bytes()).is_none() {
            return Some(text);
        }
    }
    for text in NO_HOSTS.lines() {
        if Host::read(text.as_bytes()).is_some() {
            return Some(text);
        }
    }
    None
}

/// The longest forms, and those a byte longer.
fn reads_the_longest() -> bool {
    let label = [b'a'; 64];
    let mut longest = [b'a'; 96];
    longest[63] = b'.';
    Host::read(longest.as_slice()).is_some()
        && Host::read(label.as_slice()).is_none()
        && Text::read(longest.as_slice()).is_some()
        && Name::read(&label[..24]).is_some()
        && Name::read(&label[..25]).is_none()
}

fn reads_names() -> bool {
    Name::read(b"local").is_some()
        && Name::read(b"Local").is_none()
        && Name::read(b"").is_none()
        && Cc::read(b"DE").is_some()
        && Cc::read(b"De").is_none()
        && Cc::read(b"DEU").is_none()
        && Handle::read(b"ORG-A").is_some()
        && Handle::read(b"1ORG").is_none()
}

fn reads_texts() -> bool {
    Text::read(b"Alpha Net").is_some()
        && Text::read(b" Alpha").is_none()
        && Text::read(b"Alpha ").is_none()
        && Text::read(b"a\"b").is_none()
        && Text::read(b"a#b").is_none()
        && Text::read(b"a\\b").is_none()
        && Text::read(b"a\tb").is_none()
        && Text::read(b"").is_none()
}

/// Whether one to four hosts are servers, and none and five aren't.
fn has_servers(host: Host) -> bool {
    let five = [host; 5];
    for count in 0..=5 {
        let wanted = if count == 0 || count == 5 {
            None
        } else {
            Some(count)
        };
        if Servers::new(&five[..count]).map(|s| s.hosts().len()) != wanted {
            return false;
        }
    }
    true
}

// Forms at their edges.
#[test]
fn forms(rt: HostRuntime) -> Result<(), Fail> {
    assert_eq!(rt; first_misread_host(), None);
    assert!(rt; reads_the_longest() && reads_names() && reads_texts());
    assert!(rt; has_servers(Host::read(b"ns1.alpha.example").ok_or("a host")?));
    Ok(())
}
