//! The stream of a register of five operations, in any pieces and with repeats, and each fault with its place, by a table.
use board::Body;
use mirror_core::{FeedFault, Mirror, append_attributes};
use std::alloc::{AllocError, Global};
use std::test::Fail;

mod cuts;

const STREAM: &str = "%START Version: 3 EXREG 1-5

ADD 1

inetnum: 192.0.2.0 - 192.0.2.255
status: available
source: EXREG

ADD 2

organisation: ORG-A
org-name: Alpha Net
org-type: lir
country: DE
e-mail: noc@alpha.example
date: 20240301
source: EXREG

DEL 3

inetnum: 192.0.2.0 - 192.0.2.255
status: available
source: EXREG

ADD 4

inetnum: 192.0.2.0 - 192.0.2.63
status: allocated
org: ORG-A
date: 20240301
source: EXREG

ADD 5

inetnum: 192.0.2.64 - 192.0.2.255
status: available
source: EXREG

%END EXREG
";

const OBJECTS: &str = "organisation: ORG-A
org-name: Alpha Net
org-type: lir
country: DE
e-mail: noc@alpha.example
date: 20240301
source: EXREG

inetnum: 192.0.2.0 - 192.0.2.63
status: allocated
org: ORG-A
date: 20240301
source: EXREG

inetnum: 192.0.2.64 - 192.0.2.255
status: available
source: EXREG

";

fn written(alloc: Global, mirror: &Mirror) -> Result<Body, AllocError> {
    let mut body = Body::new(alloc);
    for (_, attributes) in mirror.objects().walk() {
        append_attributes(attributes, &mut body)?;
    }
    Ok(body)
}

/// Whether all operations were applied, and nothing else.
fn has_all(alloc: Global, mirror: &Mirror) -> Result<bool, AllocError> {
    let body = written(alloc, mirror)?;
    Ok(mirror.serial() == 5 && mirror.at_rest() && body.bytes() == OBJECTS.as_bytes())
}

fn feed_pieces(mirror: &mut Mirror, text: &str, length: usize) -> Result<(), FeedFault> {
    for piece in text.as_bytes().chunks(length.max(1)) {
        mirror.feed(piece)?;
    }
    Ok(())
}

/// The first three operations once more, and the line that says that there are none.
fn feed_again(mirror: &mut Mirror) -> Result<(), FeedFault> {
    let operations = match STREAM.split_once("1-5\n") {
        Some((_, rest)) => match rest.split_once("ADD 4") {
            Some((three, _)) => three,
            None => "",
        },
        None => "",
    };
    mirror.feed(b"% no newer operations\n%START Version: 3 EXREG 1-3\n")?;
    mirror.feed(operations.as_bytes())?;
    mirror.feed(b"%END EXREG\n")
}

/// Feeds the stream in pieces of a length, then a part again, then one that leaves a gap, and then more.
fn plays(alloc: Global, length: usize) -> Result<bool, AllocError> {
    let mut mirror = Mirror::new(alloc, b"EXREG")?;
    let first = feed_pieces(&mut mirror, STREAM, length).is_ok() && has_all(alloc, &mirror)?;
    let again = feed_again(&mut mirror).is_ok() && has_all(alloc, &mirror)?;
    let gap = Err(FeedFault::Gap { want: 6, got: 7 });
    let broken = mirror.feed(b"%START Version: 3 EXREG 7-7\n") == gap
        && mirror.feed(b"%START Version: 3 EXREG 6-6\n") == gap
        && mirror.fault() == gap.err();
    Ok(first && again && broken && mirror.serial() == 5 && !mirror.at_rest())
}

#[test]
fn the_stream_is_played(rt: HostRuntime) -> Result<(), Fail> {
    for length in [1, 7, 1000] {
        assert!(rt; plays(rt.alloc(), length)?);
    }
    Ok(())
}

// Each row is what is answered, and the text. A `%START` line of one digit each is 28 bytes long, a line of an act 6.
const FAULTS: &str = "ok 0 at rest=>

% no newer operations
|ok 0=>
%START Version: 3 EXREG 1-2
|ok 0=>% half a line|ok 1 at rest=>%START  Version:\t3 EXREG 1-1 and more\r\n\r\n\r\nADD \t 1 \r\n\r\n\r\ninetnum: 192.0.2.0/24\r\nsource:\r\n EXREG # own\r\n\r\n%END\r\n|ok 1 at rest=>%START Version: 3 EXREG 1-1
DEL 1
domain: 2.0.192.in-addr.arpa
Source: EXREG

%END EXREG and more
|ok 0=>%START Version: 3 EXREG 1-1
ADD 1
inetnum: 192.0.2.0/24
source: EXREG
|Spelling 0=>ADD 1
|Spelling 0=>source: EXREG
|Spelling 0=>%END EXREG
|Spelling 2=>

source: EXREG
|Spelling 28=>%START Version: 3 EXREG 1-2
ADD 2
|Spelling 28=>%START Version: 3 EXREG 1-2
ADD 1 2
|Spelling 28=>%START Version: 3 EXREG 1-2
%START Version: 3 EXREG 1-2
|ForeignSource 0=>%START Version: 3 OTHER 7-6
|Gap 1 2=>%START Version: 2 EXREG 2-1
|Spelling 0=>%START Version: 2 EXREG 1-2
|Spelling 0=>%START Version: 3 EXREG 1-0
|Spelling 0=>%START Version: 2 OTHER
|Announced 0=>%ERROR: malformed query
|Announced 0=>%ERRORS
|Spelling 28=>%START Version: 3 EXREG 1-2
%END EXREG
|ForeignSource 28=>%START Version: 3 EXREG 1-2
%END OTHER
|Spelling 34=>%START Version: 3 EXREG 1-2
ADD 1
%END EXREG
|ClassOut 35=>%START Version: 3 EXREG 1-2
ADD 1

person: x
|Spelling 35=>%START Version: 3 EXREG 1-2
ADD 1

inetnum: 192.0.2.0
source: EXREG
|Spelling 35=>%START Version: 3 EXREG 1-2
ADD 1

domain: 2.00.192.in-addr.arpa
source: EXREG
|Spelling 57=>%START Version: 3 EXREG 1-2
ADD 1

inetnum: 192.0.2.0/24
# x
|Spelling 67=>%START Version: 3 EXREG 1-2
ADD 1

inetnum: 192.0.2.0/24
status: x

|ForeignSource 57=>%START Version: 3 EXREG 1-2
ADD 1

inetnum: 192.0.2.0/24
source: OTHER

|Announced 57=>%START Version: 3 EXREG 1-2
ADD 1

inetnum: 192.0.2.0/24
%ERROR: no more
";

fn shown(alloc: Global, mirror: &Mirror, fed: Result<(), FeedFault>) -> Result<String, AllocError> {
    let serial = mirror.serial();
    match fed {
        Ok(()) if mirror.at_rest() => format!(in alloc; "ok {serial} at rest"),
        Ok(()) => format!(in alloc; "ok {serial}"),
        Err(FeedFault::Spelling { place }) => format!(in alloc; "Spelling {place}"),
        Err(FeedFault::Gap { want, got }) => format!(in alloc; "Gap {want} {got}"),
        Err(FeedFault::ForeignSource { place }) => format!(in alloc; "ForeignSource {place}"),
        Err(FeedFault::ClassOut { place }) => format!(in alloc; "ClassOut {place}"),
        Err(FeedFault::Announced { place }) => format!(in alloc; "Announced {place}"),
        Err(FeedFault::NoMemory) => format!(in alloc; "no memory"),
    }
}

/// What is answered to the text, and once more to nothing.
fn answered(alloc: Global, text: &str) -> Result<String, AllocError> {
    let mut mirror = Mirror::new(alloc, b"EXREG")?;
    let _first = mirror.feed(text.as_bytes());
    let fed = mirror.feed(b"");
    shown(alloc, &mirror, fed)
}

/// The first row whose answer is another.
fn first_wrong(alloc: Global) -> Result<Option<&'static str>, AllocError> {
    for row in FAULTS.split('|') {
        if let Some((answer, text)) = row.split_once("=>") {
            let given = answered(alloc, text)?;
            if given.as_str() != answer {
                return Ok(Some(row));
            }
        }
    }
    Ok(None)
}

#[test]
fn faults_have_places(rt: HostRuntime) -> Result<(), Fail> {
    assert_eq!(rt; first_wrong(rt.alloc())?, None);
    Ok(())
}

/// What is answered to a text, then a line many times, and then the last text.
fn repeated(
    alloc: Global,
    first: &[u8],
    line: &[u8],
    times: u32,
    last: &[u8],
) -> Result<String, AllocError> {
    let mut mirror = Mirror::new(alloc, b"EXREG")?;
    let _first = mirror.feed(first);
    for _ in 0..times {
        let _fed = mirror.feed(line);
    }
    let fed = mirror.feed(last);
    shown(alloc, &mirror, fed)
}

const BEGUN: &[u8] = b"%START Version: 3 EXREG 1-2\nADD 1\n\ninetnum: 192.0.2.0/24\n";

/// Whether lines and objects have the size that they may have, and no more.
fn has_bounds(alloc: Global) -> Result<bool, AllocError> {
    let object = repeated(alloc, BEGUN, b"remarks: x\n", 63, b"")?;
    let longer = repeated(alloc, BEGUN, b"remarks: x\n", 64, b"")?;
    let line = repeated(alloc, b"%", b"x", 1023, b"\r\n")?;
    let long = repeated(alloc, b"%", b"x", 1024, b"")?;
    let returns = repeated(alloc, b"%", b"x", 1023, b"\r\r")?;
    let empty = repeated(
        alloc,
        b"%START Version: 3 EXREG 1-2\nADD 1\n",
        b"\n",
        3000,
        b"",
    )?;
    Ok(
        object.as_str() == "ok 0"
            && longer.as_str() == "Spelling 750"
            && line.as_str() == "ok 0 at rest"
            && long.as_str() == "Spelling 0"
            && returns.as_str() == "Spelling 0"
            && empty.as_str() == "ok 0",
    )
}

#[test]
fn sizes_are_bounded(rt: HostRuntime) -> Result<(), Fail> {
    assert!(rt; has_bounds(rt.alloc())?);
    Ok(())
}

/// The text cut behind its first source, and then the whole text: its first line stands inside an object.
fn cut(alloc: Global) -> Result<String, AllocError> {
    let mut mirror = Mirror::new(alloc, b"EXREG")?;
    let (front, _) = STREAM.as_bytes().split_at(STREAM.len().min(101));
    let half = mirror.feed(front);
    let fed = match half {
        Ok(()) => mirror.feed(STREAM.as_bytes()),
        Err(_) => half,
    };
    shown(alloc, &mirror, fed)
}

#[test]
fn cut_streams_are_faults(rt: HostRuntime) -> Result<(), Fail> {
    assert_eq!(rt; cut(rt.alloc())?.as_str(), "Spelling 101");
    Ok(())
}
