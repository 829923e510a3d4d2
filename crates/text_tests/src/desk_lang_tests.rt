//! Lines and entries as they are read. A table has a row a line, whose columns end with `|`.

use arrayvec::ArrayVec;
use desk_lang::{Line, read_entry, read_line, write_request};

// A line with the text that is written of its request.
const REQUESTS: &str = r#"
receive 192.0.2.0/26|receive 192.0.2.0-192.0.2.63|
receive 192.0.2.0|receive 192.0.2.0-192.0.2.0|
reserve 2001:db8::/32|reserve 2001:db8::-2001:db8:ffff:ffff:ffff:ffff:ffff:ffff|
unreserve AS64496-AS64511|unreserve AS64496-AS64511|
unsub 192.0.2.0/26|unsub 192.0.2.0-192.0.2.63|
release 192.0.2.0/26|release 192.0.2.0-192.0.2.63|
unreverse 2001:DB8::/32|unreverse 2001:db8::-2001:db8:ffff:ffff:ffff:ffff:ffff:ffff|
split 192.0.2.32|split 192.0.2.32|
join 192.0.2.32|join 192.0.2.32|
join 2001:DB8:1::|join 2001:db8:1::|
holder ORG-A lir DE "Alpha  Net" "noc@alpha.example"|holder ORG-A lir DE "Alpha  Net" "noc@alpha.example"|
delegate ipv4 /0 allocated ORG-A|delegate ipv4 /0 allocated ORG-A|
delegate ipv4 /32 assigned ORG-A|delegate ipv4 /32 assigned ORG-A|
delegate ipv6 /3 allocated ORG-A|delegate ipv6 /3 allocated ORG-A|
delegate ipv6 /128 assigned ORG-A|delegate ipv6 /128 assigned ORG-A|
delegate asn 1 assigned ORG-A|delegate asn 1 assigned ORG-A|
delegate asn 1024 allocated ORG-A|delegate asn 1024 allocated ORG-A|
sub 192.0.2.0/26 ORG-A|sub 192.0.2.0-192.0.2.63 ORG-A|
return 192.0.2.0/26 B2|return 192.0.2.0-192.0.2.63 B2|
transfer 192.0.2.0/26 ORG-A B2|transfer 192.0.2.0-192.0.2.63 ORG-A B2|
reverse 192.0.2.0/26 ns1.alpha.example|reverse 192.0.2.0-192.0.2.63 ns1.alpha.example|
reverse 192.0.2.0/26 ns1.alpha.example a.b a.b ns1.alpha.example |reverse 192.0.2.0-192.0.2.63 ns1.alpha.example a.b a.b ns1.alpha.example|
"#;

// A text, and whether it is an entry's: then it is what is written of the entry that it spells. Those that aren't differ from
// one in a place.
const ENTRIES: &str = r#"
1 19700102 local 192.0.2.0-192.0.2.63 available - - - receive 192.0.2.0-192.0.2.63|entry|
2 20240301 local - - - - - holder ORG-A lir DE "Alpha Net" "noc@alpha.example"|entry|
3 20240301 local 192.0.2.0-192.0.2.63 allocated 0 20240301 - delegate ipv4 /26 allocated ORG-A|entry|
18446744073709551615 99991231 local AS64496-AS64511 quarantine - 20240301 20250301 return AS64496-AS64511 ORG-A|entry|
18446744073709551615 20240301 local 192.0.2.0-192.0.2.63 quarantine 4294967295 - 20250301 return 192.0.2.0-192.0.2.63 ORG-A|entry|
0 19700102 local - - - - - edit B2 enduser FR "Beta  2" "x"|entry|
3 20240301 local 192.0.2.0-192.0.2.63 available - - - receive 192.0.2.0-192.0.2.63|entry|
|none|
3 20240301 local 192.0.2.0-192.0.2.63 allocated 0 20240301 -|none|
03 20240301 local 192.0.2.0-192.0.2.63 available - - - receive 192.0.2.0-192.0.2.63|none|
18446744073709551616 20240301 local - - - - - receive 192.0.2.0-192.0.2.63|none|
3 19700101 local 192.0.2.0-192.0.2.63 available - - - receive 192.0.2.0-192.0.2.63|none|
3 20240230 local 192.0.2.0-192.0.2.63 available - - - receive 192.0.2.0-192.0.2.63|none|
3 20240301 Local 192.0.2.0-192.0.2.63 available - - - receive 192.0.2.0-192.0.2.63|none|
3 20240301 local 192.0.2.0/26 available - - - receive 192.0.2.0-192.0.2.63|none|
3 20240301 local - available - - - receive 192.0.2.0-192.0.2.63|none|
3 20240301 local 192.0.2.0-192.0.2.63 - 0 - - receive 192.0.2.0-192.0.2.63|none|
3 20240301 local 192.0.2.0-192.0.2.63 free - - - receive 192.0.2.0-192.0.2.63|none|
3 20240301 local 192.0.2.0-192.0.2.63 available 4294967296 - - receive 192.0.2.0-192.0.2.63|none|
3 20240301 local 192.0.2.0-192.0.2.63 available - - - receive 192.0.2.0/26|none|
3 20240301 local 192.0.2.0-192.0.2.63 available - - - receive  192.0.2.0-192.0.2.63|none|
3 20240301 local 192.0.2.0-192.0.2.63 available - - -  receive 192.0.2.0-192.0.2.63|none|
3 20240301 local 192.0.2.0-192.0.2.63 available - - - receive 192.0.2.0-192.0.2.63 |none|
 3 20240301 local 192.0.2.0-192.0.2.63 available - - - receive 192.0.2.0-192.0.2.63|none|
3 20240301 local - - - - - show 192.0.2.0|none|
3 20240301 local - - - - -|none|
"#;

/// The two columns of a row.
fn columns(row: &str) -> Option<(&str, &str)> {
    let (line, rest) = row.split_once('|')?;
    let (value, _) = rest.split_once('|')?;
    Some((line, value))
}

/// Whether the line asks for the request that has this text.
fn asks_for(line: &str, text: &str) -> bool {
    let Ok(Line::Request(request)) = read_line(line.as_bytes()) else {
        return false;
    };
    let mut written = ArrayVec::new();
    write_request(&request, &mut written);
    written.as_slice() == text.as_bytes()
}

/// Whether the row's line asks for the request that has the row's text.
fn asks_for_it(row: &str) -> bool {
    match columns(row) {
        Some((line, text)) => asks_for(line, text),
        None => false,
    }
}

/// Whether the row's text is an entry's where the row says so.
fn is_entry_or_none(row: &str) -> bool {
    match columns(row) {
        Some((text, "entry")) => read_entry(text.as_bytes()).is_some(),
        Some((text, "none")) => read_entry(text.as_bytes()).is_none(),
        _ => false,
    }
}

#[test]
fn requests(rt: HostRuntime) {
    for row in REQUESTS.lines() {
        assert!(rt; row.is_empty() || asks_for_it(row), "{row}");
    }
    let line = "\treceive  192.0.2.0-192.0.2.63 ";
    assert!(rt; asks_for(line, "receive 192.0.2.0-192.0.2.63"));
    let line = "edit B2\tenduser  FR \"Beta\"\t\"x\" ";
    assert!(rt; asks_for(line, "edit B2 enduser FR \"Beta\" \"x\""));
}

#[test]
fn entries(rt: HostRuntime) {
    for row in ENTRIES.lines() {
        assert!(rt; row.is_empty() || is_entry_or_none(row), "{row}");
    }
}
