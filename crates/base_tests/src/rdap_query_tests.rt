//! Paths that are read, by a table, and what each asks for.
use addr_text::{read_asn, read_range};
use rdap_query::{RdapAsk, read_path};
use std::test::Fail;

/// Paths, and what each asks for: a range, an AS number behind `AS`, `help`, or nothing.
const PATHS: &str = "ip/192.0.2.1 192.0.2.1-192.0.2.1
ip/192.0.2.77/26 192.0.2.64-192.0.2.127
ip/192.0.2.77/32 192.0.2.77-192.0.2.77
ip/192.0.2.77/0 0.0.0.0-255.255.255.255
ip/192.0.2.77/33 none
ip/192.0.2.77/026 none
ip/192.0.2.77/+26 none
ip/192.0.2.77/ none
ip/192.0.2.77/4294967296 none
ip/192.0.02.1 none
ip/192.0.2 none
ip/192.0.2.0-192.0.2.255 none
ip/AS64496 none
ip/64496 none
ip/ none
ip none
IP/192.0.2.1 none
ip/2001:db8:: 2001:db8::-2001:db8::
ip/2001:DB8:0::1/32 2001:db8::-2001:db8:ffff:ffff:ffff:ffff:ffff:ffff
ip/2001:db8::1/128 2001:db8::1-2001:db8::1
ip/::/0 ::-ffff:ffff:ffff:ffff:ffff:ffff:ffff:ffff
ip/2001:db8::/129 none
ip/1::2::3 none
autnum/64496 AS64496
autnum/0 AS0
autnum/4294967295 AS4294967295
autnum/4294967296 none
autnum/064496 none
autnum/+1 none
autnum/AS64496 none
autnum/0.64496 none
autnum/64496/32 none
autnum/ none
autnum none
help help
help/ none
help/me none
help/ip/192.0.2.1 none
domain/2.0.192.in-addr.arpa none
entity/ORG-A none
 none";

fn asked(path: &str) -> Option<RdapAsk> {
    let mut segments = path.split('/');
    let first = segments.next()?;
    let second = segments.next().map(str::as_bytes);
    let third = segments.next().map(str::as_bytes);
    read_path(first.as_bytes(), second, third)
}

fn wanted(text: &str) -> Option<RdapAsk> {
    if text == "help" {
        return Some(RdapAsk::Help);
    }
    match text.strip_prefix("AS") {
        Some(number) => Some(RdapAsk::Autnum(read_asn(number.as_bytes())?)),
        None => Some(RdapAsk::Ip(read_range(text.as_bytes())?)),
    }
}

/// The first path that isn't read as the table says.
fn first_misread() -> Option<&'static str> {
    for line in PATHS.split('\n') {
        let (path, text) = line.split_once(' ')?;
        if asked(path) != wanted(text) {
            return Some(path);
        }
    }
    None
}

#[test]
fn paths_of_lookups_are_read(rt: HostRuntime) -> Result<(), Fail> {
    assert_eq!(rt; first_misread(), None);
    assert_eq!(rt; read_path(b"ip", None, Some(b"24".as_slice())), None);
    assert_eq!(rt; read_path(b"help", None, Some(b"".as_slice())), None);
    Ok(())
}
