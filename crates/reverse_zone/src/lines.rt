//! The lines of a zone's master file (RFC 1035 5.1).
ghost use Rattle.std.specs.Prelude.{◌≡◌, ◌+◌, ◌≤◌, ◌++◌, [], length, codes, OnOk};
ghost use Rattle.arrayvec.specs.ArrayVec.{array_vec_len};
ghost use Rattle.reverse_zone.specs.Apex.{IsApex};
ghost use Rattle.reverse_zone.specs.Zone.{server_line, server_lines, origin_text, authority_line, cut_lines};

use crate::Apex;
use crate::labels::{append_apex_name, append_cut_name};
use addr_text::{append, append_decimal};
use arrayvec::ArrayVec;
use board::Body;
use num_range::Range;
use reg_entry::{Host, Servers, ZoneTerms};
use std::alloc::AllocError;

fn append_host<const N: usize>(host: &Host, out: &mut ArrayVec<u8, N>)
    requires room { array_vec_len out.old + 96 ≤ N }
    ensures text { out.new.items ≡ out.old.items ++ host.now }
    ensures len { array_vec_len out.new ≤ array_vec_len out.old + 96 }
{
    append(host.bytes(), out);
}

/// Writes the line of a name server, which has at most 157 bytes.
fn write_server(name: &[u8], server: &Host, out: &mut ArrayVec<u8, 256>)
    requires empty { out.old.items ≡ [] }
    requires short { length name.now ≤ 64 }
    ensures { out.new.items ≡ server_line name.now server.now }
{
    append(name, out);
    append(b" IN NS ", out);
    append_host(server, out);
    append(b".\n", out);
}

fn append_server(name: &[u8], server: &Host, body: &mut Body) -> Result<(), AllocError>
    requires { length name.now ≤ 64 }
    ensures { OnOk result (body.new ≡ body.old ++ server_line name.now server.now) }
{
    let mut line = ArrayVec::new();
    write_server(name, server, &mut line);
    body.append(line.as_slice())
}

/// Appends a line for each of the name's servers, in their order.
pub(crate) fn append_servers(
    name: &[u8],
    servers: &Servers,
    body: &mut Body,
) -> Result<(), AllocError>
    requires { length name.now ≤ 64 }
    ensures { OnOk result (body.new ≡ body.old ++ server_lines name.now servers.now) }
{
    for server in servers.hosts() {
        append_server(name, server, body)?;
    }
    Ok(())
}

/// Appends the lines of a cut.
pub(crate) fn append_cut(cut: &Range, servers: &Servers, body: &mut Body) -> Result<(), AllocError>
    ensures { OnOk result (body.new ≡ body.old ++ cut_lines (cut.now, servers.now)) }
{
    let mut name = ArrayVec::<u8, 64>::new();
    append_cut_name(cut, &mut name);
    append_servers(name.as_slice(), servers, body)
}

fn write_origin(apex: Apex, terms: &ZoneTerms, out: &mut ArrayVec<u8, 256>)
    requires empty { out.old.items ≡ [] }
    requires apex { IsApex apex }
    ensures { out.new.items ≡ origin_text apex terms.now }
{
    append(b"$ORIGIN ", out);
    append_apex_name(apex, out);
    append(b".\n$TTL ", out);
    append_decimal(terms.ttl, out);
    append(b"\n", out);
}

/// Writes the line of the start of authority, which has at most 410 bytes.
fn write_authority(serial: u64, terms: &ZoneTerms, out: &mut ArrayVec<u8, 512>)
    requires { out.old.items ≡ [] }
    ensures { out.new.items ≡ authority_line serial terms.now }
{
    append(b"@ IN SOA ", out);
    append_host(&terms.mname, out);
    append(b". ", out);
    append_host(&terms.rname, out);
    append(b". ", out);
    append_decimal(serial, out);
    append(b" ", out);
    append_decimal(terms.refresh, out);
    append(b" ", out);
    append_decimal(terms.retry, out);
    append(b" ", out);
    append_decimal(terms.expire, out);
    append(b" ", out);
    append_decimal(terms.minimum, out);
    append(b"\n", out);
}

/// Appends what the zone says of its own name: its default time to live, its start of authority, and its servers.
pub(crate) fn append_head(
    apex: Apex,
    serial: u64,
    terms: &ZoneTerms,
    body: &mut Body,
) -> Result<(), AllocError>
    requires { IsApex apex }
    ensures { OnOk result (body.new ≡ body.old ++ origin_text apex terms.now
        ++ authority_line serial terms.now ++ server_lines (codes "@") terms.now.servers) }
{
    let mut origin = ArrayVec::new();
    write_origin(apex, terms, &mut origin);
    let mut authority = ArrayVec::new();
    write_authority(serial, terms, &mut authority);
    body.append(origin.as_slice())?;
    body.append(authority.as_slice())?;
    append_servers(b"@", &terms.servers, body)
}
