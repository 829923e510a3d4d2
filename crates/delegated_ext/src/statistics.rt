//! The file as a whole: the version line, three summary lines, and the records.
ghost use Rattle.std.specs.Prelude.{◌≡◌, ◌+◌, ◌≤◌, ◌++◌, [], length, IfOk, OnOk};
ghost use Rattle.num_range.specs.declared.space.Space.TheVariants.{Asn as TheAsn, Ipv4 as TheIpv4, Ipv6 as TheIpv6};
ghost use Rattle.delegated_ext.specs.Records.{record_lines};
ghost use Rattle.delegated_ext.specs.StatisticsText.{version_line, summary_line, summary_of, statistics_text};

use crate::append::{append_day, append_name};
use crate::record_count::count_records;
use crate::record_text::type_word;
use crate::records::append_records;
use addr_text::{append, append_decimal};
use arrayvec::ArrayVec;
use board::{Board, Body};
use num_range::Space;
use reg_entry::Name;
use std::alloc::{AllocError, Global};

fn write_version(registry: &Name, board: &Board, records: u64, out: &mut ArrayVec<u8, 256>)
    requires empty { out.old.items ≡ [] }
    requires records { records ≡ length (record_lines board.now.register) }
    ensures { out.new.items ≡ version_line registry.now board.now.register }
{
    // What every board keeps: its days are dates.
    board.is_whole();
    append(b"2|", out);
    append_name(registry, out);
    append(b"|", out);
    append_decimal(board.entries(), out);
    append(b"|", out);
    append_decimal(records, out);
    append(b"|", out);
    append_day(board.first_day(), out);
    append(b"|", out);
    append_day(board.last_day(), out);
    append(b"|+0000\n", out);
}

fn write_summary(registry: &Name, space: Space, count: u64, out: &mut ArrayVec<u8, 256>)
    requires { out.old.items ≡ [] }
    ensures { out.new.items ≡ summary_line registry.now space count }
{
    append_name(registry, out);
    append(b"|*|", out);
    append(type_word(space), out);
    append(b"|*|", out);
    append_decimal(count, out);
    append(b"|summary\n", out);
}

fn append_version(
    registry: &Name,
    board: &Board,
    records: u64,
    body: &mut Body,
) -> Result<(), AllocError>
    requires { records ≡ length (record_lines board.now.register) }
    ensures { OnOk result (body.new ≡ body.old ++ version_line registry.now board.now.register) }
{
    let mut line = ArrayVec::new();
    write_version(registry, board, records, &mut line);
    body.append(line.as_slice())
}

fn append_summary(
    registry: &Name,
    space: Space,
    count: u64,
    body: &mut Body,
) -> Result<(), AllocError>
    ensures { OnOk result (body.new ≡ body.old ++ summary_line registry.now space count) }
{
    let mut line = ArrayVec::new();
    write_summary(registry, space, count, &mut line);
    body.append(line.as_slice())
}

/// Appends the version line and the three summary lines, which count the records before any is written.
fn append_head(registry: &Name, board: &Board, body: &mut Body) -> Result<(), AllocError>
    ensures { OnOk result (body.new ≡ body.old ++ (version_line registry.now board.now.register
        ++ (summary_of registry.now board.now.register TheAsn ++ (summary_of registry.now board.now.register TheIpv4 ++ summary_of registry.now board.now.register TheIpv6)))) }
{
    let asn = count_records(board.pieces(), Space::Asn);
    let ipv4 = count_records(board.pieces(), Space::Ipv4);
    let ipv6 = count_records(board.pieces(), Space::Ipv6);
    append_version(registry, board, asn + ipv4 + ipv6, body)?;
    append_summary(registry, Space::Asn, asn, body)?;
    append_summary(registry, Space::Ipv4, ipv4, body)?;
    append_summary(registry, Space::Ipv6, ipv6, body)?;
    Ok(())
}

/// The statistics file of a register under the registry's name, as the RIR statistics exchange format, version 2, has it
/// with the NRO's extensions. It goes over the pieces twice, to count the records and to write them, and takes memory for
/// the text alone, which grows as `Body::append` says; without that it fails.
pub fn write_stats(alloc: Global, board: &Board, registry: &Name) -> Result<Body, AllocError>
    ensures { IfOk result (λ body. body ≡ statistics_text board.now.register registry.now) }
{
    // What every board keeps, for the days and the sizes of its pieces.
    board.is_whole();
    let (holders, pieces) = (board.holders(), board.pieces());
    let mut body = Body::new(alloc);
    append_head(registry, board, &mut body)?;
    append_records(registry, holders, pieces, Space::Asn, &mut body)?;
    append_records(registry, holders, pieces, Space::Ipv4, &mut body)?;
    append_records(registry, holders, pieces, Space::Ipv6, &mut body)?;
    Ok(body)
}
