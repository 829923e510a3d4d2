//! A record of the file as its line.
ghost use Rattle.std.specs.Prelude.{◌≡◌, ◌+◌, ◌≤◌, ◌++◌, [], length};
ghost use Rattle.arrayvec.specs.ArrayVec.{array_vec_len};
ghost use Rattle.num_range.specs.Space.{top_of};
ghost use Rattle.reg_entry.specs.Days.{last_date};
ghost use Rattle.delegated_ext.specs.StatisticsText.{type_word, status_word, start_text, prefix_length, value_text, date_text, holder_of, country_text, opaque_text, record_text};

use crate::RecordLine;
use crate::append::{append_day, append_name};
use addr_text::{append, append_decimal, append_number};
use arrayvec::ArrayVec;
use holder_book::HolderBook;
use num_range::{Number, Space};
use reg_entry::{Card, Holder, Name, Status};

pub(crate) fn type_word(space: Space) -> &'static [u8]
    ensures word { result.now ≡ type_word space }
    ensures short { length result.now ≤ 4 }
{
    match space {
        Space::Asn => b"asn",
        Space::Ipv4 => b"ipv4",
        Space::Ipv6 => b"ipv6",
    }
}

fn status_word(status: Status) -> &'static [u8]
    ensures word { result.now ≡ status_word status }
    ensures short { length result.now ≤ 9 }
{
    match status {
        Status::Available => b"available",
        Status::Reserved | Status::Quarantine => b"reserved",
        Status::Allocated => b"allocated",
        Status::Assigned => b"assigned",
    }
}

fn append_start(space: Space, start: u128, out: &mut ArrayVec<u8, 256>)
    requires start { start ≤ top_of space }
    requires room { array_vec_len out.old + 40 ≤ 256 }
    ensures text { out.new.items ≡ out.old.items ++ start_text space start }
    ensures len { array_vec_len out.new ≤ array_vec_len out.old + 40 }
{
    match space {
        Space::Asn => append_decimal(start, out),
        Space::Ipv4 => append_number(&Number::of(Space::Ipv4, start), out),
        Space::Ipv6 => append_number(&Number::of(Space::Ipv6, start), out),
    }
}

/// The prefix length of an IPv6 block of so many addresses.
#[tactic(auto, using(crate::proofs::Lengths::length_of_size))]
fn prefix_length(size: u128) -> u32
    requires { 1 ≤ size }
    ensures { result ≡ prefix_length size }
{
    128 - size.ilog2()
}

fn append_value(space: Space, size: u128, out: &mut ArrayVec<u8, 256>)
    requires size { 1 ≤ size }
    requires room { array_vec_len out.old + 40 ≤ 256 }
    ensures text { out.new.items ≡ out.old.items ++ value_text space size }
    ensures len { array_vec_len out.new ≤ array_vec_len out.old + 40 }
{
    match space {
        Space::Asn => append_decimal(size, out),
        Space::Ipv4 => append_decimal(size, out),
        Space::Ipv6 => append_decimal(prefix_length(size), out),
    }
}

fn append_date(card: &Card, out: &mut ArrayVec<u8, 256>)
    requires date { card.now.day ≤ last_date }
    requires room { array_vec_len out.old + 8 ≤ 256 }
    ensures text { out.new.items ≡ out.old.items ++ date_text card.now }
    ensures len { array_vec_len out.new ≤ array_vec_len out.old + 8 }
{
    if card.status.is_delegated() {
        append_day(card.day, out);
    }
}

/// The holder of delegated numbers, and the day on which its fields were last given.
fn holder_of(holders: &HolderBook, card: &Card) -> Option<(Holder, u32)>
    ensures { result ≡ holder_of holders.now.holders card.now }
{
    if !card.status.is_delegated() {
        return None;
    }
    let number = card.holder?;
    if number < holders.len() {
        Some(*holders.holder(number))
    } else {
        None
    }
}

fn append_country(holder: &Option<(Holder, u32)>, out: &mut ArrayVec<u8, 256>)
    requires room { array_vec_len out.old + 2 ≤ 256 }
    ensures text { out.new.items ≡ out.old.items ++ country_text holder.now }
    ensures len { array_vec_len out.new ≤ array_vec_len out.old + 2 }
{
    if let Some((holder, _)) = holder {
        append(holder.cc.bytes(), out);
    }
}

fn append_opaque(holder: &Option<(Holder, u32)>, out: &mut ArrayVec<u8, 256>)
    requires room { array_vec_len out.old + 24 ≤ 256 }
    ensures text { out.new.items ≡ out.old.items ++ opaque_text holder.now }
    ensures len { array_vec_len out.new ≤ array_vec_len out.old + 24 }
{
    if let Some((holder, _)) = holder {
        append(holder.handle.bytes(), out);
    }
}

/// Writes the record's line, which has at most 159 bytes, with its LF.
pub(crate) fn write_record(
    registry: &Name,
    holders: &HolderBook,
    line: &RecordLine,
    out: &mut ArrayVec<u8, 256>,
)
    requires empty { out.old.items ≡ [] }
    requires start { line.now.start ≤ top_of line.now.space }
    requires size { 1 ≤ line.now.size }
    requires date { line.now.card.day ≤ last_date }
    ensures { out.new.items ≡ record_text registry.now holders.now.holders line.now }
{
    let holder = holder_of(holders, &line.card);
    append_name(registry, out);
    append(b"|", out);
    append_country(&holder, out);
    append(b"|", out);
    append(type_word(line.space), out);
    append(b"|", out);
    append_start(line.space, line.start, out);
    append(b"|", out);
    append_value(line.space, line.size, out);
    append(b"|", out);
    append_date(&line.card, out);
    append(b"|", out);
    append(status_word(line.card.status), out);
    append(b"|", out);
    append_opaque(&holder, out);
    append(b"\n", out);
}
