//! Requests as they are written: one line each, its words parted by single blanks.
ghost use Rattle.std.specs.Prelude.{◌≡◌, ℕ, List, [], ◌+◌, ◌≤◌, ◌++◌, length, codes};
ghost use Rattle.arrayvec.specs.ArrayVec.{array_vec_len};
ghost use Rattle.addr_text.specs.Number.{number_text};
ghost use Rattle.desk_text.specs.Vocabulary.{amount_text, quoted};
ghost use Rattle.desk_text.specs.RequestText.{holder_text, hosts_text, range_word, request_text};

use crate::append::{append_handle, append_next_handle, append_range};
use crate::vocabulary::{kind_word, space_word, status_word};
use addr_text::{append, append_decimal, append_number};
use arrayvec::ArrayVec;
use num_range::{Number, Range, Space};
use reg_entry::{Cc, Delegation, Handle, Holder, Host, Request, Servers, Text};

fn append_cc<const N: usize>(cc: &Cc, out: &mut ArrayVec<u8, N>)
    requires room { array_vec_len out.old + 2 ≤ N }
    ensures text { out.new.items ≡ out.old.items ++ cc.now }
    ensures len { array_vec_len out.new ≤ array_vec_len out.old + 2 }
{
    append(cc.bytes(), out);
}

fn append_quoted<const N: usize>(text: &Text, out: &mut ArrayVec<u8, N>)
    requires room { array_vec_len out.old + 98 ≤ N }
    ensures text { out.new.items ≡ out.old.items ++ quoted text.now }
    ensures len { array_vec_len out.new ≤ array_vec_len out.old + 98 }
{
    append(b"\"", out);
    append(text.bytes(), out);
    append(b"\"", out);
}

fn append_holder<const N: usize>(verb: &[u8], holder: &Holder, out: &mut ArrayVec<u8, N>)
    requires verb { length verb.now ≤ 10 }
    requires room { array_vec_len out.old + 250 ≤ N }
    ensures text { out.new.items ≡ out.old.items ++ verb.now ++ holder_text holder.now }
    ensures len { array_vec_len out.new ≤ array_vec_len out.old + 250 }
{
    append(verb, out);
    append_handle(&holder.handle, out);
    append(b" ", out);
    append(kind_word(holder.kind), out);
    append(b" ", out);
    append_cc(&holder.cc, out);
    append(b" ", out);
    append_quoted(&holder.name, out);
    append(b" ", out);
    append_quoted(&holder.email, out);
}

/// Appends the host with a blank before it.
fn append_host<const N: usize>(host: &Host, out: &mut ArrayVec<u8, N>)
    requires room { array_vec_len out.old + 97 ≤ N }
    ensures text { out.new.items ≡ out.old.items ++ codes " " ++ host.now }
    ensures len { array_vec_len out.new ≤ array_vec_len out.old + 97 }
{
    append(b" ", out);
    append(host.bytes(), out);
}

fn append_hosts<const N: usize>(hosts: &[Host], out: &mut ArrayVec<u8, N>)
    requires four { length hosts.now ≤ 4 }
    requires room { array_vec_len out.old + 388 ≤ N }
    ensures text { out.new.items ≡ out.old.items ++ hosts_text hosts.now }
    ensures len { array_vec_len out.new ≤ array_vec_len out.old + 388 }
{
    for host in hosts {
        append_host(host, out);
    }
}

fn append_amount<const N: usize>(space: Space, amount: u32, out: &mut ArrayVec<u8, N>)
    requires room { array_vec_len out.old + 41 ≤ N }
    ensures text { out.new.items ≡ out.old.items ++ amount_text space amount }
    ensures len { array_vec_len out.new ≤ array_vec_len out.old + 41 }
{
    match space {
        Space::Asn => append_decimal(amount, out),
        Space::Ipv4 | Space::Ipv6 => {
            append(b"/", out);
            append_decimal(amount, out);
        }
    }
}

fn append_delegate<const N: usize>(
    space: Space,
    amount: u32,
    status: Delegation,
    handle: &Handle,
    out: &mut ArrayVec<u8, N>,
)
    requires room { array_vec_len out.old + 100 ≤ N }
    ensures text { out.new.items ≡ out.old.items
        ++ request_text (Request.Delegate space amount status handle.now) }
    ensures len { array_vec_len out.new ≤ array_vec_len out.old + 100 }
{
    append(b"delegate ", out);
    append(space_word(space), out);
    append(b" ", out);
    append_amount(space, amount, out);
    append(b" ", out);
    append(status_word(status.status()), out);
    append_next_handle(handle, out);
}

/// Appends a request that has a range alone.
fn append_ranged<const N: usize>(verb: &[u8], range: &Range, out: &mut ArrayVec<u8, N>)
    requires verb { length verb.now ≤ 10 }
    requires room { array_vec_len out.old + 91 ≤ N }
    ensures text { out.new.items ≡ out.old.items ++ verb.now ++ range_word range.now }
    ensures len { array_vec_len out.new ≤ array_vec_len out.old + 91 }
{
    append(verb, out);
    append_range(range, false, out);
}

/// Appends a request that has a range and a handle.
fn append_held<const N: usize>(
    verb: &[u8],
    range: &Range,
    handle: &Handle,
    out: &mut ArrayVec<u8, N>,
)
    requires verb { length verb.now ≤ 10 }
    requires room { array_vec_len out.old + 116 ≤ N }
    ensures text { out.new.items
        ≡ out.old.items ++ verb.now ++ range_word range.now ++ codes " " ++ handle.now }
    ensures len { array_vec_len out.new ≤ array_vec_len out.old + 116 }
{
    append_ranged(verb, range, out);
    append_next_handle(handle, out);
}

/// Appends a request that has a number alone.
fn append_numbered<const N: usize>(verb: &[u8], number: &Number, out: &mut ArrayVec<u8, N>)
    requires verb { length verb.now ≤ 10 }
    requires room { array_vec_len out.old + 49 ≤ N }
    ensures text { out.new.items ≡ out.old.items ++ verb.now ++ number_text number.now }
    ensures len { array_vec_len out.new ≤ array_vec_len out.old + 49 }
{
    append(verb, out);
    append_number(number, out);
}

/// Appends the request's text, which has at most 512 bytes.
pub(crate) fn append_request<const N: usize>(r: &Request, out: &mut ArrayVec<u8, N>)
    requires room { array_vec_len out.old + 512 ≤ N }
    ensures text { out.new.items ≡ out.old.items ++ request_text r.now }
    ensures len { array_vec_len out.new ≤ array_vec_len out.old + 512 }
{
    match r {
        Request::Receive { range } => append_ranged(b"receive ", range, out),
        Request::AddHolder { holder } => append_holder(b"holder ", holder, out),
        Request::EditHolder { holder } => append_holder(b"edit ", holder, out),
        Request::Delegate {
            space,
            amount,
            status,
            handle,
        } => append_delegate(*space, *amount, *status, handle, out),
        Request::Reserve { range } => append_ranged(b"reserve ", range, out),
        Request::Unreserve { range } => append_ranged(b"unreserve ", range, out),
        Request::SubAssign { range, handle } => append_held(b"sub ", range, handle, out),
        Request::SubReturn { range } => append_ranged(b"unsub ", range, out),
        Request::Return { range, handle } => append_held(b"return ", range, handle, out),
        Request::Release { range } => append_ranged(b"release ", range, out),
        Request::Split { at } => append_numbered(b"split ", at, out),
        Request::Join { at } => append_numbered(b"join ", at, out),
        Request::Transfer { range, from, to } => {
            append_held(b"transfer ", range, from, out);
            append_next_handle(to, out);
        }
        Request::SetReverse { range, servers } => {
            append_ranged(b"reverse ", range, out);
            append_hosts(servers.hosts(), out);
        }
        Request::ClearReverse { range } => append_ranged(b"unreverse ", range, out),
    }
}

/// Writes the request's text, which has at most 512 bytes, without a line end.
pub fn write_request(r: &Request, out: &mut ArrayVec<u8, 1024>)
    requires empty { out.old.items ≡ [] }
    ensures text { out.new.items ≡ request_text r.now }
    ensures short { length (request_text r.now) ≤ 512 }
{
    append_request(r, out);
}
