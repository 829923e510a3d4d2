//! IPv6 addresses as RFC 5952 4 writes them.
ghost use Rattle.std.specs.Prelude.{◌≡◌, ◌+◌, ◌-◌, ◌*◌, ◌<◌, ◌≤◌, ◌++◌, length};
ghost use Rattle.std.specs.Char.{digit_char};
ghost use Rattle.std.specs.Net.Text as Text;
ghost use Rattle.arrayvec.specs.ArrayVec.{array_vec_len};
ghost use Rattle.addr_text.specs.Address.{groups_of};

use crate::fitting::append;
use arrayvec::ArrayVec;
use std::net::Ipv6Addr;

/// A hex digit, in lower case (RFC 5952 4.3).
fn hex_digit(digit: u16) -> u8
    requires { digit < 16 }
    ensures { result ≡ digit_char digit }
{
    if digit < 10 {
        b'0' + digit as u8
    } else {
        b'a' + (digit - 10) as u8
    }
}

/// How many of the group's four hex digits are leading zeros, the last digit apart (RFC 5952 4.1).
fn leading_zero_digits(group: u16) -> usize
    ensures value { result ≡ Text.leading_zero_digits group }
    ensures within { result < 4 }
{
    match group {
        0x1000.. => 0,
        0x100.. => 1,
        0x10.. => 2,
        _ => 3,
    }
}

/// Appends a group in hex.
#[tactic(auto, unfolding(std::specs::Net::Text::hex))]
fn push_group(group: u16, out: &mut ArrayVec<u8, 96>)
    requires room { array_vec_len out.old + 4 ≤ 96 }
    ensures text { out.new.items ≡ out.old.items ++ Text.hex group }
    ensures len { array_vec_len out.new ≤ array_vec_len out.old + 4 }
{
    let digits = [
        hex_digit(group / 0x1000),
        hex_digit(group / 0x100 % 16),
        hex_digit(group / 0x10 % 16),
        hex_digit(group % 16),
    ];
    append(&digits[leading_zero_digits(group)..], out);
}

/// Appends groups with `:` between them.
fn push_groups(groups: &[u16], out: &mut ArrayVec<u8, 96>)
    requires room { array_vec_len out.old + 5 * length groups.now ≤ 96 }
    ensures text { out.new.items ≡ out.old.items ++ Text.groups_text groups.now }
    ensures len { array_vec_len out.new ≤ array_vec_len out.old + (5 * length groups.now - 1) }
{
    if let [first, rest @ ..] = groups {
        push_group(*first, out);
        for group in rest {
            out.push(b':');
            push_group(*group, out);
        }
    }
}

/// Where the longest run of zero groups starts and how many groups it has, the first of equal runs (RFC 5952 4.2.3).
fn longest_zero_run(groups: &[u16]) -> (usize, usize)
    ensures value { result ≡ Text.longest_zero_run groups.now }
    ensures within { result.0 + result.1 ≤ length groups.now }
{
    let mut start = groups.len();
    let mut len = 0;
    let mut run = 0;
    for i in (0..groups.len()).rev() {
        run = if groups[i] == 0 { run + 1 } else { 0 };
        if run >= len {
            start = i;
            len = run;
        }
    }
    (start, len)
}

/// Appends eight groups, with `::` in place of the longest run of two or more zero groups (RFC 5952 4.2).
#[tactic(auto, unfolding(std::specs::Net::Text::hex_groups_text))]
fn push_shortened(groups: &[u16], out: &mut ArrayVec<u8, 96>)
    requires eight { length groups.now ≡ 8 }
    requires room { array_vec_len out.old + 40 ≤ 96 }
    ensures text { out.new.items ≡ out.old.items ++ Text.hex_groups_text groups.now }
    ensures len { array_vec_len out.new ≤ array_vec_len out.old + 39 }
{
    let (start, len) = longest_zero_run(groups);
    if len > 1 {
        push_groups(&groups[..start], out);
        append(b"::", out);
        push_groups(&groups[start + len..], out);
    } else {
        push_groups(groups, out);
    }
}

/// Appends the IPv6 address of this value.
#[tactic(auto, unfolding(std::specs::Net::Addr::IsIpv6OfBits))]
pub(crate) fn push_ipv6(value: u128, out: &mut ArrayVec<u8, 96>)
    requires room { array_vec_len out.old + 40 ≤ 96 }
    ensures text { out.new.items
        ≡ out.old.items ++ Text.hex_groups_text (groups_of value) }
    ensures len { array_vec_len out.new ≤ array_vec_len out.old + 39 }
{
    push_shortened(&Ipv6Addr::from_bits(value).segments(), out);
}
