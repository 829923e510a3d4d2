ghost use Rattle.std.specs.Prelude.{◌≡◌, ℕ, ◌+◌, ◌≤◌, ◌++◌, decimal, IfSome, IfNone};
ghost use Rattle.std.specs.Int.{w32, to_be_bytes};
ghost use Rattle.std.specs.Net.Text.{ipv4_text};
ghost use Rattle.arrayvec.specs.ArrayVec.{array_vec_len};
ghost use Rattle.num_range.specs.Number.{PlainNumber};
ghost use Rattle.addr_text.specs.Address.{SpellsIpv4, SpellsIpv6, SpellsAddress};

use crate::decimal::push_decimal;
use arrayvec::ArrayVec;
use num_range::{Number, Space};
use std::net::{Ipv4Addr, Ipv6Addr};

/// The value of the IPv4 address that the text spells.
#[tactic(auto, unfolding(std::specs::Net::Addr::ipv4_bits))]
fn read_ipv4(text: &[u8]) -> Option<u32>
    ensures some { IfSome result (SpellsIpv4 text.now) }
    ensures none { IfNone result ((value : ℕ) → ¬ (SpellsIpv4 text.now value)) }
{
    let address = Ipv4Addr::parse_ascii(text).ok()?;
    Some(address.to_bits())
}

/// The value of the IPv6 address that the text spells.
#[tactic(auto, unfolding(std::specs::Net::Addr::ipv6_bits))]
fn read_ipv6(text: &[u8]) -> Option<u128>
    ensures some { IfSome result (SpellsIpv6 text.now) }
    ensures none { IfNone result ((value : ℕ) → ¬ (SpellsIpv6 text.now value)) }
{
    let address = Ipv6Addr::parse_ascii(text).ok()?;
    Some(address.to_bits())
}

/// The IPv4 or IPv6 address that the text spells.
pub fn read_addr(text: &[u8]) -> Option<Number>
    ensures some { IfSome result (SpellsAddress text.now) }
    ensures none { IfNone result ((n : PlainNumber) → ¬ (SpellsAddress text.now n)) }
{
    if let Some(value) = read_ipv4(text) {
        return Some(Number::of(Space::Ipv4, value as u128));
    }
    let value = read_ipv6(text)?;
    Some(Number::of(Space::Ipv6, value))
}

/// Appends an octet's decimal.
#[tactic(auto, using(crate::proofs::Decimals::length_octet))]
fn push_octet(octet: u8, out: &mut ArrayVec<u8, 96>)
    requires room { array_vec_len out.old + 3 ≤ 96 }
    ensures text { out.new.items ≡ out.old.items ++ decimal octet }
    ensures len { array_vec_len out.new ≤ array_vec_len out.old + 3 }
{
    push_decimal(octet as u32, out);
}

/// Appends the IPv4 address of this value.
#[tactic(auto, unfolding(std::specs::Net::Addr::IsIpv4OfBits))]
pub(crate) fn push_ipv4(value: u32, out: &mut ArrayVec<u8, 96>)
    requires room { array_vec_len out.old + 15 ≤ 96 }
    ensures text { out.new.items ≡ out.old.items ++ ipv4_text (to_be_bytes w32 value) }
    ensures len { array_vec_len out.new ≤ array_vec_len out.old + 15 }
{
    let [a, b, c, d] = Ipv4Addr::from_bits(value).octets();
    push_octet(a, out);
    out.push(b'.');
    push_octet(b, out);
    out.push(b'.');
    push_octet(c, out);
    out.push(b'.');
    push_octet(d, out);
}
