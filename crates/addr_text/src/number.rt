ghost use Rattle.std.specs.Prelude.{◌≡◌, ◌≢◌, ℕ, List, ◌+◌, ◌≤◌, ◌++◌, codes, IfSome, IfNone};
ghost use Rattle.num_range.specs.Number.{PlainNumber};
ghost use Rattle.addr_text.specs.Number.{SpellsAsn, SpellsNumber, number_text};
ghost use Rattle.addr_text.specs.Reading.{number_of};
ghost use Rattle.arrayvec.specs.ArrayVec.{array_vec_len};

use crate::address::{push_ipv4, read_addr};
use crate::decimal::{push_decimal, read_decimal};
use crate::fitting::append;
use crate::ipv6::push_ipv6;
use arrayvec::ArrayVec;
use num_range::{Number, Space};

/// The AS number that the text is the plain decimal of (RFC 5396, asplain).
pub fn read_asn(text: &[u8]) -> Option<Number>
    ensures some { IfSome result (SpellsAsn text.now) }
    ensures none { IfNone result ((n : PlainNumber) → ¬ (SpellsAsn text.now n)) }
{
    let value = read_decimal(text)?;
    Some(Number::of(Space::Asn, value as u128))
}

/// What follows `AS`, where the text begins with it.
fn after_as(text: &[u8]) -> Option<&[u8]>
    ensures some { IfSome result (λ rest. text.now ≡ codes "AS" ++ rest.now) }
    ensures none { IfNone result ((rest : List ℕ) → text.now ≢ codes "AS" ++ rest) }
{
    match text {
        [b'A', b'S', rest @ ..] => Some(rest),
        _ => None,
    }
}

/// The number that the text spells, found by its front.
fn find_number(text: &[u8]) -> Option<Number>
    ensures some { IfSome result (SpellsNumber text.now) }
    ensures none { IfNone result ((n : PlainNumber) → ¬ (SpellsNumber text.now n)) }
{
    match after_as(text) {
        Some(value) => read_asn(value),
        None => read_addr(text),
    }
}

/// The address that the text spells, or the AS number where it begins with `AS`.
#[tactic(auto, using(crate::proofs::Computed::number_value))]
pub fn read_number(text: &[u8]) -> Option<Number>
    ensures value { result ≡ number_of text.now }
    ensures some { IfSome result (SpellsNumber text.now) }
    ensures none { IfNone result ((n : PlainNumber) → ¬ (SpellsNumber text.now n)) }
{
    find_number(text)
}

/// Appends the number's one written text, which has at most 39 bytes: an AS number as `AS` and decimal, IPv4 dotted,
/// IPv6 as RFC 5952 4 has it, without a dotted tail.
#[tactic(auto, using(crate::proofs::Decimals::length_word))]
pub fn write_number(n: Number, out: &mut ArrayVec<u8, 96>)
    requires room { array_vec_len out.old + 40 ≤ 96 }
    ensures text { out.new.items ≡ out.old.items ++ number_text n }
    ensures len { array_vec_len out.new ≤ array_vec_len out.old + 39 }
{
    match n.space() {
        Space::Asn => {
            append(b"AS", out);
            push_decimal(n.value() as u32, out);
        }
        Space::Ipv4 => push_ipv4(n.value() as u32, out),
        Space::Ipv6 => push_ipv6(n.value(), out),
    }
}
