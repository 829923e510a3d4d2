ghost use Rattle.std.specs.Prelude.{◌≡◌, ℕ, IfSome, IfNone};
ghost use Rattle.num_range.specs.Number.{PlainNumber};
ghost use Rattle.num_range.specs.Range.{PlainRange};
ghost use Rattle.rdap_query.specs.Path.{texts, SpellsOne, SpellsMasked, SpellsNetwork, SpellsAutnum, SpellsPath};
ghost use Rattle.rdap_query.specs.declared.ask.RdapAsk.{RdapAsk as TheAsk};

use crate::RdapAsk;
use addr_text::{read_addr, read_asn, read_decimal, spells_one};
use num_range::{Number, Range, masked};

/// The range of an address alone.
fn read_one(address: &[u8]) -> Option<Range>
    ensures some { IfSome result (SpellsOne address.now) }
    ensures none { IfNone result ((r : PlainRange) → ¬ (SpellsOne address.now r)) }
{
    let n = read_addr(address)?;
    Some(Range::between(n.space(), n.value(), n.value()))
}

/// The block of a prefix length that holds an address.
fn read_masked(address: &[u8], length: &[u8]) -> Option<Range>
    ensures some { IfSome result (SpellsMasked address.now length.now) }
    ensures none { IfNone result ((r : PlainRange) → ¬ (SpellsMasked address.now length.now r)) }
{
    // A law, for `none`: the address is that of no other number.
    spells_one();
    let n = read_addr(address)?;
    let len = read_decimal(length)?;
    if len > n.space().width() {
        return None;
    }
    Some(masked(n, len))
}

/// The range of an address alone, or of the block that holds it.
fn read_network(second: Option<&[u8]>, third: Option<&[u8]>) -> Option<Range>
    ensures some { IfSome result (SpellsNetwork (texts second.entry) (texts third.entry)) }
    ensures none { IfNone result ((r : PlainRange)
        → ¬ (SpellsNetwork (texts second.entry) (texts third.entry) r)) }
{
    match (second, third) {
        (Some(address), Some(length)) => read_masked(address, length),
        (Some(address), None) => read_one(address),
        (None, _) => None,
    }
}

fn read_autnum(second: Option<&[u8]>, third: Option<&[u8]>) -> Option<Number>
    ensures some { IfSome result (SpellsAutnum (texts second.entry) (texts third.entry)) }
    ensures none { IfNone result ((n : PlainNumber)
        → ¬ (SpellsAutnum (texts second.entry) (texts third.entry) n)) }
{
    match (second, third) {
        (Some(number), None) => read_asn(number),
        _ => None,
    }
}

/// What the path asks for: `ip` and an address, with or without a prefix length, past which the address may have bits set;
/// `autnum` and an AS number; or `help` (RFC 9082 3.1). The segments are percent-decoded, and there are no more of them.
pub fn read_path(first: &[u8], second: Option<&[u8]>, third: Option<&[u8]>) -> Option<RdapAsk>
    ensures some { IfSome result (SpellsPath first.now (texts second.entry) (texts third.entry)) }
    ensures none { IfNone result ((ask : TheAsk)
        → ¬ (SpellsPath first.now (texts second.entry) (texts third.entry) ask)) }
{
    match first {
        [b'i', b'p'] => Some(RdapAsk::Ip(read_network(second, third)?)),
        [b'a', b'u', b't', b'n', b'u', b'm'] => Some(RdapAsk::Autnum(read_autnum(second, third)?)),
        [b'h', b'e', b'l', b'p'] if second.is_none() && third.is_none() => Some(RdapAsk::Help),
        _ => None,
    }
}
