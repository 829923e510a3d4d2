ghost use Rattle.std.specs.Prelude.{◌≡◌, ◌≢◌, ℕ, ◌<◌, List, [], ◌∷◌, ◌++◌, decimal, IfSome, IfNone};
ghost use Rattle.std.specs.Char.{digit_char};
ghost use Rattle.num_range.specs.declared.space.Space.TheVariants.{Ipv6 as TheIpv6};
ghost use Rattle.reverse_zone.specs.Apex.{IsApex, apex_range, nibble_labels, apex_name, labels_text};
ghost use Rattle.reverse_zone.specs.declared.apex.Apex.{Apex as TheApex};
ghost use Rattle.reverse_zone.specs.declared.apex.Apex.TheVariants.{Four, Six};

use addr_text::read_decimal;
use num_range::{Range, Space};

/// The top of a reverse zone: the first octet of the zone's IPv4 addresses, or the first three nibbles of its IPv6
/// addresses, from 0x200 to 0x3ff.
#[derive(Clone, Copy)]
pub enum Apex {
    Four(u8),
    Six(u16),
}

impl Apex {
    /// The addresses whose names lie in the zone.
    pub(crate) fn range(self) -> Range
        requires { IsApex self }
        ensures { result ≡ apex_range self }
    {
        match self {
            Apex::Four(octet) => {
                let first = u128::from(octet) << 24;
                Range::between(Space::Ipv4, first, first + 0xff_ffff)
            }
            Apex::Six(nibbles) => {
                let first = u128::from(nibbles) << 116;
                Range::between(Space::Ipv6, first, first + ((1 << 116) - 1))
            }
        }
    }
}

/// What of the name stands before the suffix.
fn before<'a>(name: &'a [u8], suffix: &[u8]) -> Option<&'a [u8]>
    ensures some { IfSome result (λ front. name.now ≡ front.now ++ suffix.now) }
    ensures none { IfNone result ((front : List ℕ) → name.now ≢ front ++ suffix.now) }
{
    name.strip_suffix(suffix)
}

/// The octet that the text is the decimal of.
#[tactic(auto, using(std::proofs::lemmas::Fmt::decimal_injective))]
fn read_octet(text: &[u8]) -> Option<u8>
    ensures some { IfSome result (λ octet. text.now ≡ decimal octet) }
    ensures none { IfNone result ((octet : ℕ) → octet < 256 → text.now ≢ decimal octet) }
{
    let value = read_decimal(text)?;
    if value < 256 { Some(value as u8) } else { None }
}

/// The nibble that the byte is the digit of, in lower case.
fn read_nibble(byte: u8) -> Option<u16>
    ensures some { IfSome result (λ nibble. (nibble < 16) × (byte ≡ digit_char nibble)) }
    ensures none { IfNone result ((nibble : ℕ) → nibble < 16 → byte ≢ digit_char nibble) }
{
    match byte {
        b'0'..=b'9' => Some(u16::from(byte - b'0')),
        b'a'..=b'f' => Some(u16::from(byte - b'a') + 10),
        _ => None,
    }
}

/// The number that three nibbles make.
fn number_of(first: u16, second: u16, third: u16) -> u16
    requires first { first < 16 }
    requires second { second < 16 }
    requires third { third < 16 }
    ensures labels { nibble_labels result ≡ third ∷ second ∷ first ∷ [] }
    ensures bound { result < 4096 }
{
    first * 256 + second * 16 + third
}

/// The three nibbles whose labels the text has, the last first.
fn read_nibbles(text: &[u8]) -> Option<u16>
    ensures some { IfSome result (λ nibbles. text.now ≡ labels_text TheIpv6 (nibble_labels nibbles)) }
    ensures none { IfNone result ((nibbles : ℕ) → nibbles < 4096 → text.now ≢ labels_text TheIpv6 (nibble_labels nibbles)) }
{
    let [third, b'.', second, b'.', first] = text else {
        return None;
    };
    let first = read_nibble(*first)?;
    let second = read_nibble(*second)?;
    let third = read_nibble(*third)?;
    Some(number_of(first, second, third))
}

/// The zone of IPv4 addresses that has the name.
fn read_four(name: &[u8]) -> Option<Apex>
    ensures some { IfSome result (λ apex. IsApex apex × (name.now ≡ apex_name apex)) }
    ensures none { IfNone result ((octet : ℕ) → octet < 256 → name.now ≢ apex_name (Four octet)) }
{
    let octet = read_octet(before(name, b".in-addr.arpa")?)?;
    Some(Apex::Four(octet))
}

/// The zone of IPv6 addresses that has the name.
fn read_six(name: &[u8]) -> Option<Apex>
    ensures some { IfSome result (λ apex. IsApex apex × (name.now ≡ apex_name apex)) }
    ensures none { IfNone result ((nibbles : ℕ) → IsApex (Six nibbles) → name.now ≢ apex_name (Six nibbles)) }
{
    let nibbles = read_nibbles(before(name, b".ip6.arpa")?)?;
    if 0x200 <= nibbles && nibbles <= 0x3ff {
        Some(Apex::Six(nibbles))
    } else {
        None
    }
}

/// The zone that has this name, in lower case and without the last dot. The octet has no leading zeros (RFC 1035 3.5), and
/// each nibble is a label of its own (RFC 3596 2.5).
pub fn read_apex(name: &[u8]) -> Option<Apex>
    ensures some { IfSome result (λ apex. IsApex apex × (name.now ≡ apex_name apex)) }
    ensures none { IfNone result ((apex : TheApex) → IsApex apex → name.now ≢ apex_name apex) }
{
    if let Some(apex) = read_four(name) {
        return Some(apex);
    }
    read_six(name)
}
