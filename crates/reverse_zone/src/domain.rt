//! The whole name of a block as a domain (RFC 1035 3.5, RFC 3596 2.5).
ghost use Rattle.std.specs.Prelude.{◌≡◌, ◌<◌, ◌≤◌, length, All};
ghost use Rattle.reverse_zone.specs.Delegated.{address_places, domain_of, reverse_name};

use crate::labels::{append_labels, shared_labels};
use addr_text::append;
use arrayvec::ArrayVec;
use num_range::{Range, Space};

/// At which bits of an address the labels begin, the last first.
fn address_places(space: Space) -> &'static [u32]
    ensures places { result.now ≡ address_places space }
    ensures few { length result.now ≤ 32 }
    ensures bits { All (λ place. place < 128) result.now }
{
    match space {
        Space::Asn => &[],
        Space::Ipv4 => &[0, 8, 16, 24],
        Space::Ipv6 => &[
            0, 4, 8, 12, 16, 20, 24, 28, 32, 36, 40, 44, 48, 52, 56, 60, 64, 68, 72, 76, 80, 84,
            88, 92, 96, 100, 104, 108, 112, 116, 120, 124,
        ],
    }
}

/// The domain that has the names of all addresses, with a dot before it.
fn domain_of(space: Space) -> &'static [u8]
    ensures { result.now ≡ domain_of space }
{
    match space {
        Space::Asn => b"",
        Space::Ipv4 => b".in-addr.arpa",
        Space::Ipv6 => b".ip6.arpa",
    }
}

/// The whole name of a block, without the last dot. It has at most 72 bytes: 32 nibbles, each with a dot behind it, and
/// `ip6.arpa`.
pub fn reverse_name(block: &Range) -> ArrayVec<u8, 160>
    ensures { result.items ≡ reverse_name block.now }
{
    let mut name = ArrayVec::new();
    let labels: ArrayVec<u8, 32> = shared_labels(block, address_places(block.space()));
    append_labels(block.space(), labels.as_slice(), &mut name);
    append(domain_of(block.space()), &mut name);
    name
}
