//! Names in the reverse zones: labels with dots between them, the last of an address's first (RFC 1035 3.5, RFC 3596 2.5).
ghost use Rattle.std.specs.Prelude.{◌≡◌, ◌+◌, ◌*◌, ◌^◌, ◌<◌, ◌≤◌, ◌++◌, [], decimal, nat_le, length, map, filter, All};
ghost use Rattle.std.specs.Char.{digit_char};
ghost use Rattle.arrayvec.specs.ArrayVec.{array_vec_len};
ghost use Rattle.num_range.specs.Range.{size_of};
ghost use Rattle.num_range.specs.declared.space.Space.TheVariants.{Ipv6 as TheIpv6};
ghost use Rattle.reverse_zone.specs.Apex.{IsApex, label_text, labels_text, nibble_labels, apex_name};
ghost use Rattle.reverse_zone.specs.Zone.{label_bits, label_places, label_at, cut_name};

use crate::Apex;
use addr_text::append;
use arrayvec::ArrayVec;
use itoa::Buffer;
use num_range::{Range, Space};

#[tactic(auto, using(crate::proofs::Lengths::length_octet))]
fn append_octet<const N: usize>(octet: u8, out: &mut ArrayVec<u8, N>)
    requires room { array_vec_len out.old + 3 ≤ N }
    ensures text { out.new.items ≡ out.old.items ++ decimal octet }
    ensures len { array_vec_len out.new ≤ array_vec_len out.old + 3 }
{
    let mut buffer = Buffer::new();
    append(buffer.format(octet).as_bytes(), out);
}

/// The digit of a nibble, in lower case.
fn nibble_digit(nibble: u8) -> u8
    requires { nibble < 16 }
    ensures { result ≡ digit_char nibble }
{
    if nibble < 10 {
        b'0' + nibble
    } else {
        b'a' + (nibble - 10)
    }
}

fn append_label<const N: usize>(space: Space, label: u8, out: &mut ArrayVec<u8, N>)
    requires label { label < 2 ^ label_bits space }
    requires room { array_vec_len out.old + 3 ≤ N }
    ensures text { out.new.items ≡ out.old.items ++ label_text space label }
    ensures len { array_vec_len out.new ≤ array_vec_len out.old + 3 }
{
    match space {
        Space::Asn => {}
        Space::Ipv4 => append_octet(label, out),
        Space::Ipv6 => out.push(nibble_digit(label)),
    }
}

/// Appends labels with dots between them.
pub(crate) fn append_labels<const N: usize>(space: Space, labels: &[u8], out: &mut ArrayVec<u8, N>)
    requires labels { All (λ label. label < 2 ^ label_bits space) labels.now }
    requires room { array_vec_len out.old + 4 * length labels.now ≤ N }
    ensures text { out.new.items ≡ out.old.items ++ labels_text space labels.now }
    ensures len { array_vec_len out.new ≤ array_vec_len out.old + 4 * length labels.now }
{
    if let [first, rest @ ..] = labels {
        append_label(space, *first, out);
        for label in rest {
            append(b".", out);
            append_label(space, *label, out);
        }
    }
}

/// At which bits of an address the labels begin that stand below an apex, the last first, as far as cuts reach.
fn label_places(space: Space) -> &'static [u32]
    ensures places { result.now ≡ label_places space }
    ensures few { length result.now ≤ 13 }
    ensures bits { All (λ place. place < 128) result.now }
{
    match space {
        Space::Asn => &[],
        Space::Ipv4 => &[8, 16],
        Space::Ipv6 => &[64, 68, 72, 76, 80, 84, 88, 92, 96, 100, 104, 108, 112],
    }
}

/// Whether all numbers of the block share the label at this bit: the block isn't larger than what the label tells apart.
fn shares_label(block: &Range, place: u32) -> bool
    requires { place < 128 }
    ensures { result ≡ nat_le (size_of block.now) (2 ^ place) }
{
    block.last() - block.first() < 1 << place
}

/// The label of the block's first number at this bit.
fn label_at(block: &Range, place: u32) -> u8
    requires { place < 128 }
    ensures label { result ≡ label_at block.now place }
    ensures bound { result < 2 ^ label_bits block.now.space }
{
    let digits = block.first() >> place;
    match block.space() {
        Space::Asn => 0,
        Space::Ipv4 => (digits % 256) as u8,
        Space::Ipv6 => (digits % 16) as u8,
    }
}

/// The labels at these bits that all numbers of the block share.
pub(crate) fn shared_labels<const N: usize>(block: &Range, places: &[u32]) -> ArrayVec<u8, N>
    requires few { length places.now ≤ N }
    requires bits { All (λ place. place < 128) places.now }
    ensures labels { result.items ≡ map (label_at block.now) (filter (λ place. nat_le (size_of block.now) (2 ^ place)) places.now) }
    ensures bounds { All (λ label. label < 2 ^ label_bits block.now.space) result.items }
{
    let mut labels = ArrayVec::new();
    for place in places {
        if shares_label(block, *place) {
            labels.push(label_at(block, *place));
        }
    }
    labels
}

/// Appends the name of a cut, relative to its zone.
pub(crate) fn append_cut_name<const N: usize>(cut: &Range, out: &mut ArrayVec<u8, N>)
    requires room { array_vec_len out.old + 52 ≤ N }
    ensures text { out.new.items ≡ out.old.items ++ cut_name cut.now }
    ensures len { array_vec_len out.new ≤ array_vec_len out.old + 52 }
{
    let labels: ArrayVec<u8, 13> = shared_labels(cut, label_places(cut.space()));
    append_labels(cut.space(), labels.as_slice(), out);
}

/// Appends the name of a zone.
pub(crate) fn append_apex_name<const N: usize>(apex: Apex, out: &mut ArrayVec<u8, N>)
    requires apex { IsApex apex }
    requires room { array_vec_len out.old + 25 ≤ N }
    ensures text { out.new.items ≡ out.old.items ++ apex_name apex }
    ensures len { array_vec_len out.new ≤ array_vec_len out.old + 25 }
{
    match apex {
        Apex::Four(octet) => {
            append_octet(octet, out);
            append(b".in-addr.arpa", out);
        }
        Apex::Six(nibbles) => {
            let labels = nibble_labels(nibbles);
            append_labels(Space::Ipv6, &labels, out);
            append(b".ip6.arpa", out);
        }
    }
}

/// Three nibbles, the last first.
fn nibble_labels(nibbles: u16) -> [u8; 3]
    requires { nibbles < 4096 }
    ensures labels { result ≡ nibble_labels nibbles }
    ensures bounds { All (λ label. label < 2 ^ label_bits TheIpv6) result }
{
    [
        (nibbles % 16) as u8,
        (nibbles / 16 % 16) as u8,
        (nibbles / 256) as u8,
    ]
}
