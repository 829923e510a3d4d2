//! The names of reverse cuts, read (RFC 1035 3.5, RFC 3596 2.5).
ghost use Rattle.std.specs.Prelude.{◌≡◌, ◌==◌, ◌+◌, ◌*◌, ◌^◌, ◌<◌, ◌≤◌, ℕ, length, List, IfSome, IfNone, All, None, Some};
ghost use Rattle.std.specs.Option.{option_copied};
ghost use Rattle.std.specs.List.{slice_split};
ghost use Rattle.reverse_zone.specs.Zone.{label_bits};
ghost use Rattle.reverse_zone.specs.Delegated.{domain_of};
ghost use Rattle.num_range.specs.Cover.{is_cut_length};
ghost use Rattle.mirror_core.specs.Rows.{HasNoFew};
ghost use Rattle.mirror_core.specs.Keys.{before_end, nibble_of, label_of, labels_of, labels_value, block_of_labels, cut_in, cut_of};

use addr_text::{parted_at, read_decimal};
use arrayvec::ArrayVec;
use num_range::{Range, Space, block};

/// The labels of a cut's name: at most 16 nibbles, or 3 octets.
type Labels = ArrayVec<u8, 16>;

/// What stands before this end of a text.
fn before_end<'a>(end: &[u8], text: &'a [u8]) -> Option<&'a [u8]>
    ensures { option_copied result ≡ before_end end.now text.now }
{
    let (front, back) = text.split_at(text.len().saturating_sub(end.len()));
    if back == end { Some(front) } else { None }
}

fn nibble_of(text: &[u8]) -> Option<u8>
    ensures { result ≡ nibble_of text.now }
{
    match text {
        [b @ b'0'..=b'9'] => Some(*b - b'0'),
        [b @ b'a'..=b'f'] => Some(*b - b'a' + 10),
        _ => None,
    }
}

fn octet_of(text: &[u8]) -> Option<u8>
    ensures { result ≡ label_of Space.Ipv4 text.now }
{
    u8::try_from(read_decimal(text)?).ok()
}

/// The value of a label: an octet in decimal, or a nibble.
fn label_of(space: Space, text: &[u8]) -> Option<u8>
    ensures label { result ≡ label_of space text.now }
    ensures bound { IfSome result (λ label. label < 2 ^ label_bits space) }
{
    match space {
        Space::Asn => None,
        Space::Ipv4 => octet_of(text),
        Space::Ipv6 => nibble_of(text),
    }
}

fn domain_of(space: Space) -> &'static [u8]
    ensures { result.now ≡ domain_of space }
{
    match space {
        Space::Asn => b"",
        Space::Ipv4 => b".in-addr.arpa",
        Space::Ipv6 => b".ip6.arpa",
    }
}

/// The values of all labels, or nothing where one has none or there are more than 16.
fn labels_of(space: Space, front: &[u8]) -> Option<Labels>
    ensures some { IfSome result (λ labels. labels_of space (slice_split (λ b. b == 46) front.now) ≡ Some labels.items) }
    ensures bounds { IfSome result (λ labels. All (λ label. label < 2 ^ label_bits space) labels.items) }
    ensures none { IfNone result (HasNoFew 16 (labels_of space (slice_split (λ b. b == 46) front.now))) }
{
    let mut labels = ArrayVec::new();
    let mut left = front;
    'labels: while let Some((label, rest)) = parted_at(b'.', left) {
        let label = label_of(space, label)?;
        if labels.is_full() {
            return None;
        }
        labels.push(label);
        left = rest;
    }
    let label = label_of(space, left)?;
    if labels.is_full() {
        return None;
    }
    labels.push(label);
    Some(labels)
}

/// How many labels there can be for one bit pattern.
fn radix(space: Space) -> u128
    ensures { result ≡ 2 ^ label_bits space }
{
    match space {
        Space::Asn => 1,
        Space::Ipv4 => 256,
        Space::Ipv6 => 16,
    }
}

/// The number that labels say, the least digit first.
fn labels_value(space: Space, labels: &[u8]) -> u128
    requires few { label_bits space * length labels.now ≤ 128 }
    requires bounds { All (λ label. label < 2 ^ label_bits space) labels.now }
    ensures value { result ≡ labels_value (label_bits space) labels.now }
    ensures bound { result < 2 ^ (label_bits space * length labels.now) }
{
    match labels {
        [] => 0,
        [label, rest @ ..] => u128::from(*label) + radix(space) * labels_value(space, rest),
    }
}

fn label_bits(space: Space) -> u32
    ensures { result ≡ label_bits space }
{
    match space {
        Space::Asn => 0,
        Space::Ipv4 => 8,
        Space::Ipv6 => 4,
    }
}

fn is_cut_length(space: Space, len: u32) -> bool
    ensures { result ≡ is_cut_length space len }
{
    match space {
        Space::Asn => false,
        Space::Ipv4 => len == 16 || len == 24,
        Space::Ipv6 => 16 <= len && len <= 64 && len % 4 == 0,
    }
}

fn shifted(value: u128, places: u32) -> u128
    requires places { places < 128 }
    requires fits { value * 2 ^ places < 2 ^ 128 }
    ensures { result ≡ value * 2 ^ places }
{
    value << places
}

/// The block whose addresses share these labels, where zones are cut at its length.
fn block_of_labels(space: Space, labels: &Labels) -> Option<Range>
    requires { All (λ label. label < 2 ^ label_bits space) labels.now.items }
    ensures { result ≡ block_of_labels space labels.now.items }
{
    let len = label_bits(space) * labels.len() as u32;
    if !is_cut_length(space, len) {
        return None;
    }
    let value = labels_value(space, labels.as_slice());
    block(space, shifted(value, space.width() - len), len)
}

fn cut_in(space: Space, text: &[u8]) -> Option<Range>
    ensures { result ≡ cut_in space text.now }
{
    let front = before_end(domain_of(space), text)?;
    let labels = labels_of(space, front)?;
    block_of_labels(space, &labels)
}

/// The block whose whole name this is.
pub(crate) fn cut_of(text: &[u8]) -> Option<Range>
    ensures { result ≡ cut_of text.now }
{
    if before_end(domain_of(Space::Ipv4), text).is_some() {
        cut_in(Space::Ipv4, text)
    } else {
        cut_in(Space::Ipv6, text)
    }
}
