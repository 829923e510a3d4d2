//! What an object's first attribute says: its class, and the key that tells it from the others of its class.
ghost use Rattle.std.specs.Prelude.{◌≡◌, ◌≤◌, IfSome};
ghost use Rattle.std.specs.Option.{option_map};
ghost use Rattle.num_range.specs.Space.{width_of, top_of};
ghost use Rattle.mirror_core.specs.Keys.{without_last_blank, without_first_blank, spaced_range_of, range_key, range_key_in, handle_key, class_named, is_class, key_of_attribute};
ghost use Rattle.addr_text.specs.Reading.{block_of_text, whole_block_of};
ghost use Rattle.mirror_core.specs.Rows.{row_of};

use crate::names::cut_of;
use addr_text::{computes_spelled, parted_at, read_block, read_number, spells_one};
use num_range::{Number, Range, Space, block};
use reg_entry::{Handle, Key};

/// Without the one blank at its end.
fn without_last_blank(text: &[u8]) -> &[u8]
    ensures { result.now ≡ without_last_blank text.now }
{
    match text {
        [front @ .., b' '] => front,
        _ => text,
    }
}

/// Without the one blank at its front.
fn without_first_blank(text: &[u8]) -> &[u8]
    ensures { result.now ≡ without_first_blank text.now }
{
    match text {
        [b' ', rest @ ..] => rest,
        _ => text,
    }
}

/// Two numbers of one space, the first at most the second, with or without a blank on each side of the `-`.
#[tactic(auto, unfolding(crate::specs::Keys::spaced_range_of))]
fn spaced_range(text: &[u8]) -> Option<Range>
    ensures { result ≡ spaced_range_of text.now }
{
    let (first, last) = parted_at(b'-', text)?;
    let first = read_number(without_last_blank(first))?;
    let last = read_number(without_first_blank(last))?;
    if first.space() == last.space() && first.value() <= last.value() {
        Some(Range::between(first.space(), first.value(), last.value()))
    } else {
        None
    }
}

/// An address and a prefix length.
fn block_text(text: &[u8]) -> Option<(Number, u32)>
    ensures value { result ≡ block_of_text text.now }
    ensures valid { IfSome result (λ b. (b.1 ≤ width_of b.0.space) × (b.0.value ≤ top_of b.0.space)) }
{
    computes_spelled();
    spells_one();
    read_block(text)
}

/// A block without bits set past its length.
#[tactic(auto, unfolding(addr_text::specs::Reading::whole_block_of))]
fn whole_block(text: &[u8]) -> Option<Range>
    ensures { result ≡ whole_block_of text.now }
{
    let (n, len) = block_text(text)?;
    block(n.space(), n.value(), len)
}

fn range_key(text: &[u8]) -> Option<Range>
    ensures { result ≡ range_key text.now }
{
    if parted_at(b'-', text).is_some() {
        spaced_range(text)
    } else {
        whole_block(text)
    }
}

fn range_key_in(space: Space, text: &[u8]) -> Option<Range>
    ensures { result ≡ range_key_in space text.now }
{
    let range = range_key(text)?;
    if range.space() == space {
        Some(range)
    } else {
        None
    }
}

fn handle_key(text: &[u8]) -> Option<Key>
    ensures { result ≡ handle_key text.now }
{
    Some(Key::Org(Handle::read(text)?))
}

/// The classes of the register's objects.
#[derive(Clone, Copy)]
enum ClassName {
    Organisation,
    AsBlock,
    Inetnum,
    Inet6num,
    SubAssignment,
    Domain,
}

fn class_named(name: &[u8]) -> Option<ClassName>
    ensures { option_map row_of result ≡ class_named name.now }
{
    if name == b"organisation".as_slice() {
        Some(ClassName::Organisation)
    } else if name == b"as-block".as_slice() {
        Some(ClassName::AsBlock)
    } else if name == b"inetnum".as_slice() {
        Some(ClassName::Inetnum)
    } else if name == b"inet6num".as_slice() {
        Some(ClassName::Inet6num)
    } else if name == b"sub-assignment".as_slice() {
        Some(ClassName::SubAssignment)
    } else if name == b"domain".as_slice() {
        Some(ClassName::Domain)
    } else {
        None
    }
}

/// The key that a value of the class spells.
fn key_in(class: ClassName, value: &[u8]) -> Option<Key>
    ensures { result ≡ (row_of class).key value.now }
{
    match class {
        ClassName::Organisation => handle_key(value),
        ClassName::AsBlock => Some(Key::Block(range_key_in(Space::Asn, value)?)),
        ClassName::Inetnum => Some(Key::Block(range_key_in(Space::Ipv4, value)?)),
        ClassName::Inet6num => Some(Key::Block(range_key_in(Space::Ipv6, value)?)),
        ClassName::SubAssignment => Some(Key::Sub(range_key(value)?)),
        ClassName::Domain => Some(Key::Cut(cut_of(value)?)),
    }
}

/// Whether the register has objects of this class.
pub(crate) fn is_class(name: &[u8]) -> bool
    ensures { result ≡ is_class name.now }
{
    class_named(name).is_some()
}

/// The key of an object whose first attribute this is.
pub(crate) fn key_of_attribute(name: &[u8], value: &[u8]) -> Option<Key>
    ensures { result ≡ key_of_attribute (name.now, value.now) }
{
    key_in(class_named(name)?, value)
}
