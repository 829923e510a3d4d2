ghost use Rattle.std.specs.Prelude.{◌≡◌, ℕ, ◌≤◌, ◌%◌, [], true, IfSome, IsSomeAnd};
ghost use Rattle.std.specs.Iterator.{YieldsFirst, item_count};
ghost use Rattle.std.specs.Option.{option_map_or};
ghost use Rattle.num_range.specs.Block.{block_size};
ghost use Rattle.num_range.specs.Cover.{is_cut_length, longest_cut, reverse_cuts};
ghost use Rattle.cidr_cover.specs.Front.{IsFrontBlock};

use crate::front::{front_length, split_front};
use num_range::{Range, Space};
use std::marker::Model;

/// The reverse cuts of a range that are left, rising.
#[derive(Drop)]
pub struct CutWalk {
    rest: Option<Range>,
}

impl Model for CutWalk {
    ghost use Rattle.std.specs.Prelude.{List, []};
    ghost use Rattle.std.specs.Option.{option_map_or};
    ghost use Rattle.num_range.specs.Range.{PlainRange};
    ghost use Rattle.num_range.specs.Cover.{reverse_cuts};

    ghost Value = { List PlainRange };

    ghost view = { λ walk. option_map_or reverse_cuts walk.rest [] };
}

/// Walks the blocks at which the range's reverse zones are cut, rising: at whole octets of an IPv4 address (RFC 1035
/// 3.5) from /16 to /24, at whole nibbles of an IPv6 address (RFC 3596 2.5) from /16 to /64. AS numbers have none.
pub fn cuts(r: Range) -> CutWalk
    ensures { result ≡ reverse_cuts r }
{
    CutWalk { rest: Some(r) }
}

impl Iterator for CutWalk {
    type Item = Range;

    ghost next_gives = { YieldsFirst (λ left. left) };

    ghost remaining = { item_count (λ left. left) };

    fn next(&mut self) -> Option<Range> {
        let rest = from_cut_start(&self.rest?)?;
        let len = front_cut_length(&rest)?;
        let (block, behind) = split_front(&rest, len);
        self.rest = behind;
        Some(block)
    }
}

/// The least length of a cut that is no less than this one, or nothing where each is less.
fn cut_length(space: Space, at_least: u32) -> Option<u32>
    ensures cut { IfSome result (λ len. is_cut_length space len ≡ true) }
    ensures no_less { IfSome result (λ len. at_least ≤ len) }
    ensures least { (len : ℕ) → at_least ≤ len → is_cut_length space len ≡ true
        → IsSomeAnd result (λ least. least ≤ len) }
{
    match space {
        Space::Ipv4 if at_least <= 16 => Some(16),
        Space::Ipv4 if at_least <= 24 => Some(24),
        Space::Ipv6 if at_least <= 64 => Some(at_least.max(16).next_multiple_of(4)),
        _ => None,
    }
}

/// The length of the widest cut at the range's front, or nothing where no cut starts there.
fn front_cut_length(r: &Range) -> Option<u32>
    ensures front { IfSome result (λ len. IsFrontBlock r.now len) }
    ensures cut { IfSome result (λ len. is_cut_length r.now.space len ≡ true) }
    ensures widest { (len : ℕ) → is_cut_length r.now.space len ≡ true → IsFrontBlock r.now len
        → IsSomeAnd result (λ least. least ≤ len) }
{
    cut_length(r.space(), front_length(r))
}

/// The size of the smallest cuts of the range's space, of which each cut starts at a multiple. AS numbers have no cuts.
fn smallest_cut(r: &Range) -> u128
    ensures { result ≡ block_size r.now.space (longest_cut r.now.space) }
{
    match r.space() {
        Space::Asn => 1 << 32,
        Space::Ipv4 => 1 << 8,
        Space::Ipv6 => 1 << 64,
    }
}

/// The range from the first of its numbers on at which a cut may start, or nothing where there is none.
fn from_cut_start(r: &Range) -> Option<Range>
    ensures same_cuts { reverse_cuts r.now ≡ option_map_or reverse_cuts result [] }
    ensures starts { IfSome result (λ s. s.first % block_size s.space (longest_cut s.space) ≡ 0) }
{
    let first = r.first().checked_next_multiple_of(smallest_cut(r))?;
    Range::new(r.space(), first, r.last())
}
