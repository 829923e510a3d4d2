ghost use Rattle.std.specs.Prelude.{◌≡◌, ◌+◌, ◌-◌, ◌*◌, ◌^◌, ◌<◌, ◌≤◌, ◌%◌, true, false};
ghost use Rattle.reg_entry.specs.Blocks.{rounded_up};
ghost use Rattle.num_range.specs.Range.{size_of};
ghost use Rattle.num_range.specs.Space.{same_space};
ghost use Rattle.piece_book.specs.Free.{block_class, class_size, greatest_to, has_block, key_of, IsBlockSize};

use num_range::{Range, Space};
use reg_entry::Piece;

/// The place of an available piece in the index: first by space, then by how large a block it has room for, then by its
/// first number.
#[derive(Clone, Copy, PartialEq, Eq, PartialOrd, Ord)]
pub struct FreeKey {
    pub(super) space: Space,
    pub(super) class: u32,
    pub(super) first: u128,
}

impl FreeKey {
    pub(super) fn of(piece: &Piece) -> FreeKey
        requires { size_of piece.now.range < 2 ^ 128 }
        ensures { result ≡ key_of piece.now }
    {
        FreeKey {
            space: piece.range.space(),
            class: class_of(&piece.range),
            first: piece.range.first(),
        }
    }

    pub(super) fn is_of(&self, space: Space) -> bool
        ensures { result ≡ same_space self.now.space space }
    {
        self.space == space
    }
}

/// How far the first multiple of the size that is no less than `n` lies above it.
#[tactic(auto, using(crate::proofs::FreeRounding::gap_none, crate::proofs::FreeRounding::gap_some))]
pub(super) fn gap(n: u128, size: u128) -> u128
    requires { 0 < size }
    ensures gap { n + result ≡ rounded_up n size }
    ensures below { result < size }
{
    let past = n % size;
    if past == 0 { 0 } else { size - past }
}

fn power_of_two(exponent: u32) -> u128
    requires { exponent < 128 }
    ensures { result ≡ 2 ^ exponent }
{
    1 << exponent
}

/// The exponent of the size of the largest block of addresses that is aligned and lies in the range. Where that many
/// numbers of the range aren't aligned, half as many are.
fn exponent_within(range: &Range) -> u32
    requires { size_of range.now < 2 ^ 128 }
    ensures { result ≡ greatest_to 128 (has_block range.now) }
{
    let exponent = range.size().ilog2();
    let size = power_of_two(exponent);
    if gap(range.first(), size) + (size - 1) <= range.last() - range.first() {
        exponent
    } else {
        exponent - 1
    }
}

/// How large an aligned block the range has room for.
fn class_of(range: &Range) -> u32
    requires { size_of range.now < 2 ^ 128 }
    ensures { result ≡ block_class range.now.space range.now }
{
    match range.space() {
        Space::Asn => range.size().min(1024) as u32,
        Space::Ipv4 | Space::Ipv6 => exponent_within(range),
    }
}

/// The class of the blocks of a size.
pub(super) fn class_of_size(space: Space, size: u128) -> u32
    requires { IsBlockSize space size }
    ensures size { size ≡ class_size space result }
    ensures bound { result ≤ 1024 }
{
    match space {
        Space::Asn => size as u32,
        Space::Ipv4 | Space::Ipv6 => size.ilog2(),
    }
}
