//! The block at the front of a range.
ghost use Rattle.std.specs.Prelude.{◌≡◌, ℕ, ◌*◌, ◌%◌, ◌<◌, ◌≤◌, ◌^◌};
ghost use Rattle.num_range.specs.Range.{size_of};
ghost use Rattle.num_range.specs.Block.{block_of};
ghost use Rattle.cidr_cover.specs.Front.{IsFrontBlock, behind_front};

use num_range::{Number, Range, masked};

/// How many low bits of the value are 0: of the value 0 all 128.
#[tactic(auto, using(crate::proofs::Bits::trailing_bits))]
fn zero_bits(value: u128) -> u32
    ensures zero { value % 2 ^ result ≡ 0 }
    ensures most { (k : ℕ) → k ≤ 128 → value % 2 ^ k ≡ 0 → k ≤ result }
{
    value.trailing_zeros()
}

/// The bits of the greatest power of two that is no greater than the range's size.
fn size_bits(r: &Range) -> u32
    ensures within { 2 ^ result ≤ size_of r.now }
    ensures most { size_of r.now < 2 * 2 ^ result }
{
    match (r.last() - r.first()).checked_add(1) {
        Some(size) => size.ilog2(),
        None => 128,
    }
}

/// The length of the widest block at the range's front.
pub fn front_length(r: &Range) -> u32
    ensures fits { IsFrontBlock r.now result }
    ensures widest { (len : ℕ) → len < result → IsFrontBlock r.now len → ⊥ }
{
    let bits = zero_bits(r.first()).min(size_bits(r));
    r.space().width() - bits
}

/// The block of this length at the range's front, and what of the range is behind it.
pub fn split_front(r: &Range, len: u32) -> (Range, Option<Range>)
    requires { IsFrontBlock r.now len }
    ensures block { result.0 ≡ block_of r.now.space r.now.first len }
    ensures behind { result.1 ≡ behind_front r.now len }
{
    let block = masked(Number::of(r.space(), r.first()), len);
    let behind = if block.last() < r.last() {
        Some(Range::between(r.space(), block.last() + 1, r.last()))
    } else {
        None
    };
    (block, behind)
}
