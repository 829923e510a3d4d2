//! Blocks: ranges whose size is a power of two and whose first number is a multiple of it (RFC 4632 3.1, RFC 4291 2.3).
ghost use Rattle.std.specs.Prelude.{◌≡◌, ◌≤◌, ◌<◌, ◌-◌, ◌%◌, ◌↔◌, ◌^◌, IsSome, IfSome};
ghost use Rattle.num_range.specs.Space.{width_of};
ghost use Rattle.num_range.specs.Block.{IsBlockStart, block_size, block_of, block_holding};

use crate::{Number, Range, Space};

/// 2 to the power `bits`.
fn power_of_two(bits: u32) -> u128
    requires { bits < 128 }
    ensures { result ≡ 2 ^ bits }
{
    1 << bits
}

/// How far the last number of a block lies behind its first.
fn reach(space: Space, len: u32) -> u128
    requires { len ≤ width_of space }
    ensures { result ≡ block_size space len - 1 }
{
    let bits = space.width() - len;
    if bits == 128 {
        u128::MAX
    } else {
        power_of_two(bits) - 1
    }
}

/// How far the value lies behind the start of the block that holds it.
fn past_start(space: Space, value: u128, len: u32) -> u128
    requires { len ≤ width_of space }
    ensures { result ≡ value % block_size space len }
{
    let bits = space.width() - len;
    if bits == 128 {
        value
    } else {
        value % power_of_two(bits)
    }
}

/// The block of a length that is known to start here.
#[tactic(auto, using(crate::proofs::BlockEnds::block_ends, crate::proofs::BlockEnds::block_fits))]
fn whole_block(space: Space, start: u128, len: u32) -> Range
    requires { IsBlockStart space start len }
    ensures { result ≡ block_of space start len }
{
    let reach = reach(space, len);
    Range::between(space, start, start + reach)
}

/// The block of a prefix length that starts at a number, or nothing where the length is above the space's width,
/// the start above the space's greatest, or the start no multiple of the block's size.
pub fn block(space: Space, start: u128, len: u32) -> Option<Range>
    ensures fits { IsSome result ↔ IsBlockStart space start len }
    ensures block { IfSome result (λ r. r ≡ block_of space start len) }
{
    if len > space.width() || start > space.top() || past_start(space, start, len) != 0 {
        return None;
    }
    Some(whole_block(space, start, len))
}

/// The block of a prefix length that holds the number.
#[tactic(auto, using(crate::proofs::BlockEnds::start_is_multiple))]
pub fn masked(n: Number, len: u32) -> Range
    requires { len ≤ width_of n.space }
    ensures { result ≡ block_holding n len }
{
    let start = n.value() - past_start(n.space(), n.value(), len);
    whole_block(n.space(), start, len)
}
