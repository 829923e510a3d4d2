ghost use Rattle.std.specs.Prelude.{◌≡◌, ℕ, [], ◌≤◌, ◌↔◌, IsTrue, IfSome, IfNone};
ghost use Rattle.num_range.specs.Range.{PlainRange};
ghost use Rattle.addr_text.specs.Range.{IsOneNumber, IsWholeBlock, IsFirstToLast, SpellsRange, range_text};
ghost use Rattle.addr_text.specs.Reading.{range_of};
ghost use Rattle.arrayvec.specs.ArrayVec.{array_vec_len};

use crate::block::read_block;
use crate::fitting::append;
use crate::number::{read_number, write_number};
use crate::parted::parted_at;
use arrayvec::ArrayVec;
use num_range::{Number, Range, block};

/// The range of the one number that the text spells.
fn read_one(text: &[u8]) -> Option<Range>
    ensures some { IfSome result (IsOneNumber text.now) }
    ensures none { IfNone result ((r : PlainRange) → ¬ (IsOneNumber text.now r)) }
{
    let n = read_number(text)?;
    Some(Range::between(n.space(), n.value(), n.value()))
}

/// The range of the block that the text spells, unless bits are set past its length.
fn read_whole_block(text: &[u8]) -> Option<Range>
    ensures some { IfSome result (IsWholeBlock text.now) }
    ensures none { IfNone result ((r : PlainRange) → ¬ (IsWholeBlock text.now r)) }
{
    let (n, len) = read_block(text)?;
    block(n.space(), n.value(), len)
}

/// Whether both numbers are of one space, and the first is at most the last.
fn in_order(first: &Number, last: &Number) -> bool
    ensures { IsTrue result
        ↔ ((first.now.space ≡ last.now.space) × (first.now.value ≤ last.now.value)) }
{
    first.space() == last.space() && first.value() <= last.value()
}

/// The range of two numbers with `-` between them.
fn read_first_to_last(text: &[u8]) -> Option<Range>
    ensures some { IfSome result (IsFirstToLast text.now) }
    ensures none { IfNone result ((r : PlainRange) → ¬ (IsFirstToLast text.now r)) }
{
    let (first, last) = parted_at(b'-', text)?;
    let first = read_number(first)?;
    let last = read_number(last)?;
    if !in_order(&first, &last) {
        return None;
    }
    Some(Range::between(first.space(), first.value(), last.value()))
}

/// The range that the text spells, found form by form.
fn find_range(text: &[u8]) -> Option<Range>
    ensures some { IfSome result (SpellsRange text.now) }
    ensures none { IfNone result ((r : PlainRange) → ¬ (SpellsRange text.now r)) }
{
    if let Some(range) = read_one(text) {
        return Some(range);
    }
    if let Some(range) = read_whole_block(text) {
        return Some(range);
    }
    read_first_to_last(text)
}

/// The range that the text spells: a number, a block without bits set past its length, or two numbers of one space
/// with `-` between them, the first at most the second.
#[tactic(auto, using(crate::proofs::Computed::range_value))]
pub fn read_range(text: &[u8]) -> Option<Range>
    ensures value { result ≡ range_of text.now }
    ensures some { IfSome result (SpellsRange text.now) }
    ensures none { IfNone result ((r : PlainRange) → ¬ (SpellsRange text.now r)) }
{
    find_range(text)
}

/// Writes `FIRST - LAST` where spaced, and else `FIRST-LAST`: at most 81 bytes.
pub fn write_range(r: Range, spaced: bool, out: &mut ArrayVec<u8, 96>)
    requires empty { out.old.items ≡ [] }
    ensures text { out.new.items ≡ range_text spaced r }
    ensures len { array_vec_len out.new ≤ 81 }
{
    write_number(Number::of(r.space(), r.first()), out);
    if spaced {
        append(b" - ", out);
    } else {
        append(b"-", out);
    }
    write_number(Number::of(r.space(), r.last()), out);
}
