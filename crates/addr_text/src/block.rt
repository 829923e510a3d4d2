ghost use Rattle.std.specs.Prelude.{◌≡◌, ℕ, IfSome, IfNone};
ghost use Rattle.num_range.specs.Number.{PlainNumber};
ghost use Rattle.addr_text.specs.Block.{SpellsBlock};

use crate::address::read_addr;
use crate::decimal::read_decimal;
use crate::parted::parted_at;
use num_range::Number;

/// The address and the prefix length of the block that the text spells (RFC 4632 3.1, RFC 4291 2.3). The address may
/// have bits set past the length.
pub fn read_block(text: &[u8]) -> Option<(Number, u32)>
    ensures some { IfSome result (λ block. SpellsBlock text.now block.0 block.1) }
    ensures none { IfNone result ((n : PlainNumber) (len : ℕ) → ¬ (SpellsBlock text.now n len)) }
{
    let (address, length) = parted_at(b'/', text)?;
    let address = read_addr(address)?;
    let length = read_decimal(length)?;
    if length > address.space().width() {
        return None;
    }
    Some((address, length))
}
