//! Plain decimal: no sign, no leading zero.
ghost use Rattle.std.specs.Prelude.{◌≡◌, ◌≢◌, ℕ, ◌<◌, ◌≤◌, ◌+◌, ◌^◌, ◌-◌, ◌++◌, length, decimal, Some, IfSome, IfNone};
ghost use Rattle.addr_text.specs.Reading.{decimal_up_to};
ghost use Rattle.arrayvec.specs.ArrayVec.{array_vec_len};

use crate::fitting::append;
use arrayvec::ArrayVec;
use itoa::Buffer;

/// The number of 64 bits that the text is the decimal of, or any number or none where it is no such decimal.
fn parse_long(text: &[u8]) -> Option<u64>
    ensures { (n : ℕ) → n < 2 ^ 64 → text.now ≡ decimal n → result ≡ Some n }
{
    let Ok(digits) = str::from_utf8(text) else {
        return None;
    };
    digits.parse().ok()
}

/// The number of 64 bits that the text is the decimal of, without sign or leading zero.
pub fn read_long_decimal(text: &[u8]) -> Option<u64>
    ensures { result ≡ decimal_up_to (2 ^ 64 - 1) text.now }
{
    let number = parse_long(text)?;
    let mut buffer = Buffer::new();
    if buffer.format(number).as_bytes() != text {
        return None;
    }
    Some(number)
}

/// The number of 32 bits that the text is the decimal of, without sign or leading zero.
pub fn read_decimal(text: &[u8]) -> Option<u32>
    ensures value { result ≡ decimal_up_to (2 ^ 32 - 1) text.now }
    ensures some { IfSome result (λ n. text.now ≡ decimal n) }
    ensures none { IfNone result ((n : ℕ) → n < 2 ^ 32 → text.now ≢ decimal n) }
{
    u32::try_from(read_long_decimal(text)?).ok()
}

/// Appends the number's decimal.
pub(crate) fn push_decimal(n: u32, out: &mut ArrayVec<u8, 96>)
    requires room { array_vec_len out.old + length (decimal n) ≤ 96 }
    ensures text { out.new.items ≡ out.old.items ++ decimal n }
    ensures len { array_vec_len out.new ≡ array_vec_len out.old + length (decimal n) }
{
    let mut buffer = Buffer::new();
    append(buffer.format(n).as_bytes(), out);
}
