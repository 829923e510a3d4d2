//! Texts that are known to fit, appended to a buffer of any room.
ghost use Rattle.std.specs.Prelude.{◌≡◌, ◌+◌, ◌≤◌, ◌++◌, length};
ghost use Rattle.arrayvec.specs.ArrayVec.{array_vec_len};
ghost use Rattle.addr_text.specs.Number.{number_text};

use crate::number::write_number;
use arrayvec::ArrayVec;
use itoa::{Buffer, Integer};
use num_range::Number;

/// Appends a text that is known to fit.
pub fn append<const N: usize>(text: &[u8], out: &mut ArrayVec<u8, N>)
    requires room { array_vec_len out.old + length text.now ≤ N }
    ensures text { out.new.items ≡ out.old.items ++ text.now }
    ensures len { array_vec_len out.new ≡ array_vec_len out.old + length text.now }
{
    let _fits = out.try_extend_from_slice(text);
}

/// Appends the integer's decimal, which has at most 40 bytes.
pub fn append_decimal<I: Integer, const N: usize>(n: I, out: &mut ArrayVec<u8, N>)
    requires room { array_vec_len out.old + 40 ≤ N }
    ensures text { out.new.items ≡ out.old.items ++ I.text n }
    ensures len { array_vec_len out.new ≤ array_vec_len out.old + 40 }
{
    let mut buffer = Buffer::new();
    append(buffer.format(n).as_bytes(), out);
}

/// Appends the number as `write_number` writes it.
pub fn append_number<const N: usize>(n: &Number, out: &mut ArrayVec<u8, N>)
    requires room { array_vec_len out.old + 39 ≤ N }
    ensures text { out.new.items ≡ out.old.items ++ number_text n.now }
    ensures len { array_vec_len out.new ≤ array_vec_len out.old + 39 }
{
    let mut text = ArrayVec::new();
    write_number(*n, &mut text);
    append(text.as_slice(), out);
}
