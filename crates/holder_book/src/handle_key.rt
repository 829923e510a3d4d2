//! Handles as numbers, of which two are compared in one go.
ghost use Rattle.std.specs.Prelude.{◌≡◌, ◌<◌, ◌≤◌, true, length, IsTrue};
ghost use Rattle.std.specs.List.{list_all};
ghost use Rattle.reg_entry.specs.Handle.{is_handle, is_handle_byte};
ghost use Rattle.holder_book.specs.HandleKey.{digit, handle_key};

use reg_entry::Handle;

/// The digit of a byte of a handle.
fn digit(b: u8) -> u8
    requires { b < 128 }
    ensures digit { result ≡ digit b }
    ensures bound { result < 64 }
{
    if b >= b'A' {
        b - b'A' + 1
    } else if b >= b'0' {
        b - b'0' + 27
    } else {
        37
    }
}

/// The number of at most 12 bytes of a handle. So many digits to the base 38 have less than 64 bits.
fn half_key(bytes: &[u8]) -> u64
    requires alphabet { list_all is_handle_byte bytes.now ≡ true }
    requires few { length bytes.now ≤ 12 }
    ensures { result ≡ handle_key bytes.now }
{
    let mut key = 0;
    let mut i = 0;
    while i < bytes.len() {
        key = u64::from(digit(bytes[i])) + 38 * key;
        i += 1;
    }
    key
}

/// What a digit before 12 others is worth, 38^12.
const HALF: u128 = 9_065_737_908_494_995_456;

/// The number of a handle. 24 digits have less than 128 bits; they are added up in halves, since a processor multiplies 64
/// bits at once.
pub(crate) fn handle_key(handle: &Handle) -> u128
    ensures key { result ≡ handle_key handle.now }
    ensures form { IsTrue (is_handle handle.now) }
{
    let bytes = handle.bytes();
    if bytes.len() <= 12 {
        return u128::from(half_key(bytes));
    }
    let split = bytes.len() - 12;
    let high = half_key(&bytes[..split]);
    let low = half_key(&bytes[split..]);
    u128::from(low) + HALF * u128::from(high)
}
