//! Texts of the register as `&str`: all of them are ASCII.
ghost use Rattle.std.specs.Prelude.{◌≡◌, ◌≤◌, true, IsUtf8};
ghost use Rattle.addr_text.specs.Number.{number_text};
ghost use Rattle.addr_text.specs.Range.{range_text};
ghost use Rattle.reg_entry.specs.Days.{last_date};
ghost use Rattle.rdap_json.specs.Network.{midnight_text};

use addr_text::{write_number, write_range};
use arrayvec::ArrayVec;
use num_range::{Number, Range};
use reg_entry::{Cc, Handle, Text, day_text};

/// The bytes as they stand.
pub(crate) fn as_text(bytes: &[u8]) -> &str
    requires { IsUtf8 bytes.now }
    ensures { result.now ≡ bytes.now }
{
    match str::from_utf8(bytes) {
        Ok(text) => text,
        Err(_) => unreachable!(),
    }
}

pub(crate) fn handle_text(handle: &Handle) -> &str
    ensures { result.now ≡ handle.now }
{
    as_text(handle.bytes())
}

pub(crate) fn country_text(country: &Cc) -> &str
    ensures { result.now ≡ country.now }
{
    as_text(country.bytes())
}

pub(crate) fn plain_text(text: &Text) -> &str
    ensures { result.now ≡ text.now }
{
    as_text(text.bytes())
}

/// The text of a number.
pub(crate) fn number_bytes(n: Number) -> ArrayVec<u8, 96>
    ensures text { result.items ≡ number_text n }
    ensures utf8 { IsUtf8 result.items }
{
    // For `utf8`: the value is one of the space's.
    let _value = n.value();
    let mut out = ArrayVec::new();
    write_number(n, &mut out);
    out
}

/// `FIRST - LAST`.
pub(crate) fn range_bytes(r: &Range) -> ArrayVec<u8, 96>
    ensures text { result.items ≡ range_text true r.now }
    ensures utf8 { IsUtf8 result.items }
{
    // For `utf8`: the numbers are of the space.
    let _first = r.first();
    let mut out = ArrayVec::new();
    write_range(*r, true, &mut out);
    out
}

/// The first moment of a day, `YYYY-MM-DDT00:00:00Z` (RFC 3339 5.6).
pub(crate) fn midnight_bytes(day: u32) -> [u8; 20]
    requires { day ≤ last_date }
    ensures text { result ≡ midnight_text day }
    ensures utf8 { IsUtf8 result }
{
    let [a, b, c, d, e, f, g, h] = day_text(day);
    [
        a, b, c, d, b'-', e, f, b'-', g, h, b'T', b'0', b'0', b':', b'0', b'0', b':', b'0', b'0',
        b'Z',
    ]
}
