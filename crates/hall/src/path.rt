//! The path of a request's target.
ghost use Rattle.std.specs.Prelude.{◌≡◌, ◌<◌, ◌∷◌, length, IfSome, IfNone};
ghost use Rattle.std.specs.Option.{option_copied};
ghost use Rattle.percent_encoding.specs.Percent.{percent_decode as spec_decode};
ghost use Rattle.hall.specs.Path.{path_of, parts_of, parts_behind, is_lookup_name};

use addr_text::parted_at;
use arrayvec::ArrayVec;
use percent_encoding::percent_decode;

/// What stands before the query (RFC 3986 3.4).
pub(crate) fn path_of(target: &[u8]) -> &[u8]
    ensures { result.now ≡ path_of target.now }
{
    match parted_at(b'?', target) {
        Some((path, _)) => path,
        None => target,
    }
}

/// The segment as it is meant (RFC 3986 2.1), unless it is longer than any that names something.
pub(crate) fn decoded(segment: &[u8]) -> Option<ArrayVec<u8, 64>>
    ensures some { IfSome result (λ text. text.items ≡ spec_decode segment.now) }
    ensures none { IfNone result (64 < length (spec_decode segment.now)) }
{
    let mut text = ArrayVec::new();
    'bytes: for byte in percent_decode(segment) {
        if text.try_push(byte).is_err() {
            return None;
        }
    }
    Some(text)
}

/// The first part of a path, and what stands behind the slash after it.
pub(crate) fn part(text: &[u8]) -> (&[u8], Option<&[u8]>)
    ensures { parts_of text.now ≡ result.0.now ∷ parts_behind (option_copied result.1) }
{
    match parted_at(b'/', text) {
        Some((first, behind)) => (first, Some(behind)),
        None => (text, None),
    }
}

/// Whether lookups stand under the name.
pub(crate) fn is_lookup_name(name: &[u8]) -> bool
    ensures { result ≡ is_lookup_name name.now }
{
    name == b"ip".as_slice()
        || name == b"autnum".as_slice()
        || name == b"help".as_slice()
        || name == b"stats".as_slice()
        || name == b"zones".as_slice()
}
