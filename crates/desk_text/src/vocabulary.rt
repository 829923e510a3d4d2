//! The words of the desk language.
ghost use Rattle.std.specs.Prelude.{◌≡◌, ◌≤◌, length};
ghost use Rattle.desk_text.specs.Vocabulary.{space_word, kind_word, status_word};

use num_range::Space;
use reg_entry::{Kind, Status};

pub(crate) fn space_word(space: Space) -> &'static [u8]
    ensures word { result.now ≡ space_word space }
    ensures short { length result.now ≤ 4 }
{
    match space {
        Space::Asn => b"asn",
        Space::Ipv4 => b"ipv4",
        Space::Ipv6 => b"ipv6",
    }
}

pub(crate) fn kind_word(kind: Kind) -> &'static [u8]
    ensures word { result.now ≡ kind_word kind }
    ensures short { length result.now ≤ 7 }
{
    match kind {
        Kind::Lir => b"lir",
        Kind::EndUser => b"enduser",
    }
}

pub(crate) fn status_word(status: Status) -> &'static [u8]
    ensures word { result.now ≡ status_word status }
    ensures short { length result.now ≤ 10 }
{
    match status {
        Status::Available => b"available",
        Status::Reserved => b"reserved",
        Status::Quarantine => b"quarantine",
        Status::Allocated => b"allocated",
        Status::Assigned => b"assigned",
    }
}
