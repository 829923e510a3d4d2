ghost use Rattle.std.specs.Prelude.{◌≡◌, ◌<◌, ◌^◌};
ghost use Rattle.num_range.specs.Range.{size_of};
ghost use Rattle.delegated_ext.specs.Records.{record_line};

use num_range::{Range, Space};
use reg_entry::Card;

/// A record of the statistics file by its values: so many numbers of a space, from the first one on, and their card.
#[derive(Clone, Copy)]
pub struct RecordLine {
    pub space: Space,
    pub start: u128,
    pub size: u128,
    pub card: Card,
}

impl RecordLine {
    /// The record of a range that has the card.
    pub(crate) fn of(card: &Card, range: &Range) -> RecordLine
        requires { size_of range.now < 2 ^ 128 }
        ensures { result ≡ record_line card.now range.now }
    {
        RecordLine {
            space: range.space(),
            start: range.first(),
            size: range.size(),
            card: *card,
        }
    }
}
