//! The reasons for a refusal that reverse entries give.
ghost use Rattle.std.specs.Prelude.{◌≡◌};
ghost use Rattle.reg_entry.specs.Decision.{meets_reverse, no_reverse, no_reverse_space, reverse_full};

use crate::PlainRegister;
use crate::ranges::{first_meeting_other, value_of_range};
use num_range::{Number, Range, Space};
use reg_entry::Refusal;

/// AS numbers have no reverse zones.
pub(crate) fn no_reverse_space(range: &Range) -> Option<Refusal>
    ensures { result ≡ no_reverse_space range.now }
{
    Refusal::NoReverseSpace.when(matches!(range.space(), Space::Asn))
}

impl PlainRegister {
    /// The range has a number of another range's reverse entry.
    pub(crate) fn meets_reverse(&self, range: &Range) -> Option<Refusal>
        ensures { result ≡ meets_reverse self.now range.now }
    {
        let (other, _) = first_meeting_other(&self.reverses, range)?;
        let number = Number::of(range.space(), range.first().max(other.first()));
        Some(Refusal::Overlap { number })
    }

    pub(crate) fn no_reverse(&self, range: &Range) -> Option<Refusal>
        ensures { result ≡ no_reverse self.now range.now }
    {
        Refusal::NoReverse.when(value_of_range(&self.reverses, range).is_none())
    }

    pub(crate) fn reverse_full(&self, range: &Range) -> Option<Refusal>
        ensures { result ≡ reverse_full self.now range.now }
    {
        let room = self.rooms.reverse;
        let is_new = value_of_range(&self.reverses, range).is_none();
        Refusal::ReverseFull { room }.when(is_new && room as usize <= self.reverses.len())
    }
}
