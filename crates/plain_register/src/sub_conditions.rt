//! The reasons for a refusal that sub-assignments give.
ghost use Rattle.std.specs.Prelude.{◌≡◌};
ghost use Rattle.reg_entry.specs.Decision.{meets_sub, no_sub, has_subs, subs_full, straddled};

use crate::PlainRegister;
use crate::ranges::{count_inside, first_meeting, straddling, value_of_range};
use num_range::{Number, Range};
use reg_entry::Refusal;

impl PlainRegister {
    /// The range has a number of a sub.
    pub(crate) fn meets_sub(&self, range: &Range) -> Option<Refusal>
        ensures { result ≡ meets_sub self.now range.now }
    {
        let (sub, _) = first_meeting(&self.subs, range)?;
        let number = Number::of(range.space(), range.first().max(sub.first()));
        Some(Refusal::Overlap { number })
    }

    pub(crate) fn no_sub(&self, range: &Range) -> Option<Refusal>
        ensures { result ≡ no_sub self.now range.now }
    {
        Refusal::NoSub.when(value_of_range(&self.subs, range).is_none())
    }

    pub(crate) fn has_subs(&self, range: &Range) -> Option<Refusal>
        ensures { result ≡ has_subs self.now range.now }
    {
        self.is_whole();
        let count = count_inside(&self.subs, range) as u32;
        Refusal::HasSubs { count }.when(count > 0)
    }

    pub(crate) fn subs_full(&self) -> Option<Refusal>
        ensures { result ≡ subs_full self.now }
    {
        let room = self.rooms.subs;
        Refusal::SubsFull { room }.when(room as usize <= self.subs.len())
    }

    /// A sub, or else a reverse entry, would be cut.
    pub(crate) fn straddled(&self, at: Number) -> Option<Refusal>
        ensures { result ≡ straddled self.now at }
    {
        let range = straddling(&self.subs, at).or_else(|| straddling(&self.reverses, at))?;
        Some(Refusal::Straddled { range })
    }
}
