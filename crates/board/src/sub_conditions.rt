//! The reasons for a refusal that sub-assignments give.
ghost use Rattle.std.specs.Prelude.{◌≡◌};
ghost use Rattle.reg_entry.specs.Decision.{meets_sub, no_sub, has_subs, subs_full, straddled};

use crate::Board;
use num_range::{Number, Range};
use reg_entry::Refusal;

impl Board {
    /// The range has a number of a sub.
    pub(crate) fn meets_sub(&self, range: &Range) -> Option<Refusal>
        ensures { result ≡ meets_sub self.now.register range.now }
    {
        let (sub, _) = self.subs().first_met(range)?;
        let number = Number::of(range.space(), range.first().max(sub.first()));
        Some(Refusal::Overlap { number })
    }

    pub(crate) fn no_sub(&self, range: &Range) -> Option<Refusal>
        ensures { result ≡ no_sub self.now.register range.now }
    {
        Refusal::NoSub.when(self.subs().exact(range).is_none())
    }

    pub(crate) fn has_subs(&self, range: &Range) -> Option<Refusal>
        ensures { result ≡ has_subs self.now.register range.now }
    {
        let count = self.subs().count_inside(range);
        Refusal::HasSubs { count }.when(count > 0)
    }

    pub(crate) fn subs_full(&self) -> Option<Refusal>
        ensures { result ≡ subs_full self.now.register }
    {
        let room = self.rooms().subs;
        Refusal::SubsFull { room }.when(room <= self.subs().len())
    }

    /// A sub, or else a reverse entry, would be cut.
    pub(crate) fn straddled(&self, at: Number) -> Option<Refusal>
        ensures { result ≡ straddled self.now.register at }
    {
        let range = self
            .subs()
            .straddling(at)
            .or_else(|| self.reverse().straddling(at))?;
        Some(Refusal::Straddled { range })
    }
}
