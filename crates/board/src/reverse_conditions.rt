//! The reasons for a refusal that reverse entries give.
ghost use Rattle.std.specs.Prelude.{◌≡◌};
ghost use Rattle.reg_entry.specs.Decision.{meets_reverse, no_reverse, no_reverse_space, reverse_full};
ghost use Rattle.reg_entry.specs.Ranges.{same_range};

use crate::Board;
use num_range::{Number, Range, Space};
use reg_entry::Refusal;
use reg_laws::reverses::other_reverse_is_looked_up;

/// AS numbers have no reverse zones.
pub(crate) fn no_reverse_space(range: &Range) -> Option<Refusal>
    ensures { result ≡ no_reverse_space range.now }
{
    Refusal::NoReverseSpace.when(matches!(range.space(), Space::Asn))
}

/// `==`, as a call whose contract is the definition's test.
fn is_same(a: &Range, b: &Range) -> bool
    ensures { result ≡ same_range a.now b.now }
{
    a == b
}

impl Board {
    /// The range has a number of another range's reverse entry. Where it has one of its own there is no other, since reverse
    /// entries have no number in common.
    pub(crate) fn meets_reverse(&self, range: &Range) -> Option<Refusal>
        ensures { result ≡ meets_reverse self.now.register range.now }
    {
        // A law: how another range's entry is found.
        other_reverse_is_looked_up();
        self.is_whole();
        let (other, _) = self.reverse().first_met(range)?;
        if is_same(&other, range) {
            return None;
        }
        let number = Number::of(range.space(), range.first().max(other.first()));
        Some(Refusal::Overlap { number })
    }

    pub(crate) fn no_reverse(&self, range: &Range) -> Option<Refusal>
        ensures { result ≡ no_reverse self.now.register range.now }
    {
        Refusal::NoReverse.when(self.reverse().exact(range).is_none())
    }

    pub(crate) fn reverse_full(&self, range: &Range) -> Option<Refusal>
        ensures { result ≡ reverse_full self.now.register range.now }
    {
        let room = self.rooms().reverse;
        let is_new = self.reverse().exact(range).is_none();
        Refusal::ReverseFull { room }.when(is_new && room <= self.reverse().len())
    }
}
