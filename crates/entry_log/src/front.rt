//! What of the list was seen.
ghost use Rattle.std.specs.Prelude.{◌≡◌, ◌+◌, ◌≤◌, ◌++◌, ◌∷◌, [], true, take, length, MatchBool};
ghost use mathlib.Core.List.{IsPrefix};
ghost use Rattle.entry_log.specs.Entries.{entries_after};
ghost use Rattle.entry_log.specs.Front.{goes_on_to};

use crate::{Append, Log, LogRule};
use logbook::Seen;
use reg_entry::Entry;
use std::marker::Model;

/// A list of entries that a log has given. Threads may share it.
#[derive(Drop)]
pub struct Front {
    appends: u64,
    count: u64,
    seen: Seen<Append, u64, LogRule>,
}

impl Model for Front {
    ghost use Rattle.std.specs.Prelude.{◌≡◌, length};
    ghost use Rattle.entry_log.specs.Entries.{entries_after};
    ghost use Rattle.entry_log.specs.Front.{PlainFront};

    ghost Value = { PlainFront };

    ghost view = { λ f. record { book = f.seen.book; entries = entries_after f.seen.log; appends = f.appends } };

    ghost invariant = { λ f. (f.appends ≡ length f.seen.log) × (f.count ≡ length (entries_after f.seen.log)) };
}

impl Front {
    /// The front of a log without appends.
    pub(crate) fn over(seen: Seen<Append, u64, LogRule>) -> Front
        requires { seen.log ≡ [] }
        ensures { result ≡ record { book = seen.book; entries = []; appends = 0 } }
    {
        Front {
            appends: 0,
            count: 0,
            seen,
        }
    }

    /// How many entries the list has.
    pub fn entries(&self) -> u64
        ensures { result ≡ length self.now.entries }
    {
        self.count
    }

    /// A copy.
    pub fn again(&self) -> Front
        ensures { result ≡ self.now }
    {
        Front {
            appends: self.appends,
            count: self.count,
            seen: self.seen.again(),
        }
    }

    /// Whether the other came from this by so many appends as it has entries more. Then its list begins with this one.
    pub fn begins(&self, other: &Front) -> bool
        requires book { other.now.book ≡ self.now.book }
        ensures counts { result ≡ goes_on_to self.now other.now }
        ensures prefix { result ≡ true → IsPrefix self.now.entries other.now.entries }
    {
        let mut both = self.seen.again();
        both.learn(&other.seen);
        self.goes_on_to(other)
    }

    fn goes_on_to(&self, other: &Front) -> bool
        ensures { result ≡ goes_on_to self.now other.now }
    {
        self.appends <= other.appends
            && self.count <= other.count
            && other.appends - self.appends == other.count - self.count
    }

    /// Puts the entry behind the first `keeps` entries of the list, and says whether it did. It did not where the log has
    /// appends that this front hasn't seen, or a count is the greatest of its type; then nothing changes.
    pub fn add(&mut self, log: &Log, keeps: u64, e: &Entry) -> bool
        requires log { log.now ≡ self.old.book }
        requires keeps { keeps ≤ length self.old.entries }
        ensures book { self.new.book ≡ self.old.book }
        ensures entries { MatchBool result (self.new.entries ≡ take keeps self.old.entries ++ e.now ∷ []) (self.new.entries ≡ self.old.entries) }
        ensures appends { MatchBool result (self.new.appends ≡ self.old.appends + 1) (self.new.appends ≡ self.old.appends) }
    {
        if self.appends == u64::MAX || keeps == u64::MAX {
            return false;
        }
        let mut seen = self.seen.again();
        let append = Append { keeps, entry: *e };
        if !log.append(self.appends, &mut seen, append) {
            return false;
        }
        self.appends += 1;
        self.count = keeps + 1;
        self.seen = seen;
        true
    }
}
