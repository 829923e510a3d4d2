//! The log: a word that holds its length, under a rule of the kit's `logbook`.
ghost use Rattle.std.specs.Prelude.{◌≡◌, [], IfSome};

use crate::{Append, Front};
use logbook::{Gain, Offer, Plain, Play, Rule, Seen, Start, Word};
use reg_entry::Entry;
use std::marker::Model;

/// The word holds the length of the log.
pub struct LogRule;

impl Rule<Append, u64> for LogRule {
    ghost use Rattle.std.specs.Prelude.{[]};
    ghost use base.Fml.{ftrue};
    ghost use Rattle.entry_log.specs.Steps.{IsKept};

    ghost holds = { λ cells log. IsKept cells log };

    ghost first = { [] };

    ghost hinted = { λ n log. Unit {0} };

    ghost shows = { λ log. [] };

    ghost keeps = { λ names log. ftrue };

    ghost moves = { λ ask before after answer. Unit {0} };
}

/// An append trades nothing.
pub(crate) struct Nothing;

impl Gain<Append, u64> for Nothing {
    ghost use base.Fml.{ftrue};

    ghost after = { λ names about answer. ftrue };
}

/// The step that appends.
pub(crate) struct Appending;

impl Play<Append, u64> for Appending {
    ghost use Rattle.entry_log.specs.Steps.{Appends};

    ghost then = { Appends };
}

impl Plain<Append, Append, u64> for Appending {
    ghost use Rattle.std.specs.Prelude.{None};

    ghost ask = { λ a. a };

    ghost state = { λ a. None };
}

/// A log of appends. Contracts see which one it is.
#[derive(Drop)]
pub struct Log {
    head: Word<Append, u64, LogRule>,
}

impl Model for Log {
    ghost use Rattle.std.specs.Prelude.{◌≡◌};
    ghost use Rattle.logbook.specs.Pages.{Book};
    ghost use Rattle.entry_log.specs.Steps.{head_of};

    ghost Value = { Book };

    ghost view = { λ l. l.head.book };

    ghost invariant = { λ l. l.head ≡ head_of l.head.book };
}

/// A new log, and the front that has seen nothing of it.
pub fn open() -> (Log, Front)
    ensures book { result.1.book ≡ result.0 }
    ensures entries { result.1.entries ≡ [] }
    ensures appends { result.1.appends ≡ 0 }
{
    let (seen, mut first, _second) = Seen::open(Start::alone(), 0, 0);
    let head = Word::tracked(0, &mut first);
    (Log { head }, Front::over(seen))
}

/// A new log to which the entries were appended, and the front that has them all. There is none only where the log was found
/// longer than it was left, which nobody else can bring about.
pub fn open_with(list: &[Entry]) -> Option<(Log, Front)>
    ensures book { IfSome result (λ t. t.1.book ≡ t.0) }
    ensures entries { IfSome result (λ t. t.1.entries ≡ list.now) }
{
    let (log, mut front) = open();
    for e in list {
        let count = front.entries();
        if !front.add(&log, count, e) {
            return None;
        }
    }
    Some((log, front))
}

impl Log {
    ghost use Rattle.std.specs.Prelude.{◌≡◌, ◌+◌, ◌<◌, ◌++◌, ◌∷◌, ◌^◌, length};
    ghost use Rattle.std.specs.Bool.{OnTrue};

    /// Appends to all that was seen, and says whether it did. It did not where the log is longer.
    pub(crate) fn append(
        &self,
        appends: u64,
        seen: &mut Seen<Append, u64, LogRule>,
        append: Append,
    ) -> bool
        requires book { seen.old.book ≡ self.now }
        requires appends { appends ≡ length seen.old.log }
        requires room { appends + 1 < 2 ^ 64 }
        ensures book { seen.new.book ≡ seen.old.book }
        ensures log { OnTrue result (seen.new.log ≡ seen.old.log ++ append ∷ []) }
    {
        let mut offer: Offer<Append, u64, LogRule, Nothing> = seen.plain::<
            Nothing,
            Append,
            Appending,
        >(&append);
        let mut pen = seen.no_pen();
        let found = self
            .head
            .compare_exchange::<Appending, Nothing>(
                appends,
                appends + 1,
                seen,
                &mut offer,
                &mut pen,
            );
        found == appends
    }
}
