//! What every course keeps, proved as the contract of a function that does nothing.
ghost use Rattle.std.specs.Prelude.{ℕ, List};
ghost use Rattle.reg_entry.specs.declared.rooms.Rooms.{Rooms};
ghost use Rattle.reg_entry.specs.Policy.{PlainPolicy, IsPolicy};
ghost use Rattle.course_core.specs.declared.event.Event.{Event};
ghost use Rattle.course_core.specs.Course.{new_course, after_events, published_entries, seen_by, lookups_of};
ghost use Rattle.course_core.specs.Promises.{AreEvents, KeepsPromises, NothingFalls, AreRisingPrefixes};

/// Whatever happens to a register and its readers, and in whatever order: at every moment the journal is legal, each pass
/// has seen only what is published, and each mirror was fed only that; after each entry the register is whole, no number is
/// lost or held twice, and the operations so far give its objects. From each moment to every later one no entry goes and no
/// count falls, and what one pass looked up are prefixes of the published entries, each at least as long as the one before.
pub fn courses_keep_their_promises()
    ensures promises { (rooms : Rooms) (policy : PlainPolicy) (passes mirrors : ℕ) (events : List Event) → IsPolicy policy
        → AreEvents events → KeepsPromises (after_events (new_course rooms policy passes mirrors) events) }
    ensures nothing_falls { (rooms : Rooms) (policy : PlainPolicy) (passes mirrors : ℕ) (events more : List Event) → IsPolicy policy
        → AreEvents events → AreEvents more
        → NothingFalls (after_events (new_course rooms policy passes mirrors) events)
        (after_events (after_events (new_course rooms policy passes mirrors) events) more) }
    ensures lookups { (rooms : Rooms) (policy : PlainPolicy) (passes mirrors : ℕ) (events more : List Event) (pass : ℕ) → IsPolicy policy
        → AreEvents events → AreEvents more
        → AreRisingPrefixes (seen_by (after_events (new_course rooms policy passes mirrors) events) pass)
        (lookups_of pass (after_events (new_course rooms policy passes mirrors) events) more)
        (published_entries (after_events (after_events (new_course rooms policy passes mirrors) events) more)) }
{}
