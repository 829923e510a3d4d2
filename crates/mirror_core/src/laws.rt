//! What is true of every feed, proved as contracts of functions that do nothing.
ghost use Rattle.std.specs.Prelude.{◌≡◌, ◌++◌, ℕ, List, Some};
ghost use Rattle.mirror_core.specs.declared.fault.FeedFault.{FeedFault as TheFault};
ghost use Rattle.mirror_core.specs.Mirror.{PlainMirror};
ghost use Rattle.mirror_core.specs.Feed.{fed};

/// However the bytes are cut into pieces, feeding the pieces is feeding all of them.
pub fn pieces_are_fed_alike()
    ensures { (m : PlainMirror) (bytes more : List ℕ) → fed (fed m bytes) more ≡ fed m (bytes ++ more) }
{}

/// After a fault nothing that a mirror has of the register changes, and the fault stays.
pub fn faults_stay()
    ensures { (m : PlainMirror) (f : TheFault) (bytes : List ℕ) → m.fault ≡ Some f
        → ((fed m bytes).objects ≡ m.objects) × ((fed m bytes).serial ≡ m.serial) × ((fed m bytes).fault ≡ m.fault) }
{}
