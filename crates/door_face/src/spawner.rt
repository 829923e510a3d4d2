ghost use Rattle.std.specs.Prelude.{◌≡◌, ◌≤◌, ℕ, Bool, true, false, IfOk, OnErr};
ghost use Rattle.std.specs.List.{AllZip, list_any};
ghost use Rattle.door_face.specs.Duties.{EndsAs, is_back};
ghost use Rattle.link_face.specs.Faults.{HasRisen};

use crate::duty::Duty;
use crate::outcome::{Outcome, any_back};
use crate::working::work;
use std::alloc::{AllocError, Global};
use std::sync::Wait;
use std::thread::Threads;

/// What works duties side by side.
///
/// A spawner says how duties are worked, and which come back; `side_by_side` works them.
pub trait Spawner {
    // in how many calls duties came back
    ghost faults: { Self → ℕ };

    // whether a duty may come back
    ghost can_refuse: { Bool };

    /// Whether each duty has a thread of its own. Else they are worked one after another. A duty for
    /// which the system makes no thread comes back.
    fn has_threads(&self) -> bool
        ensures { result ≡ true → can_refuse ≡ true };

    /// Whether the next of the duties that are worked one after another comes back.
    fn refuses(&mut self) -> bool
        ensures may { result ≡ true → can_refuse ≡ true }
        ensures faults { faults self.new ≡ faults self.old };

    /// Counts a call in which duties came back.
    fn count_back(&mut self)
        ensures kept { faults self.old ≤ faults self.new }
        ensures risen { can_refuse ≡ true → HasRisen (faults self.old) (faults self.new) };

    /// Works the duties, and tells what became of each, in their order. It returns when all have ended.
    /// A duty that comes back was never begun, and is dropped.
    final fn side_by_side<R: Threads + Wait + Sync, W: Duty>(
        &mut self,
        rt: &R,
        alloc: Global,
        duties: Vec<W>,
    ) -> Result<Vec<Outcome<W::Done>>, AllocError>
    where
        Self: Sized,
        ensures ends { IfOk result (λ outcomes. AllZip (EndsAs W.done) duties.items outcomes.items) }

        // The count rises exactly where a duty came back.
        ensures back { IfOk result (λ outcomes. list_any is_back outcomes.items ≡ true
            → HasRisen (faults self.old) (faults self.new)) }
        ensures same { IfOk result (λ outcomes. list_any is_back outcomes.items ≡ false
            → faults self.new ≡ faults self.old) }
        ensures kept { faults self.old ≤ faults self.new }

        // Where memory is refused no duty was begun.
        ensures refused { OnErr result (faults self.new ≡ faults self.old) }
    {
        let outcomes = work(self, rt, alloc, duties)?;
        if any_back(&outcomes) {
            self.count_back();
        }
        Ok(outcomes)
    }
}
