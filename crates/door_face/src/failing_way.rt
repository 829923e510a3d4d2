ghost use Rattle.std.specs.Prelude.{◌≡◌, ◌≤◌, ◌<◌, ◌^◌, ◌↔◌, None, Some, IfOk, IfSome, IsErr, length};
ghost use Rattle.door_face.specs.Doors.{link_record, IsFresh, more_by, links_given};
ghost use Rattle.link_face.specs.Faults.{HasCause};
ghost use Rattle.link_face.specs.FaultPlan.{FailsNext, plan_after};

use crate::mem_way::MemWay;
use crate::way::Way;
use link_face::{Failed, FaultPlan, Link};
use std::marker::Model;

/// A `MemWay` of which chosen accepts fail.
#[derive(Drop)]
pub struct FailingWay<'a, L: Link + Drop> {
    way: MemWay<L>,
    plan: FaultPlan<'a>,
    faults: u64,
}

impl<'a, L: Link + Drop> Model for FailingWay<'a, L> {
    ghost use Rattle.door_face.specs.FailingWay.{FailingWayState};

    ghost Value = { FailingWayState };

    ghost view = { λ w. record { way = w.way; plan = w.plan; faults = w.faults } };
}

impl<'a, L: Link + Drop> FailingWay<'a, L> {
    /// The accepts whose numbers are in `calls` fail. The first accept is number 0.
    pub fn new(way: MemWay<L>, calls: &'a [u64]) -> Self
        ensures way { result.way ≡ way }
        ensures calls { result.plan.calls ≡ calls.now }
        ensures next { result.plan.next ≡ 0 }
        ensures faults { result.faults ≡ 0 }
    {
        Self {
            way,
            plan: FaultPlan::new(calls),
            faults: 0,
        }
    }

    /// How many accepts failed.
    pub fn faults(&self) -> u64
        ensures { result ≡ self.now.faults }
    {
        self.faults
    }

    /// The way without its plan.
    pub fn into_way(self) -> MemWay<L>
        ensures { result ≡ self.entry.way }
    {
        self.way
    }
}

impl<L: Link + Drop + Send> Way for FailingWay<'_, L> {
    ghost use Rattle.std.specs.Prelude.{Some, length};

    type L = L;

    ghost door = { λ w. w.way.door };

    ghost port = { λ w. w.way.port };

    ghost links_left = { λ w. Some (length w.way.to_come) };

    ghost lent = { λ w. Some w.way.lent };

    ghost returned = { λ w. Some w.way.returned };

    ghost faults = { λ w. w.faults };

    fn accept(&mut self) -> Result<Option<L>, Failed>
        ensures fresh { IfOk result (λ next. IfSome next (λ link. IsFresh
            (link_record (L.taken link) (L.left link) (L.written link) (L.Source.faults link)))) }
        ensures links_left { Some (length self.old.way.to_come)
            ≡ more_by (links_given result) (Some (length self.new.way.to_come)) }
        ensures lent { Some self.new.way.lent ≡ more_by (links_given result) (Some self.old.way.lent) }
        ensures end { IfOk result (λ next. next ≡ None → length self.old.way.to_come ≡ 0) }
        ensures bounded { length self.old.way.to_come ≤ 2 ^ 32 }
        ensures returned { Some self.new.way.returned ≡ Some self.old.way.returned }
        ensures place { (self.new.way.door ≡ self.old.way.door) × (self.new.way.port ≡ self.old.way.port) }
        ensures cause { HasCause self.old.faults self.new.faults result }

        // It fails at the chosen accepts and at no other.
        ensures fails { IsErr result ↔ FailsNext self.old.plan }
        ensures plan { self.new.plan ≡ plan_after self.old.plan }
    {
        if self.plan.begin_call() {
            self.way.is_bounded();
            self.faults = self.faults.saturating_add(1);
            return Err(Failed);
        }
        self.way.accept()
    }

    fn done(&mut self, link: L) {
        self.way.done(link);
    }
}
