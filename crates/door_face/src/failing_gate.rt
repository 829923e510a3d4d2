ghost use Rattle.std.specs.Prelude.{◌≡◌, ◌≢◌, ◌≤◌, ◌<◌, ◌+◌, ◌∷◌, ◌⊎◌, [], ℕ, List, Some, IfOk, IsErr, OnErr, length};
ghost use Rattle.door_face.specs.declared.door.Door.{Door};
ghost use Rattle.door_face.specs.Doors.{more_by, ways_given};
ghost use Rattle.link_face.specs.Faults.{HasCause};
ghost use Rattle.link_face.specs.FaultPlan.{FailsNext, plan_after};
ghost use Rattle.door_face.specs.MemGate.{the_door, links_of, records_of};

use crate::door::Door;
use crate::failing_way::FailingWay;
use crate::gate::Gate;
use crate::mem_gate::MemGate;
use crate::mem_way::MemWay;
use link_face::{Failed, FaultPlan, Link};
use std::marker::Model;

/// A `MemGate` of which chosen calls of `way` fail, and chosen accepts of each way that it gives.
#[derive(Drop)]
pub struct FailingGate<'a, L: Link + Drop> {
    gate: MemGate<L>,
    plan: FaultPlan<'a>,
    accepts: &'a [u64],
    faults: u64,
}

impl<'a, L: Link + Drop> Model for FailingGate<'a, L> {
    ghost use Rattle.door_face.specs.FailingGate.{FailingGateState};

    ghost Value = { FailingGateState };

    ghost view = { λ g. record { gate = g.gate; plan = g.plan; accepts = g.accepts.now; faults = g.faults } };
}

impl<'a, L: Link + Drop> FailingGate<'a, L> {
    /// The calls of `way` whose numbers are in `calls` fail, and of each way that it gives the accepts
    /// whose numbers are in `accepts`. The first of each is number 0.
    pub fn new(gate: MemGate<L>, calls: &'a [u64], accepts: &'a [u64]) -> Self
        ensures gate { result.gate ≡ gate }
        ensures calls { result.plan.calls ≡ calls.now }
        ensures next { result.plan.next ≡ 0 }
        ensures accepts { result.accepts ≡ accepts.now }
        ensures faults { result.faults ≡ 0 }
    {
        Self {
            gate,
            plan: FaultPlan::new(calls),
            accepts,
            faults: 0,
        }
    }

    /// The ways that were taken back, in order.
    pub fn returned(&self) -> &[MemWay<L>]
        ensures { result.now ≡ self.now.gate.returned }
    {
        self.gate.returned()
    }

    /// How many calls failed, and how many ways came back that had.
    pub fn faults(&self) -> u64
        ensures { result ≡ self.now.faults }
    {
        self.faults
    }
}

impl<'a, L: Link + Drop + Send> Gate for FailingGate<'a, L> {
    ghost use Rattle.std.specs.Prelude.{Some};
    ghost use Rattle.door_face.specs.MemGate.{the_door, links_of, records_of};

    type L = L;

    type W = FailingWay<'a, L>;

    ghost given = { λ g door. (the_door g.gate door).given };

    ghost to_come = { λ g door. Some (links_of (the_door g.gate door).to_come) };

    ghost lent = { λ g. Some g.gate.lent };

    ghost returned = { λ g. Some (records_of g.gate.returned) };

    ghost faults = { λ g. g.faults };

    fn way(&mut self, door: Door, port: u16) -> Result<FailingWay<'a, L>, Failed>
        ensures place { IfOk result (λ way. (way.way.door ≡ door) × (way.way.port ≡ port)) }
        ensures fresh { IfOk result (λ way. (way.way.lent ≡ 0) × (way.way.returned ≡ []) × (way.faults ≡ 0)) }
        ensures to_come { IfOk result (λ way. (n : ℕ) × (rest : List ℕ)
            × (links_of (the_door self.old.gate door).to_come ≡ n ∷ rest) × (Some (length way.way.to_come) ≡ Some n)
            × (Some (links_of (the_door self.new.gate door).to_come) ≡ Some rest)) }
        ensures given { (the_door self.new.gate door).given ≡ (the_door self.old.gate door).given + ways_given result }
        ensures lent { Some self.new.gate.lent ≡ more_by (ways_given result) (Some self.old.gate.lent) }
        ensures other { (other : Door) → other ≢ door
            → (Some (links_of (the_door self.new.gate other).to_come) ≡ Some (links_of (the_door self.old.gate other).to_come))
            × ((the_door self.new.gate other).given ≡ (the_door self.old.gate other).given) }
        ensures returned { Some (records_of self.new.gate.returned) ≡ Some (records_of self.old.gate.returned) }
        ensures cause { HasCause self.old.faults self.new.faults result }

        // It fails at the chosen calls, and else only where no way is left at the door.
        ensures fails { FailsNext self.old.plan → IsErr result }
        ensures refused { OnErr result (FailsNext self.old.plan ⊎ ((the_door self.old.gate door).to_come ≡ [])) }
        ensures plan { self.new.plan ≡ plan_after self.old.plan }
        ensures accepts { IfOk result (λ way. (way.plan.calls ≡ self.old.accepts) × (way.plan.next ≡ 0)) }
        ensures kept { self.new.accepts ≡ self.old.accepts }
    {
        if !self.plan.begin_call()
            && let Ok(way) = self.gate.way(door, port)
        {
            return Ok(FailingWay::new(way, self.accepts));
        }
        self.faults = self.faults.saturating_add(1);
        Err(Failed)
    }

    fn done(&mut self, way: FailingWay<'a, L>) {
        if way.faults() > 0 {
            self.faults = self.faults.saturating_add(1);
        }
        self.gate.done(way.into_way());
    }
}
