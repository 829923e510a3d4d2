ghost use Rattle.std.specs.Prelude.{◌≡◌, ◌↔◌, true, false, IsTrue};
ghost use Rattle.link_face.specs.FaultPlan.{FailsNext, plan_after};

use crate::spawner::Spawner;
use link_face::FaultPlan;
use std::marker::Model;

/// Works the duties one after another, but for chosen ones, which come back.
#[derive(Drop)]
pub struct FailingInTurn<'a> {
    plan: FaultPlan<'a>,
    faults: u64,
}

impl<'a> Model for FailingInTurn<'a> {
    ghost use Rattle.door_face.specs.FailingInTurn.{FailingInTurnState};

    ghost Value = { FailingInTurnState };

    ghost view = { λ s. record { plan = s.plan; faults = s.faults } };
}

impl<'a> FailingInTurn<'a> {
    /// The duties whose numbers are in `duties` come back. The first duty is number 0.
    pub fn new(duties: &'a [u64]) -> Self
        ensures calls { result.plan.calls ≡ duties.now }
        ensures next { result.plan.next ≡ 0 }
        ensures faults { result.faults ≡ 0 }
    {
        Self {
            plan: FaultPlan::new(duties),
            faults: 0,
        }
    }

    /// In how many calls duties came back.
    pub fn faults(&self) -> u64
        ensures { result ≡ self.now.faults }
    {
        self.faults
    }
}

impl Spawner for FailingInTurn<'_> {
    ghost use Rattle.std.specs.Prelude.{true};

    ghost faults = { λ s. s.faults };

    ghost can_refuse = { true };

    fn has_threads(&self) -> bool
        ensures { result ≡ false }
    {
        false
    }

    // The chosen duties come back, and no others.
    fn refuses(&mut self) -> bool
        ensures chosen { IsTrue result ↔ FailsNext self.old.plan }
        ensures plan { self.new.plan ≡ plan_after self.old.plan }
        ensures faults { self.new.faults ≡ self.old.faults }
    {
        self.plan.begin_call()
    }

    fn count_back(&mut self) {
        self.faults = self.faults.saturating_add(1);
    }
}
