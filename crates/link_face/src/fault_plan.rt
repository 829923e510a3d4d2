ghost use Rattle.std.specs.Prelude.{◌≡◌, ◌↔◌, IsTrue};
ghost use Rattle.link_face.specs.FaultPlan.{FailsNext, plan_after};

use std::marker::Model;

// Which calls of a test object fail, by their numbers from 0.
#[derive(Drop)]
pub struct FaultPlan<'a> {
    calls: &'a [u64],
    next: u64,
}

impl<'a> Model for FaultPlan<'a> {
    ghost use Rattle.link_face.specs.FaultPlan.{PlanState};

    ghost Value = { PlanState };

    ghost view = { λ p. record { calls = p.calls.now; next = p.next } };
}

impl<'a> FaultPlan<'a> {
    pub fn new(calls: &'a [u64]) -> Self
        ensures calls { result.calls ≡ calls.now }
        ensures next { result.next ≡ 0 }
    {
        Self { calls, next: 0 }
    }

    // Whether the call that begins now fails.
    pub fn begin_call(&mut self) -> bool
        ensures fails { IsTrue result ↔ FailsNext self.old }
        ensures after { self.new ≡ plan_after self.old }
    {
        let fails = self.calls.contains(&self.next);
        self.next = self.next.saturating_add(1);
        fails
    }
}
