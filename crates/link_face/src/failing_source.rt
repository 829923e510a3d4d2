ghost use Rattle.std.specs.Prelude.{◌≡◌, ◌<◌, ◌^◌, ◌+◌, ◌↔◌, [], Some, IfOk, IsErr, length};
ghost use Rattle.std.specs.Io.{ReadsAtMost};
ghost use Rattle.std.specs.Io.KnownBytes.{ReadConsumes};
ghost use Rattle.link_face.specs.Bytes.{ReadAppends, Spends};
ghost use Rattle.link_face.specs.Faults.{HasCause};
ghost use Rattle.link_face.specs.FaultPlan.{FailsNext, plan_after};

use crate::failed::Failed;
use crate::fault_plan::FaultPlan;
use crate::mem_source::MemSource;
use crate::source::Source;
use std::marker::Model;

/// A `MemSource` of which chosen reads fail.
#[derive(Drop)]
pub struct FailingSource<'a> {
    source: MemSource<'a>,
    plan: FaultPlan<'a>,
    faults: u64,
}

impl<'a> Model for FailingSource<'a> {
    ghost use Rattle.link_face.specs.FailingSource.{FailingSourceState};

    ghost Value = { FailingSourceState };

    ghost view = { λ s. record { source = s.source; plan = s.plan; faults = s.faults } };
}

impl<'a> FailingSource<'a> {
    /// The reads whose numbers are in `calls` fail. The first read is number 0.
    pub fn new(source: MemSource<'a>, calls: &'a [u64]) -> Self
        ensures source { result.source ≡ source.entry }
        ensures calls { result.plan.calls ≡ calls.now }
        ensures next { result.plan.next ≡ 0 }
        ensures faults { result.faults ≡ 0 }
    {
        Self {
            source,
            plan: FaultPlan::new(calls),
            faults: 0,
        }
    }

    /// What is left to be read.
    pub fn left(&self) -> &[u8]
        ensures { result.now ≡ self.now.source.left }
    {
        self.source.left()
    }

    /// How many reads failed.
    pub fn faults(&self) -> u64
        ensures { result ≡ self.now.faults }
    {
        self.faults
    }
}

impl Source for FailingSource<'_> {
    ghost use Rattle.std.specs.Prelude.{◌≡◌, ◌+◌, [], Some, length};

    ghost taken = { λ s. Some s.source.taken };

    ghost left = { λ s. Some s.source.left };

    ghost budget = { λ s. length s.source.left + 1 };

    ghost has_ended = { λ s. s.source.left ≡ [] };

    ghost faults = { λ s. s.faults };

    ghost nothing_left = { λ s ended. ended };

    fn read(&mut self, buf: &mut [u8]) -> Result<usize, Failed>
        requires { 0 < length buf.old }
        ensures count { ReadsAtMost result buf.new }
        ensures left { ReadConsumes (Some self.old.source.left) (Some self.new.source.left) result buf.new }
        ensures taken { ReadAppends (Some self.old.source.taken) (Some self.new.source.taken) result buf.new }
        ensures budget { Spends (length self.old.source.left + 1) (length self.new.source.left + 1) result }
        ensures bounded { length self.old.source.left + 1 < 2 ^ 64 }
        ensures end { IfOk result (λ n. n ≡ 0 → self.new.source.left ≡ []) }
        ensures for_good { self.old.source.left ≡ [] →
            (self.new.source.left ≡ []) × IfOk result (λ n. n ≡ 0) }
        ensures cause { HasCause self.old.faults self.new.faults result }

        // It fails at the chosen reads and at no other.
        ensures fails { IsErr result ↔ FailsNext self.old.plan }
        ensures plan { self.new.plan ≡ plan_after self.old.plan }
    {
        if self.plan.begin_call() {
            self.source.is_bounded();
            self.faults = self.faults.saturating_add(1);
            return Err(Failed);
        }
        self.source.read(buf)
    }
}
