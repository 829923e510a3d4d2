ghost use Rattle.std.specs.Prelude.{◌≡◌, ◌⊎◌, ◌++◌, take, Some, IsErr, OnOk, OnErr};
ghost use Rattle.std.specs.Io.KnownBytes.{Appends};
ghost use Rattle.link_face.specs.Bytes.{AppendsPrefix};
ghost use Rattle.link_face.specs.Faults.{HasCause, HasRisen};
ghost use Rattle.link_face.specs.FaultPlan.{FailsNext, plan_after};

use crate::failed::Failed;
use crate::fault_plan::FaultPlan;
use crate::mem_sink::MemSink;
use crate::sink::Sink;
use std::marker::Model;

/// A `MemSink` of which chosen writes fail.
#[derive(Drop)]
pub struct FailingSink<'a> {
    sink: MemSink,
    plan: FaultPlan<'a>,
    passes: usize,
    faults: u64,
}

impl<'a> Model for FailingSink<'a> {
    ghost use Rattle.link_face.specs.FailingSink.{FailingSinkState};

    ghost Value = { FailingSinkState };

    ghost view = { λ s. record { sink = s.sink; plan = s.plan; passes = s.passes; faults = s.faults } };
}

impl<'a> FailingSink<'a> {
    /// The writes whose numbers are in `calls` fail, after their first `passes` bytes, or all if
    /// they have no more. The first write is number 0.
    pub fn new(sink: MemSink, calls: &'a [u64], passes: usize) -> Self
        ensures sink { result.sink ≡ sink }
        ensures calls { result.plan.calls ≡ calls.now }
        ensures next { result.plan.next ≡ 0 }
        ensures passes { result.passes ≡ passes }
        ensures faults { result.faults ≡ 0 }
    {
        Self {
            sink,
            plan: FaultPlan::new(calls),
            passes,
            faults: 0,
        }
    }

    /// What was written.
    pub fn bytes(&self) -> &[u8]
        ensures { result.now ≡ self.now.sink.written }
    {
        self.sink.bytes()
    }

    /// How many writes failed.
    pub fn faults(&self) -> u64
        ensures { result ≡ self.now.faults }
    {
        self.faults
    }
}

impl Sink for FailingSink<'_> {
    ghost use Rattle.std.specs.Prelude.{Some};

    ghost written = { λ s. Some s.sink.written };

    ghost faults = { λ s. s.faults };

    fn write(&mut self, bytes: &[u8]) -> Result<(), Failed>
        ensures ok { OnOk result (Appends (Some self.old.sink.written) (Some self.new.sink.written) bytes.now) }
        ensures err { OnErr result
            (AppendsPrefix (Some self.old.sink.written) (Some self.new.sink.written) bytes.now) }
        ensures cause { HasCause self.old.faults self.new.faults result }

        // It fails at the chosen writes, and else only where memory is refused.
        ensures fails { FailsNext self.old.plan → IsErr result }
        ensures prefix { FailsNext self.old.plan →
            (self.new.sink.written ≡ self.old.sink.written ++ take self.old.passes bytes.now)
            ⊎ HasRisen self.old.sink.faults self.new.sink.faults }
        ensures refused { OnErr result
            (FailsNext self.old.plan ⊎ HasRisen self.old.sink.faults self.new.sink.faults) }
        ensures plan { self.new.plan ≡ plan_after self.old.plan }
        ensures passes { self.new.passes ≡ self.old.passes }
    {
        let fails = self.plan.begin_call();
        let passed = if fails {
            bytes.len().min(self.passes)
        } else {
            bytes.len()
        };
        let written = self.sink.write(&bytes[..passed]);
        if !fails && written == Ok(()) {
            return Ok(());
        }
        self.faults = self.faults.saturating_add(1);
        Err(Failed)
    }
}
