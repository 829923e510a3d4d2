use crate::spawner::Spawner;

/// Works the duties one after another, all of them. A `FailingInTurn` lets some come back.
#[derive(Drop)]
pub struct InTurn;

// Its count of faults is 0 for good: no duty comes back.
impl Spawner for InTurn {
    ghost use Rattle.std.specs.Prelude.{false};

    ghost faults = { λ _. 0 };

    ghost can_refuse = { false };

    fn has_threads(&self) -> bool {
        false
    }

    fn refuses(&mut self) -> bool {
        false
    }

    fn count_back(&mut self) {}
}
