ghost use Rattle.std.specs.Prelude.{◌≡◌};

use crate::spawner::Spawner;

/// Works each duty in a thread of its own. A duty comes back where the system makes no thread.
#[derive(Drop)]
pub struct ThreadSpawner {
    faults: u64,
}

impl ThreadSpawner {
    /// A spawner whose count of faults is 0.
    pub fn new() -> Self
        ensures { result.faults ≡ 0 }
    {
        Self { faults: 0 }
    }

    /// In how many calls duties came back.
    pub fn faults(&self) -> u64
        ensures { result ≡ self.now.faults }
    {
        self.faults
    }
}

impl Spawner for ThreadSpawner {
    ghost use Rattle.std.specs.Prelude.{true};

    ghost faults = { λ s. s.faults };

    ghost can_refuse = { true };

    fn has_threads(&self) -> bool {
        true
    }

    fn refuses(&mut self) -> bool {
        false
    }

    fn count_back(&mut self) {
        self.faults = self.faults.saturating_add(1);
    }
}
