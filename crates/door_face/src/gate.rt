ghost use Rattle.std.specs.Prelude.{◌≡◌, ◌≢◌, ◌≤◌, ◌<◌, ◌∷◌, [], ℕ, List, Option, Some, IfSome, IfOk, ◌+◌};
ghost use Rattle.door_face.specs.Doors.{WayRecord, way_record, more_by, with_last, ways_given};
ghost use Rattle.link_face.specs.Faults.{HasCause, HasRisen};

use crate::door::Door;
use crate::way::Way;
use link_face::{Failed, Link};

/// Where ways come from, and where they go back.
pub trait Gate {
    // Ways, and the links that they give, move to the threads of workers.
    type L: Link + Drop + Send;

    type W: Way<L = Self::L> + Send;

    ghost use Rattle.door_face.specs.declared.door.Door.{Door};

    // how many ways were given at each door
    ghost given: { Self → Door → ℕ };

    // how many links the ways that it will give at a door have left, way by way, where it tells that
    ghost to_come: { Self → Door → Option (List ℕ) };

    // how many ways were given and aren't back yet, where it tells that
    ghost lent: { Self → Option ℕ };

    // the ways that were taken back, in order, where it tells them
    ghost returned: { Self → Option (List WayRecord) };

    // how often it has failed, or took a way back that had
    ghost faults: { Self → ℕ };

    /// Gives a way for the door and the port.
    fn way(&mut self, door: Door, port: u16) -> Result<Self::W, Failed>
        // It is a way that has given and taken nothing, and has not failed.
        ensures place { IfOk result (λ way. (Self.W.door way ≡ door) × (Self.W.port way ≡ port)) }
        ensures fresh { IfOk result (λ way. IfSome (Self.W.lent way) (λ n. n ≡ 0)
            × IfSome (Self.W.returned way) (λ links. links ≡ []) × (Self.W.faults way ≡ 0)) }
        ensures to_come { IfOk result (λ way. IfSome (to_come self.old door) (λ ways. (n : ℕ) × (rest : List ℕ)
            × (ways ≡ n ∷ rest) × (Self.W.links_left way ≡ Some n) × (to_come self.new door ≡ Some rest))) }
        ensures given { given self.new door ≡ given self.old door + ways_given result }
        ensures lent { lent self.new ≡ more_by (ways_given result) (lent self.old) }
        ensures other { (other : Door) → other ≢ door
            → (to_come self.new other ≡ to_come self.old other) × (given self.new other ≡ given self.old other) }
        ensures returned { returned self.new ≡ returned self.old }
        ensures cause { HasCause (faults self.old) (faults self.new) result };

    /// Takes a way back. It takes no memory.
    fn done(&mut self, way: Self::W)
        requires { IfSome (lent self.old) (λ n. 0 < n) }
        ensures returned { returned self.new ≡ with_last (returned self.old)
            (way_record (Self.W.door way) (Self.W.port way) (Self.W.returned way)) }
        ensures lent { lent self.old ≡ more_by 1 (lent self.new) }
        ensures given { (door : Door) → given self.new door ≡ given self.old door }
        ensures to_come { (door : Door) → to_come self.new door ≡ to_come self.old door }

        // The count rises exactly where the way has failed.
        ensures kept { faults self.old ≤ faults self.new }
        ensures risen { 0 < Self.W.faults way → HasRisen (faults self.old) (faults self.new) }
        ensures same { Self.W.faults way ≡ 0 → faults self.new ≡ faults self.old };
}
