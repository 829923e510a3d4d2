ghost use Rattle.std.specs.Prelude.{◌≡◌, ◌≤◌, ◌<◌, ◌^◌, ℕ, List, Option, None, IfSome, IfOk};
ghost use Rattle.door_face.specs.Doors.{LinkRecord, link_record, IsFresh, more_by, with_last, links_given};
ghost use Rattle.link_face.specs.Faults.{HasCause};

use link_face::{Failed, Link};

/// The links that one worker serves, one after another.
pub trait Way: Drop {
    type L: Link + Drop;

    ghost use Rattle.door_face.specs.declared.door.Door.{Door};

    // the door and the port that it was given for
    ghost door: { Self → Door };

    ghost port: { Self → ℕ };

    // how many links it has left to give, where it tells that
    ghost links_left: { Self → Option ℕ };

    // how many links were given and aren't back yet, where it tells that
    ghost lent: { Self → Option ℕ };

    // the links that were taken back, in order, where it tells them
    ghost returned: { Self → Option (List LinkRecord) };

    // how often it has failed
    ghost faults: { Self → ℕ };

    /// Gives the next link. `Ok(None)` is the end: there are no more.
    fn accept(&mut self) -> Result<Option<Self::L>, Failed>
        // It is a link on which nothing has passed yet.
        ensures fresh { IfOk result (λ next. IfSome next (λ link. IsFresh
            (link_record (Self.L.taken link) (Self.L.left link) (Self.L.written link) (Self.L.Source.faults link)))) }
        ensures links_left { links_left self.old ≡ more_by (links_given result) (links_left self.new) }
        ensures lent { lent self.new ≡ more_by (links_given result) (lent self.old) }
        ensures end { IfOk result (λ next. next ≡ None → IfSome (links_left self.old) (λ n. n ≡ 0)) }
        ensures bounded { IfSome (links_left self.old) (λ n. n ≤ 2 ^ 32) }
        ensures returned { returned self.new ≡ returned self.old }
        ensures place { (door self.new ≡ door self.old) × (port self.new ≡ port self.old) }
        ensures cause { HasCause (faults self.old) (faults self.new) result };

    /// Takes a link back. It takes no memory.
    fn done(&mut self, link: Self::L)
        requires { IfSome (lent self.old) (λ n. 0 < n) }
        ensures returned { returned self.new ≡ with_last (returned self.old)
            (link_record (Self.L.taken link) (Self.L.left link) (Self.L.written link) (Self.L.Source.faults link)) }
        ensures lent { lent self.old ≡ more_by 1 (lent self.new) }
        ensures links_left { links_left self.new ≡ links_left self.old }
        ensures place { (door self.new ≡ door self.old) × (port self.new ≡ port self.old) }
        ensures faults { faults self.new ≡ faults self.old };
}
