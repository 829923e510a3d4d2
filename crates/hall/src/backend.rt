//! What stands behind a connection.
ghost use Rattle.std.specs.Prelude.{◌≡◌, ◌++◌, ℕ, List, IfOk};
ghost use Rattle.reg_entry.specs.declared.rooms.Rooms.{Rooms as TheRooms};
ghost use Rattle.reg_entry.specs.Entry.{PlainEntry};
ghost use Rattle.desk_text.specs.ReplyText.{ReplyHasDate};
ghost use Rattle.reg_entry.specs.Operations.{PlainBoard};
ghost use Rattle.hall.specs.Standing.{Standing};
ghost use Rattle.hall.specs.Backend.{LooksAt, Submits};
ghost use Rattle.hall.specs.declared.backend.Fault.{Fault as TheFault};

use board::{Answer, Lens};
use policy_table::Policy;
use reg_entry::{Name, Reply, Request};
use std::alloc::Global;

/// Why a look or a submit has no answer.
#[derive(Clone, Copy, Debug, PartialEq, Eq)]
pub enum Fault {
    NoMemory,
    /// No snapshot of the register can be read.
    Shut,
    DiskFailed,
}

/// The register behind a connection, which is looked at and to which requests are submitted. Others may look at it and
/// submit to it too; then it has gone on between two calls, and never back.
pub trait Backend {
    // how much the register may keep
    ghost rooms: { Self → TheRooms };

    // how far the register has come, as far as it has been seen here
    ghost stands: { Self → Standing → Type 0 };

    // the entries that others may have brought it to between two calls
    ghost goes_on: { List PlainEntry → List PlainEntry → Type 0 };

    // no entry is lost
    ghost keeps_entries: { (es fs : List PlainEntry) → goes_on es fs → (more : List PlainEntry) × (fs ≡ es ++ more) };

    // the faults that a submit may have
    ghost may_fail: { TheFault → Type 0 };

    // by which reference it holds what isn't its own, where it does
    ghost reference: { Self → ℕ } = { λ _. 0 };

    /// Asks a question of the register. It takes memory for the answer alone.
    fn look<L: Lens>(&mut self, alloc: Global, lens: &L) -> Result<Answer, Fault>
        ensures looked { (before : Standing) → stands self.old before → (after : Standing) × stands self.new after
            × goes_on before.entries after.entries
            × LooksAt (rooms self.old) (L.answers lens.now) before result after }
        ensures told { IfOk result (λ answer. (board : PlainBoard) × L.answers lens.now board answer) }
        ensures rooms { rooms self.new ≡ rooms self.old }
        ensures reference { reference self.new ≡ reference self.old };

    /// Decides a request, takes in the entry that it becomes, and says how many entries there are then.
    fn submit(
        &mut self,
        policy: &Policy,
        day: u32,
        who: &Name,
        request: &Request,
    ) -> Result<(Reply, u64), Fault>
        ensures submitted { (before : Standing) → stands self.old before → (after : Standing) × stands self.new after
            × Submits (rooms self.old) goes_on may_fail policy.now day who.now request.now before result after }
        ensures date { IfOk result (λ answer. ReplyHasDate answer.0) }
        ensures rooms { rooms self.new ≡ rooms self.old }
        ensures reference { reference self.new ≡ reference self.old };
}
