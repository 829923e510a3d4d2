//! What holds of every load, each proved as the contract of a function that does nothing.
ghost use Rattle.std.specs.Prelude.{ℕ, List};
ghost use Rattle.reg_entry.specs.declared.rooms.Rooms.{Rooms};
ghost use Rattle.reg_entry.specs.Policy.{PlainPolicy, IsPolicy};
ghost use Rattle.reg_laws.specs.Reached.{IsReached};
ghost use Rattle.load_gen.specs.Load.{loaded};
ghost use Rattle.load_run.specs.Conserved.{IsConservedLoad};

use reg_laws::next::accepted_may_come_next;
use reg_laws::reached::{
    entries_reach_registers, reached_registers_are_whole, reached_registers_conserve,
    reached_registers_count,
};

/// Under each policy the register of a load is that of a legal list of entries.
pub fn loads_are_legal()
    ensures { (rooms : Rooms) (p : PlainPolicy) (who : List ℕ) (seed count : ℕ) → IsPolicy p
        → IsReached (loaded rooms p who seed count).register }
{
    entries_reach_registers();
    reached_registers_are_whole();
    accepted_may_come_next();
}

/// It loses none of their numbers and holds none twice.
pub fn loads_conserve()
    ensures { (rooms : Rooms) (p : PlainPolicy) (who : List ℕ) (seed count : ℕ) → IsPolicy p
        → IsConservedLoad rooms p who seed count }
{
    loads_are_legal();
    reached_registers_conserve();
    reached_registers_count();
}
