//! What every legal list of entries keeps: a register that is whole.
ghost use Rattle.std.specs.Prelude.{List};
ghost use Rattle.reg_entry.specs.declared.rooms.Rooms.{Rooms};
ghost use Rattle.reg_entry.specs.Entry.{PlainEntry};
ghost use Rattle.reg_entry.specs.Register.{Register, after_entry, register_after};
ghost use Rattle.reg_entry.specs.Next.{IsNextEntry, IsLegal};
ghost use Rattle.reg_entry.specs.Whole.{IsWholeRegister};

/// Each entry that may come next keeps the register whole: its pieces and cards, its holders, subs and reverse entries,
/// its days and its rooms.
pub fn next_entry_keeps_whole()
    ensures { (r : Register) (e : PlainEntry) → IsWholeRegister r → IsNextEntry r e → IsWholeRegister (after_entry r e) }
{}

/// Every legal list of entries gives a whole register.
pub fn legal_entries_are_whole()
    ensures { (rooms : Rooms) (es : List PlainEntry) → IsLegal rooms es → IsWholeRegister (register_after rooms es) }
{}
