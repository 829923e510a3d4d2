//! The change stream leads from the objects of one register to those of the next.
ghost use Rattle.std.specs.Prelude.{◌≡◌, List};
ghost use Rattle.reg_entry.specs.declared.object.Key.{Key};
ghost use Rattle.reg_entry.specs.declared.object.Object.{Object};
ghost use Rattle.reg_entry.specs.declared.rooms.Rooms.{Rooms};
ghost use Rattle.reg_entry.specs.Entry.{PlainEntry};
ghost use Rattle.reg_entry.specs.Register.{Register, after_entry, register_after};
ghost use Rattle.reg_entry.specs.Next.{IsNextEntry, IsLegal};
ghost use Rattle.reg_entry.specs.Objects.{HaveDistinctKeys, object_at, objects_of, played, changes_between};
ghost use Rattle.reg_entry.specs.Operations.{changes_of, operations_of, objects_after};
ghost use Rattle.reg_entry.specs.Whole.{IsWholeRegister};
ghost use Rattle.reg_laws.specs.Rising.{RisesByKey};

/// The changes between two maps of objects, played on the first, give each key what the second has.
pub fn changes_lead_to_objects()
    ensures { (before after : List Object) (k : Key) → HaveDistinctKeys after
        → object_at (played before (changes_between before after)) k ≡ object_at after k }
{}

/// No two objects of a whole register have one key.
pub fn whole_registers_have_distinct_keys()
    ensures { (r : Register) → IsWholeRegister r → HaveDistinctKeys (objects_of r) }
{}

/// The objects of a whole register rise by key.
pub fn whole_registers_rise_by_key()
    ensures { (r : Register) → IsWholeRegister r → RisesByKey (objects_of r) }
{}

/// What an entry changes, played on the objects of the register before it, gives the objects of the register after it: to
/// each key what it has there, and all in their order.
pub fn next_changes_lead_to_objects()
    ensures keys { (r : Register) (e : PlainEntry) (k : Key) → IsWholeRegister r → IsNextEntry r e
        → object_at (played (objects_of r) (changes_of r e)) k ≡ object_at (objects_of (after_entry r e)) k }
    ensures list { (r : Register) (e : PlainEntry) → IsWholeRegister r → IsNextEntry r e
        → played (objects_of r) (changes_of r e) ≡ objects_of (after_entry r e) }
{}

/// The operations of a legal list of entries, played on no objects, give the objects of the list's register: to each key
/// what it has there, and all in their order.
pub fn operations_lead_to_objects()
    ensures keys { (rooms : Rooms) (es : List PlainEntry) (k : Key) → IsLegal rooms es
        → object_at (objects_after (operations_of rooms es)) k ≡ object_at (objects_of (register_after rooms es)) k }
    ensures list { (rooms : Rooms) (es : List PlainEntry) → IsLegal rooms es
        → objects_after (operations_of rooms es) ≡ objects_of (register_after rooms es) }
{}
