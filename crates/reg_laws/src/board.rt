//! The board: a register with the last operations of its change stream.
ghost use Rattle.std.specs.Prelude.{◌≡◌, List, length};
ghost use Rattle.reg_entry.specs.declared.rooms.Rooms.{Rooms};
ghost use Rattle.reg_entry.specs.Entry.{PlainEntry};
ghost use Rattle.reg_entry.specs.Register.{register_after};
ghost use Rattle.reg_entry.specs.Operations.{PlainBoard, operations_of, last_of, board_after_entry, board_after};
ghost use Rattle.reg_entry.specs.Next.{IsNextEntry, IsLegal};
ghost use Rattle.reg_entry.specs.Whole.{IsWhole};

/// Each entry that may come next keeps the board whole: its register, and the days and blocks of the operations that it
/// keeps, which are no more than its window.
pub fn next_entry_keeps_board_whole()
    ensures { (b : PlainBoard) (e : PlainEntry) → IsWhole b → IsNextEntry b.register e → IsWhole (board_after_entry b e) }
{}

/// Every legal list of entries gives a whole board.
pub fn legal_boards_are_whole()
    ensures { (rooms : Rooms) (es : List PlainEntry) → IsLegal rooms es → IsWhole (board_after rooms es) }
{}

/// The board of a list of entries has the register of the list and the serial of its last operation, and keeps as many of
/// the last operations as its window has room for.
pub fn boards_keep_last_operations()
    ensures register { (rooms : Rooms) (es : List PlainEntry) → (board_after rooms es).register ≡ register_after rooms es }
    ensures serial { (rooms : Rooms) (es : List PlainEntry) → (board_after rooms es).serial ≡ length (operations_of rooms es) }
    ensures kept { (rooms : Rooms) (es : List PlainEntry)
        → (board_after rooms es).kept ≡ last_of rooms.window (operations_of rooms es) }
{}
