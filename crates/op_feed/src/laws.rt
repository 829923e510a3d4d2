//! Laws over the operations of entries, each proved as the contract of a function that does nothing.
ghost use Rattle.std.specs.Prelude.{◌≡◌, ◌^◌, ◌*◌, ◌≤◌, List, [], ◌∷◌, ◌++◌, length};
ghost use Rattle.reg_entry.specs.declared.object.Object.{Object};
ghost use Rattle.reg_entry.specs.declared.piece.Piece.{Piece};
ghost use Rattle.reg_entry.specs.Entry.{PlainEntry};
ghost use Rattle.reg_entry.specs.Objects.{HaveDistinctKeys, changes_between};
ghost use Rattle.reg_entry.specs.declared.rooms.Rooms.{Rooms};
ghost use Rattle.reg_entry.specs.Operations.{PlainBoard, changes_of, operations_of, empty_board, board_after_entry};
ghost use Rattle.reg_entry.specs.Rooms.{AreRooms};
ghost use Rattle.reg_entry.specs.Register.{Register, after_entry};
ghost use Rattle.reg_entry.specs.Next.{IsNextEntry, IsLegal};
ghost use Rattle.reg_entry.specs.Whole.{IsWhole, IsWholeRegister};
ghost use Rattle.reg_laws.specs.Reached.{IsRegisterOf};
ghost use Rattle.op_feed.specs.EntryChanges.{entry_changes};
ghost use Rattle.op_feed.specs.ReachedBoard.{IsBoardOf, IsReachedBoard, HaveSerialsFrom, first_kept};
ghost use Rattle.op_feed.specs.TouchedBy.{IsTouchedBy};

/// The changes between two maps that share some of their parts are the changes between the parts that they don't share.
pub fn changes_are_local()
    ensures one { (a m n z : List Object) → HaveDistinctKeys (a ++ (m ++ z)) → HaveDistinctKeys (a ++ (n ++ z))
        → changes_between (a ++ (m ++ z)) (a ++ (n ++ z)) ≡ changes_between m n }
    ensures two { (a m n b p q z : List Object) → HaveDistinctKeys (a ++ (m ++ (b ++ (p ++ z))))
        → HaveDistinctKeys (a ++ (n ++ (b ++ (q ++ z))))
        → changes_between (a ++ (m ++ (b ++ (p ++ z)))) (a ++ (n ++ (b ++ (q ++ z)))) ≡ changes_between (m ++ p) (n ++ q) }
{}

/// What the next entry changes in the objects of a whole register follows from what the entry names and from the pieces
/// that it touches.
pub fn next_changes()
    ensures { (r : Register) (e : PlainEntry) (before after : List Piece) → IsWholeRegister r → IsNextEntry r e
        → IsTouchedBy r.pool (after_entry r e).pool before after
        → changes_of r e ≡ entry_changes r.holders r.subs r.reverses e.day before after e.request }
{}

/// A legal list of entries has no more than 2^32 operations for each entry.
pub fn operations_are_few()
    ensures { (rooms : Rooms) (es : List PlainEntry) → AreRooms rooms → IsLegal rooms es
        → length (operations_of rooms es) ≤ 2 ^ 32 * length es }
{}

/// The empty board is reached, and from every board that is reached each entry that may come next leads to one: it is the
/// board of the entries before it and this one.
pub fn entries_reach_boards()
    ensures empty { (rooms : Rooms) → IsReachedBoard (empty_board rooms) }
    ensures more { (b : PlainBoard) (es : List PlainEntry) (e : PlainEntry) → IsBoardOf b es → IsNextEntry b.register e
        → IsBoardOf (board_after_entry b e) (es ++ e ∷ []) }
    ensures next { (b : PlainBoard) (e : PlainEntry) → IsReachedBoard b → IsNextEntry b.register e
        → IsReachedBoard (board_after_entry b e) }
{}

/// The board of a legal list has the list's register, and is whole.
pub fn reached_boards_are_whole()
    ensures register { (b : PlainBoard) (es : List PlainEntry) → IsBoardOf b es → IsRegisterOf b.register es }
    ensures whole { (b : PlainBoard) → IsReachedBoard b → IsWhole b }
{}

/// No serial of a board that is reached leaves its type; the operations that it keeps are no more than there were, and have
/// the last serials up to its own.
pub fn reached_boards_number_operations()
    ensures bound { (b : PlainBoard) → AreRooms b.register.rooms → IsReachedBoard b → b.serial ≤ 2 ^ 58 }
    ensures few { (b : PlainBoard) → IsReachedBoard b → length b.kept ≤ b.serial }
    ensures serials { (b : PlainBoard) → IsReachedBoard b → HaveSerialsFrom (first_kept b) b.kept }
{}
