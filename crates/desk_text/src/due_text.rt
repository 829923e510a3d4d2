//! Which pieces' quarantine is over.
ghost use Rattle.std.specs.Prelude.{◌≡◌, [], ◌≤◌};
ghost use Rattle.arrayvec.specs.ArrayVec.{array_vec_len};
ghost use Rattle.desk_text.specs.DueText.{due_count_text, due_piece_text};

use crate::append::append_range;
use addr_text::{append, append_decimal};
use arrayvec::ArrayVec;
use reg_entry::Piece;

/// Writes `due` and how many pieces there are.
pub fn write_due_count(count: u32, out: &mut ArrayVec<u8, 256>)
    requires empty { out.old.items ≡ [] }
    ensures text { out.new.items ≡ due_count_text count }
    ensures len { array_vec_len out.new ≤ 140 }
{
    append(b"due ", out);
    append_decimal(count, out);
}

/// Writes `FIRST - LAST` of a piece.
pub fn write_due_piece(piece: &Piece, out: &mut ArrayVec<u8, 256>)
    requires empty { out.old.items ≡ [] }
    ensures text { out.new.items ≡ due_piece_text piece.now }
    ensures len { array_vec_len out.new ≤ 140 }
{
    append_range(&piece.range, true, out);
}
