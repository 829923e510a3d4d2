//! What is known of a number.
ghost use Rattle.std.specs.Prelude.{◌≡◌, [], ◌+◌, ◌≤◌, ◌++◌};
ghost use Rattle.arrayvec.specs.ArrayVec.{array_vec_len};
ghost use Rattle.reg_entry.specs.Days.{last_date};
ghost use Rattle.desk_text.specs.ShownText.{handle_word, none_text, piece_text};

use crate::append::{append_handle, append_range};
use crate::entry_text::append_card_day;
use crate::vocabulary::status_word;
use addr_text::append;
use arrayvec::ArrayVec;
use reg_entry::{Handle, Piece};

fn append_holder(handle: &Option<Handle>, out: &mut ArrayVec<u8, 256>)
    requires room { array_vec_len out.old + 24 ≤ 256 }
    ensures text { out.new.items ≡ out.old.items ++ handle_word handle.now }
    ensures len { array_vec_len out.new ≤ array_vec_len out.old + 24 }
{
    match handle {
        None => append(b"-", out),
        Some(handle) => append_handle(handle, out),
    }
}

/// Writes `none`, the answer where no piece holds the number.
pub fn write_none(out: &mut ArrayVec<u8, 256>)
    requires empty { out.old.items ≡ [] }
    ensures text { out.new.items ≡ none_text }
    ensures len { array_vec_len out.new ≤ 140 }
{
    append(b"none", out);
}

/// Writes `FIRST - LAST STATUS HOLDER DAY UNTIL` of a piece and its holder's handle, with `-` for no holder and no day.
pub fn write_piece(piece: &Piece, handle: &Option<Handle>, out: &mut ArrayVec<u8, 256>)
    requires empty { out.old.items ≡ [] }
    requires dates { (piece.now.card.day ≤ last_date) × (piece.now.card.until ≤ last_date) }
    ensures text { out.new.items ≡ piece_text piece.now handle.now }
    ensures len { array_vec_len out.new ≤ 140 }
{
    append_range(&piece.range, true, out);
    append(b" ", out);
    append(status_word(piece.card.status), out);
    append(b" ", out);
    append_holder(handle, out);
    append(b" ", out);
    append_card_day(piece.card.day, out);
    append(b" ", out);
    append_card_day(piece.card.until, out);
}
