//! Ranges, handles and days that are known to fit, appended to a buffer of any room.
ghost use Rattle.std.specs.Prelude.{◌≡◌, ◌+◌, ◌≤◌, ◌++◌, codes};
ghost use Rattle.arrayvec.specs.ArrayVec.{array_vec_len};
ghost use Rattle.addr_text.specs.Range.{range_text};
ghost use Rattle.reg_entry.specs.Days.{last_date, day_text};

use addr_text::{append, write_range};
use arrayvec::ArrayVec;
use num_range::Range;
use reg_entry::{Handle, day_text};

/// Appends `FIRST - LAST` where spaced, and else `FIRST-LAST`.
pub(crate) fn append_range<const N: usize>(r: &Range, spaced: bool, out: &mut ArrayVec<u8, N>)
    requires room { array_vec_len out.old + 81 ≤ N }
    ensures text { out.new.items ≡ out.old.items ++ range_text spaced r.now }
    ensures len { array_vec_len out.new ≤ array_vec_len out.old + 81 }
{
    let mut text = ArrayVec::new();
    write_range(*r, spaced, &mut text);
    append(text.as_slice(), out);
}

pub(crate) fn append_handle<const N: usize>(handle: &Handle, out: &mut ArrayVec<u8, N>)
    requires room { array_vec_len out.old + 24 ≤ N }
    ensures text { out.new.items ≡ out.old.items ++ handle.now }
    ensures len { array_vec_len out.new ≤ array_vec_len out.old + 24 }
{
    append(handle.bytes(), out);
}

/// Appends the day as YYYYMMDD.
pub(crate) fn append_day<const N: usize>(day: u32, out: &mut ArrayVec<u8, N>)
    requires date { day ≤ last_date }
    requires room { array_vec_len out.old + 8 ≤ N }
    ensures text { out.new.items ≡ out.old.items ++ day_text day }
    ensures len { array_vec_len out.new ≡ array_vec_len out.old + 8 }
{
    append(&day_text(day), out);
}

/// Appends the handle with a blank before it.
pub(crate) fn append_next_handle<const N: usize>(handle: &Handle, out: &mut ArrayVec<u8, N>)
    requires room { array_vec_len out.old + 25 ≤ N }
    ensures text { out.new.items ≡ out.old.items ++ codes " " ++ handle.now }
    ensures len { array_vec_len out.new ≤ array_vec_len out.old + 25 }
{
    append(b" ", out);
    append_handle(handle, out);
}
