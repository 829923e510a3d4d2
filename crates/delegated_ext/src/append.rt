//! Names and days that are known to fit, appended to a line.
ghost use Rattle.std.specs.Prelude.{◌≡◌, ◌+◌, ◌≤◌, ◌++◌};
ghost use Rattle.arrayvec.specs.ArrayVec.{array_vec_len};
ghost use Rattle.reg_entry.specs.Days.{last_date, day_text};

use addr_text::append;
use arrayvec::ArrayVec;
use reg_entry::{Name, day_text};

pub(crate) fn append_name<const N: usize>(name: &Name, out: &mut ArrayVec<u8, N>)
    requires room { array_vec_len out.old + 24 ≤ N }
    ensures text { out.new.items ≡ out.old.items ++ name.now }
    ensures len { array_vec_len out.new ≤ array_vec_len out.old + 24 }
{
    append(name.bytes(), out);
}

/// Appends the day as YYYYMMDD.
pub(crate) fn append_day<const N: usize>(day: u32, out: &mut ArrayVec<u8, N>)
    requires date { day ≤ last_date }
    requires room { array_vec_len out.old + 8 ≤ N }
    ensures text { out.new.items ≡ out.old.items ++ day_text day }
    ensures len { array_vec_len out.new ≡ array_vec_len out.old + 8 }
{
    append(&day_text(day), out);
}
