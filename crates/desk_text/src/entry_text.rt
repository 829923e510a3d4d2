//! Entries as the journal's lines show them.
ghost use Rattle.std.specs.Prelude.{◌≡◌, [], ◌+◌, ◌≤◌, ◌++◌, length};
ghost use Rattle.arrayvec.specs.ArrayVec.{array_vec_len};
ghost use Rattle.reg_entry.specs.Days.{last_date};
ghost use Rattle.desk_text.specs.EntryText.{CardHasDates, cover_word, holder_word};
ghost use Rattle.desk_text.specs.EntryText.{day_word, card_text, entry_text};

use crate::append::{append_day, append_range};
use crate::request_text::append_request;
use crate::vocabulary::status_word;
use addr_text::{append, append_decimal};
use arrayvec::ArrayVec;
use num_range::Range;
use reg_entry::{Card, Entry, Name};

fn append_name<const N: usize>(name: &Name, out: &mut ArrayVec<u8, N>)
    requires room { array_vec_len out.old + 24 ≤ N }
    ensures text { out.new.items ≡ out.old.items ++ name.now }
    ensures len { array_vec_len out.new ≤ array_vec_len out.old + 24 }
{
    append(name.bytes(), out);
}

fn append_cover<const N: usize>(cover: &Option<Range>, out: &mut ArrayVec<u8, N>)
    requires room { array_vec_len out.old + 81 ≤ N }
    ensures text { out.new.items ≡ out.old.items ++ cover_word cover.now }
    ensures len { array_vec_len out.new ≤ array_vec_len out.old + 81 }
{
    match cover {
        None => append(b"-", out),
        Some(range) => append_range(range, false, out),
    }
}

fn append_holder_number<const N: usize>(holder: Option<u32>, out: &mut ArrayVec<u8, N>)
    requires room { array_vec_len out.old + 40 ≤ N }
    ensures text { out.new.items ≡ out.old.items ++ holder_word holder }
    ensures len { array_vec_len out.new ≤ array_vec_len out.old + 40 }
{
    match holder {
        None => append(b"-", out),
        Some(number) => append_decimal(number, out),
    }
}

/// Appends a day of a card.
pub(crate) fn append_card_day<const N: usize>(day: u32, out: &mut ArrayVec<u8, N>)
    requires date { day ≤ last_date }
    requires room { array_vec_len out.old + 8 ≤ N }
    ensures text { out.new.items ≡ out.old.items ++ day_word day }
    ensures len { array_vec_len out.new ≤ array_vec_len out.old + 8 }
{
    if day == 0 {
        append(b"-", out);
    } else {
        append_day(day, out);
    }
}

fn append_card<const N: usize>(card: &Option<Card>, out: &mut ArrayVec<u8, N>)
    requires dates { CardHasDates card.now }
    requires room { array_vec_len out.old + 80 ≤ N }
    ensures text { out.new.items ≡ out.old.items ++ card_text card.now }
    ensures len { array_vec_len out.new ≤ array_vec_len out.old + 80 }
{
    match card {
        None => append(b"- - - -", out),
        Some(card) => {
            append(status_word(card.status), out);
            append(b" ", out);
            append_holder_number(card.holder, out);
            append(b" ", out);
            append_card_day(card.day, out);
            append(b" ", out);
            append_card_day(card.until, out);
        }
    }
}

/// Writes the entry's text, which has at most 768 bytes, without a line end. The days that are written are dates up to
/// 9999-12-31.
pub fn write_entry(e: &Entry, out: &mut ArrayVec<u8, 1280>)
    requires empty { out.old.items ≡ [] }
    requires date { e.now.day ≤ last_date }
    requires card_dates { CardHasDates e.now.card }
    ensures text { out.new.items ≡ entry_text e.now }
    ensures short { length (entry_text e.now) ≤ 768 }
{
    append_decimal(e.seq, out);
    append(b" ", out);
    append_day(e.day, out);
    append(b" ", out);
    append_name(&e.who, out);
    append(b" ", out);
    append_cover(&e.cover, out);
    append(b" ", out);
    append_card(&e.card, out);
    append(b" ", out);
    append_request(&e.request, out);
}
