//! Replies to requests.
ghost use Rattle.std.specs.Prelude.{◌≡◌, [], ◌+◌, ◌≤◌, ◌++◌, length, codes, decimal};
ghost use Rattle.arrayvec.specs.ArrayVec.{array_vec_len};
ghost use Rattle.addr_text.specs.Number.{number_text};
ghost use Rattle.reg_entry.specs.Days.{last_date, day_text};
ghost use Rattle.desk_text.specs.ReplyText.{RefusalHasDate, ReplyHasDate, accepted_cover, spaced_range};
ghost use Rattle.desk_text.specs.ReplyText.{refusal_name, refusal_values, reply_text};

use crate::append::{append_day, append_next_handle, append_range};
use crate::vocabulary::{kind_word, status_word};
use addr_text::{append, append_decimal, append_number};
use arrayvec::ArrayVec;
use itoa::Integer;
use num_range::{Number, Range};
use reg_entry::{Refusal, Reply};

type Line = ArrayVec<u8, 256>;

fn append_cover(cover: &Option<Range>, out: &mut Line)
    requires room { array_vec_len out.old + 81 ≤ 256 }
    ensures text { out.new.items ≡ out.old.items ++ accepted_cover cover.now }
    ensures len { array_vec_len out.new ≤ array_vec_len out.old + 81 }
{
    match cover {
        None => append(b"-", out),
        Some(range) => append_range(range, true, out),
    }
}

/// The refusal's number and its name.
fn refusal_name(refusal: &Refusal) -> &'static [u8]
    ensures name { result.now ≡ refusal_name refusal.now }
    ensures short { length result.now ≤ 21 }
{
    match refusal {
        Refusal::Malformed { .. } => b"N1 Malformed",
        Refusal::UnknownHostmaster => b"N2 UnknownHostmaster",
        Refusal::OutsidePool { .. } => b"N10 OutsidePool",
        Refusal::NotOnePiece { .. } => b"N11 NotOnePiece",
        Refusal::WrongStatus { .. } => b"N12 WrongStatus",
        Refusal::UnknownHolder { .. } => b"N13 UnknownHolder",
        Refusal::NotHolder { .. } => b"N14 NotHolder",
        Refusal::HandleTaken => b"N15 HandleTaken",
        Refusal::Overlap { .. } => b"N16 Overlap",
        Refusal::NoSub => b"N17 NoSub",
        Refusal::NoReverse => b"N18 NoReverse",
        Refusal::CardsDiffer { .. } => b"N19 CardsDiffer",
        Refusal::LengthOutOfPolicy { .. } => b"N20 LengthOutOfPolicy",
        Refusal::HolderKind { .. } => b"N21 HolderKind",
        Refusal::OverCap { .. } => b"N22 OverCap",
        Refusal::UnderUsed { .. } => b"N23 UnderUsed",
        Refusal::HoldTime { .. } => b"N24 HoldTime",
        Refusal::NotDue { .. } => b"N25 NotDue",
        Refusal::HasSubs { .. } => b"N26 HasSubs",
        Refusal::Straddled { .. } => b"N27 Straddled",
        Refusal::NoBlock => b"N28 NoBlock",
        Refusal::NoReverseSpace => b"N29 NoReverseSpace",
        Refusal::RegisterFull { .. } => b"N30 RegisterFull",
        Refusal::HoldersFull { .. } => b"N31 HoldersFull",
        Refusal::JournalFull { .. } => b"N32 JournalFull",
        Refusal::SubsFull { .. } => b"N33 SubsFull",
        Refusal::ReverseFull { .. } => b"N34 ReverseFull",
    }
}

/// Appends a decimal with a blank before it.
fn append_next_decimal<I: Integer>(value: I, out: &mut Line)
    requires room { array_vec_len out.old + 41 ≤ 256 }
    ensures text { out.new.items ≡ out.old.items ++ codes " " ++ I.text value }
    ensures len { array_vec_len out.new ≤ array_vec_len out.old + 41 }
{
    append(b" ", out);
    append_decimal(value, out);
}

/// Appends two decimals, each with a blank before it.
fn append_next_decimals<I: Integer>(first: I, second: I, out: &mut Line)
    requires room { array_vec_len out.old + 82 ≤ 256 }
    ensures text { out.new.items ≡ out.old.items ++ codes " " ++ I.text first ++ codes " " ++ I.text second }
    ensures len { array_vec_len out.new ≤ array_vec_len out.old + 82 }
{
    append_next_decimal(first, out);
    append_next_decimal(second, out);
}

/// Appends a word with a blank before it.
fn append_next_word(word: &[u8], out: &mut Line)
    requires short { length word.now ≤ 24 }
    requires room { array_vec_len out.old + 25 ≤ 256 }
    ensures text { out.new.items ≡ out.old.items ++ codes " " ++ word.now }
    ensures len { array_vec_len out.new ≤ array_vec_len out.old + 25 }
{
    append(b" ", out);
    append(word, out);
}

/// Appends a number of a space with a blank before it.
fn append_next_number(number: &Number, out: &mut Line)
    requires room { array_vec_len out.old + 40 ≤ 256 }
    ensures text { out.new.items ≡ out.old.items ++ codes " " ++ number_text number.now }
    ensures len { array_vec_len out.new ≤ array_vec_len out.old + 40 }
{
    append(b" ", out);
    append_number(number, out);
}

/// Appends a range with a blank before it.
fn append_next_range(range: &Range, out: &mut Line)
    requires room { array_vec_len out.old + 82 ≤ 256 }
    ensures text { out.new.items ≡ out.old.items ++ codes " " ++ spaced_range range.now }
    ensures len { array_vec_len out.new ≤ array_vec_len out.old + 82 }
{
    append(b" ", out);
    append_range(range, true, out);
}

/// Appends a day with a blank before it.
fn append_next_day(day: u32, out: &mut Line)
    requires date { day ≤ last_date }
    requires room { array_vec_len out.old + 9 ≤ 256 }
    ensures text { out.new.items ≡ out.old.items ++ codes " " ++ day_text day }
    ensures len { array_vec_len out.new ≤ array_vec_len out.old + 9 }
{
    append(b" ", out);
    append_day(day, out);
}

/// Appends the values of a refusal, each with a blank before it.
fn append_values(refusal: &Refusal, out: &mut Line)
    requires date { RefusalHasDate refusal.now }
    requires room { array_vec_len out.old + 82 ≤ 256 }
    ensures text { out.new.items ≡ out.old.items ++ refusal_values refusal.now }
    ensures len { array_vec_len out.new ≤ array_vec_len out.old + 82 }
{
    match refusal {
        Refusal::UnknownHostmaster
        | Refusal::HandleTaken
        | Refusal::NoSub
        | Refusal::NoReverse
        | Refusal::NoBlock
        | Refusal::NoReverseSpace => {}
        Refusal::Malformed { place } => append_next_decimal(*place, out),
        Refusal::OutsidePool { number } => append_next_number(number, out),
        Refusal::NotOnePiece { piece } => append_next_range(piece, out),
        Refusal::WrongStatus { status } => append_next_word(status_word(*status), out),
        Refusal::UnknownHolder { handle } => append_next_handle(handle, out),
        Refusal::NotHolder { holder } => append_next_handle(holder, out),
        Refusal::Overlap { number } => append_next_number(number, out),
        Refusal::CardsDiffer { left } => append_next_range(left, out),
        Refusal::LengthOutOfPolicy { least, most } => append_next_decimals(*least, *most, out),
        Refusal::HolderKind { kind } => append_next_word(kind_word(*kind), out),
        Refusal::OverCap { held, cap } => append_next_decimals(*held, *cap, out),
        Refusal::UnderUsed { used, held } => append_next_decimals(*used, *held, out),
        Refusal::HoldTime { until } => append_next_day(*until, out),
        Refusal::NotDue { until } => append_next_day(*until, out),
        Refusal::HasSubs { count } => append_next_decimal(*count, out),
        Refusal::Straddled { range } => append_next_range(range, out),
        Refusal::RegisterFull { pieces, room } => append_next_decimals(*pieces, *room, out),
        Refusal::HoldersFull { room } => append_next_decimal(*room, out),
        Refusal::JournalFull { entries } => append_next_decimal(*entries, out),
        Refusal::SubsFull { room } => append_next_decimal(*room, out),
        Refusal::ReverseFull { room } => append_next_decimal(*room, out),
    }
}

/// Writes the reply's text, which has at most 128 bytes, without a line end. The day of a refusal is a date up to
/// 9999-12-31.
pub fn write_reply(r: &Reply, out: &mut ArrayVec<u8, 256>)
    requires empty { out.old.items ≡ [] }
    requires date { ReplyHasDate r.now }
    ensures text { out.new.items ≡ reply_text r.now }
    ensures short { length (reply_text r.now) ≤ 128 }
{
    match r {
        Reply::Accepted(entry) => {
            append(b"ok ", out);
            append_decimal(entry.seq, out);
            append(b" ", out);
            append_cover(&entry.cover, out);
        }
        Reply::Refused(refusal) => {
            append(b"refused ", out);
            append(refusal_name(refusal), out);
            append_values(refusal, out);
        }
    }
}
