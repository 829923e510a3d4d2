//! Entries as they are read from the journal's lines.
ghost use Rattle.std.specs.Prelude.{◌≡◌, ◌≤◌, ◌<◌, ◌^◌, ◌↔◌, Some, IsTrue, IfSome, IfNone, IfOk};
ghost use Rattle.addr_text.specs.Reading.{range_of};
ghost use Rattle.reg_entry.specs.Entry.{PlainEntry};
ghost use Rattle.desk_lang.specs.declared.rest.Form.TheVariants.{Plain};
ghost use Rattle.desk_lang.specs.EntryReading.{IsHolderNumber, IsWritableCover, IsWritableCard, IsWritableEntry, SpellsEntry, optional, card_day_of, seq_of, status_of_word, card_of_words, request_of_rest, entry_line};
ghost use Rattle.reg_entry.specs.Days.{last_date};
ghost use Rattle.desk_text.specs.EntryText.{CardHasDates, entry_text};
ghost use Rattle.reg_entry.specs.Next.{IsNextEntry};
ghost use Rattle.reg_entry.specs.Register.{Register};
ghost use Rattle.reg_entry.specs.Request.{IsSizedRequest};
ghost use Rattle.desk_lang.specs.Values.{decimal_of};
ghost use Rattle.desk_lang.specs.Words.{next_value};

use crate::line::{LINE_ROOM, Line, read_line};
use crate::rest::{Form, Malformed, Rest};
use crate::verb::is_text;
use crate::writable::is_writable;
use addr_text::{read_decimal, read_long_decimal, read_range};
use arrayvec::ArrayVec;
use desk_text::write_entry;
use num_range::Range;
use reg_entry::{Card, Entry, LAST_DATE, Request, Status, read_day};

/// What a word stands for of which `-` is nothing.
fn read_cover(word: &[u8]) -> Option<Option<Range>>
    ensures { result ≡ optional range_of word.now }
{
    if word == b"-".as_slice() {
        return Some(None);
    }
    Some(Some(read_range(word)?))
}

fn read_holder_number(word: &[u8]) -> Option<Option<u32>>
    ensures { result ≡ optional decimal_of word.now }
{
    if word == b"-".as_slice() {
        return Some(None);
    }
    Some(Some(read_decimal(word)?))
}

fn read_card_day(word: &[u8]) -> Option<u32>
    ensures { result ≡ card_day_of word.now }
{
    if word == b"-".as_slice() {
        return Some(0);
    }
    read_day(word)
}

fn read_status(word: &[u8]) -> Option<Option<Status>>
    ensures { result ≡ optional status_of_word word.now }
{
    let status = if is_text(word, b"-") {
        return Some(None);
    } else if is_text(word, b"available") {
        Status::Available
    } else if is_text(word, b"reserved") {
        Status::Reserved
    } else if is_text(word, b"quarantine") {
        Status::Quarantine
    } else if is_text(word, b"allocated") {
        Status::Allocated
    } else if is_text(word, b"assigned") {
        Status::Assigned
    } else {
        return None;
    };
    Some(Some(status))
}

impl<'a> Rest<'a> {
    fn seq(&self) -> Result<(u64, Rest<'a>), Malformed>
        ensures { result ≡ next_value Plain seq_of self.now }
    {
        let word = self.next_word(Form::Plain)?;
        let seq = read_long_decimal(word.bytes());
        word.value(seq)
    }

    fn cover(&self) -> Result<(Option<Range>, Rest<'a>), Malformed>
        ensures { result ≡ next_value Plain (optional range_of) self.now }
    {
        let word = self.next_word(Form::Plain)?;
        let cover = read_cover(word.bytes());
        word.value(cover)
    }

    fn status(&self) -> Result<(Option<Status>, Rest<'a>), Malformed>
        ensures { result ≡ next_value Plain (optional status_of_word) self.now }
    {
        let word = self.next_word(Form::Plain)?;
        let status = read_status(word.bytes());
        word.value(status)
    }

    fn holder_number(&self) -> Result<(Option<u32>, Rest<'a>), Malformed>
        ensures { result ≡ next_value Plain (optional decimal_of) self.now }
    {
        let word = self.next_word(Form::Plain)?;
        let holder = read_holder_number(word.bytes());
        word.value(holder)
    }

    fn card_day(&self) -> Result<(u32, Rest<'a>), Malformed>
        ensures { result ≡ next_value Plain card_day_of self.now }
    {
        let word = self.next_word(Form::Plain)?;
        let day = read_card_day(word.bytes());
        word.value(day)
    }

    /// The request, which is all that is left of the line.
    fn request(&self) -> Result<Request, Malformed>
        ensures value { result ≡ request_of_rest self.now }
        ensures sized { IfOk result IsSizedRequest }
    {
        match read_line(self.left()) {
            Ok(Line::Request(request)) => Ok(request),
            _ => Err(self.malformed()),
        }
    }
}

fn card_of_words(status: Option<Status>, holder: Option<u32>, day: u32, until: u32) -> Option<Card>
    ensures { result ≡ card_of_words status holder day until }
{
    match status {
        None => None,
        Some(status) => Some(Card {
            status,
            holder,
            day,
            until,
        }),
    }
}

/// The entry of the line's words, whose text may still be another than the one that is written of the entry.
#[tactic(auto, unfolding(crate::specs::EntryReading::entry_line))]
fn entry_line(rest: &Rest<'_>) -> Result<Entry, Malformed>
    ensures value { result ≡ entry_line rest.now }
    ensures sized { IfOk result (λ e. IsSizedRequest e.request) }
{
    let (seq, rest) = rest.seq()?;
    let (day, rest) = rest.day()?;
    let (who, rest) = rest.name()?;
    let (cover, rest) = rest.cover()?;
    let (status, rest) = rest.status()?;
    let (holder, rest) = rest.holder_number()?;
    let (from, rest) = rest.card_day()?;
    let (until, rest) = rest.card_day()?;
    let request = rest.request()?;
    let card = card_of_words(status, holder, from, until);
    Ok(Entry {
        seq,
        day,
        who,
        request,
        cover,
        card,
    })
}

fn has_word(holder: Option<u32>)
    ensures { IsHolderNumber holder }
{
    match holder {
        None => {}
        Some(_) => {}
    }
}

fn is_dated(card: &Card) -> bool
    ensures { IsTrue result ↔ ((card.now.day ≤ last_date) × (card.now.until ≤ last_date)) }
{
    card.day <= LAST_DATE && card.until <= LAST_DATE
}

/// Whether the card lies beside a cover and its days are dates.
fn is_writable_card(cover: &Option<Range>, card: &Option<Card>) -> bool
    ensures { IsTrue result ↔ IsWritableCard cover.now card.now }
{
    match (cover, card) {
        (_, None) => true,
        (None, Some(_)) => false,
        (Some(_), Some(card)) => {
            has_word(card.holder);
            is_dated(card)
        }
    }
}

fn has_range(cover: &Option<Range>)
    ensures { IsWritableCover cover.now }
{
    if let Some(range) = cover {
        let _ = range.first();
    }
}

fn has_decimal(seq: u64)
    ensures { seq < 2 ^ 64 }
{
    let _ = seq;
}

/// Whether the entry has a written text that is read again: its day is a date from 1970-01-02 on, and a card stands only
/// beside a cover and has dates.
pub fn is_writable_entry(e: &Entry) -> bool
    requires { IsSizedRequest e.now.request }
    ensures { IsTrue result ↔ IsWritableEntry e.now }
{
    has_decimal(e.seq);
    is_writable(&e.request);
    has_range(&e.cover);
    let _ = e.who.bytes();
    if !(1..=LAST_DATE).contains(&e.day) {
        return false;
    }
    is_writable_card(&e.cover, &e.card)
}

fn has_holder_number(card: &Option<Card>)
    ensures { IfSome card.now (λ c. IsHolderNumber c.holder) }
{
    if let Some(card) = card {
        has_word(card.holder);
    }
}

/// Tells callers that an entry that may come next has a written text, and that it is read from it again.
pub fn next_is_writable(e: &Entry)
    ensures writable { (r : Register) → IsNextEntry r e.now → IsWritableEntry e.now }
    ensures spelled { (r : Register) → IsNextEntry r e.now → SpellsEntry (entry_text e.now) e.now }
    ensures dates { (r : Register) → IsNextEntry r e.now
        → (e.now.day ≤ last_date) × CardHasDates e.now.card }
{
    has_decimal(e.seq);
    let _ = e.who.bytes();
    has_range(&e.cover);
    has_holder_number(&e.card);
    is_writable(&e.request);
}

/// Whether the text is the one that is written of the entry.
fn is_text_of(text: &[u8], e: &Entry) -> bool
    requires date { e.now.day ≤ last_date }
    requires card_dates { CardHasDates e.now.card }
    ensures { IsTrue result ↔ (text.now ≡ entry_text e.now) }
{
    let mut written = ArrayVec::new();
    write_entry(e, &mut written);
    written.as_slice() == text
}

/// The entry whose written text this is, or nothing where the text is no entry's.
pub fn read_entry(text: &[u8]) -> Option<Entry>
    ensures some { IfSome result (SpellsEntry text.now) }
    ensures none { IfNone result ((e : PlainEntry) → ¬ (SpellsEntry text.now e)) }
    ensures found { (e : PlainEntry) → SpellsEntry text.now e → result ≡ Some e }
{
    if text.len() > LINE_ROOM {
        return None;
    }
    let Ok(entry) = entry_line(&Rest::new(text)) else {
        return None;
    };
    if !is_writable_entry(&entry) {
        return None;
    }
    if !is_text_of(text, &entry) {
        return None;
    }
    Some(entry)
}
