use holder_book::HolderBook;
use reg_entry::{Cc, Handle, Holder, Kind, Text};
use std::alloc::{AllocError, Global};
use std::test::Fail;

fn holder(handle: &[u8], name: &[u8]) -> Option<Holder> {
    Some(Holder {
        handle: Handle::read(handle)?,
        kind: Kind::Lir,
        cc: Cc::read(b"NL")?,
        name: Text::read(name)?,
        email: Text::read(b"noc@example.net")?,
    })
}

/// Adds a holder of a new handle where there is room.
fn added(book: &mut HolderBook, handle: &[u8], day: u32) -> Option<u32> {
    let new = holder(handle, b"First Name")?;
    if book.len() >= book.room() || book.by_handle(&new.handle).is_some() {
        return None;
    }
    Some(book.add(&new, day))
}

fn number(book: &HolderBook, handle: &[u8]) -> Option<u32> {
    book.by_handle(&Handle::read(handle)?)
}

/// Gives the holder of this handle another name.
fn edited(book: &mut HolderBook, handle: &[u8], name: &[u8], day: u32) -> Option<u32> {
    let new = holder(handle, name)?;
    let number = book.by_handle(&new.handle)?;
    book.edit(number, &new, day);
    Some(number)
}

/// Whether the holder of this number has the handle, the name and the day.
fn stands(book: &HolderBook, number: u32, handle: &[u8], name: &[u8], day: u32) -> bool {
    if number >= book.len() {
        return false;
    }
    let (holder, given) = book.holder(number);
    holder.handle.bytes() == handle && holder.name.bytes() == name && *given == day
}

/// Handles with their days, and the numbers that they get: those are in the order in which they came, whatever the order of
/// the handles.
const ROWS: [(&str, u32, u32); 3] = [
    ("ORG-B", 19783, 0),
    ("ORG-C", 19784, 1),
    ("ORG-A", 19785, 2),
];

/// Below, between and above those that are there.
const UNKNOWN: [&str; 4] = ["ORG", "ORG-AA", "ORG-BZ", "ORG-D"];

/// Each comes once.
fn all_come(book: &mut HolderBook) -> bool {
    for (handle, day, expected) in ROWS.iter() {
        let handle = handle.as_bytes();
        let came = book.len() == *expected && added(book, handle, *day) == Some(*expected);
        if !came || added(book, handle, *day).is_some() {
            return false;
        }
    }
    true
}

fn all_are_found(book: &HolderBook) -> bool {
    for (handle, day, expected) in ROWS.iter() {
        let handle = handle.as_bytes();
        let found = number(book, handle) == Some(*expected);
        if !found || !stands(book, *expected, handle, b"First Name", *day) {
            return false;
        }
    }
    true
}

fn no_others_are_found(book: &HolderBook) -> bool {
    for handle in UNKNOWN.iter() {
        if number(book, handle.as_bytes()).is_some() {
            return false;
        }
    }
    true
}

fn one_is_edited(book: &mut HolderBook) -> bool {
    edited(book, b"ORG-C", b"Second Name", 19790) == Some(1)
        && edited(book, b"ORG-D", b"Second Name", 19790).is_none()
        && stands(book, 0, b"ORG-B", b"First Name", 19783)
        && stands(book, 1, b"ORG-C", b"Second Name", 19790)
        && stands(book, 2, b"ORG-A", b"First Name", 19785)
        && number(book, b"ORG-C") == Some(1)
}

/// Whether a book with room for three has each of three holders, and no more than there is room for.
fn has_each(book: &mut HolderBook) -> bool {
    number(book, b"ORG-B").is_none()
        && all_come(book)
        && all_are_found(book)
        && no_others_are_found(book)
        && added(book, b"ORG-D", 19786).is_none()
        && (book.len(), book.room()) == (3, 3)
        && one_is_edited(book)
}

/// No function of the tests that owns a book has more than one end behind it, since each end proves again that all of it is
/// dropped.
fn new_book_has_each(alloc: Global) -> Result<bool, AllocError> {
    let mut book = HolderBook::with_room(alloc, 3)?;
    Ok(has_each(&mut book))
}

#[test]
fn holders_are_found_by_handle_and_by_number(rt: HostRuntime) -> Result<(), Fail> {
    assert!(rt; new_book_has_each(rt.alloc())?);
    Ok(())
}

/// The plain book: it moves whole pairs to keep the handles in their order.
#[derive(Drop)]
struct PlainBook {
    holders: Vec<(Holder, u32)>,
    index: Vec<(Handle, u32)>,
}

impl PlainBook {
    fn by_handle(&self, handle: &Handle) -> Option<u32> {
        let i = self.index.binary_search_by(|e| e.0.cmp(handle)).ok()?;
        Some(self.index[i].1)
    }

    fn add(&mut self, holder: &Holder, day: u32) -> Result<Option<u32>, AllocError> {
        let Ok(number) = u32::try_from(self.holders.len()) else {
            return Ok(None);
        };
        if let Err(i) = self.index.binary_search_by(|e| e.0.cmp(&holder.handle)) {
            self.index.insert(i, (holder.handle, number))?;
        }
        self.holders.push((*holder, day))?;
        Ok(Some(number))
    }

    fn edit(&mut self, number: u32, holder: &Holder, day: u32) {
        if let Some(held) = self.holders.get_mut(number as usize) {
            *held = (*holder, day);
        }
    }
}

/// A handle of two letters, and one of eight names.
fn drawn(random: u32) -> Option<Holder> {
    let letters = b"ABCDEFGH";
    let pick = |shift: u32| letters[(random >> shift) as usize % 8];
    holder(&[pick(8), pick(11), pick(14)], &[pick(20)])
}

/// Edits the holder in both books where they have its handle, else adds it to both where there is room.
fn step(
    book: &mut HolderBook,
    plain: &mut PlainBook,
    holder: &Holder,
    day: u32,
) -> Result<bool, AllocError> {
    let found = book.by_handle(&holder.handle);
    if found != plain.by_handle(&holder.handle) {
        return Ok(false);
    }
    if let Some(number) = found {
        book.edit(number, holder, day);
        plain.edit(number, holder, day);
    } else if book.len() < book.room() {
        return Ok(plain.add(holder, day)? == Some(book.add(holder, day)));
    }
    Ok(true)
}

fn has(book: &HolderBook, number: u32, held: &(Holder, u32)) -> bool {
    number < book.len() && book.holder(number) == held
}

/// Whether both books say the same after 2,000 steps.
fn say_the_same(book: &mut HolderBook, plain: &mut PlainBook) -> Result<bool, AllocError> {
    let mut random = 1u32;
    for day in 0..2000 {
        random = random.wrapping_mul(1664525).wrapping_add(1013904223);
        let Some(holder) = drawn(random) else {
            return Ok(false);
        };
        if !step(book, plain, &holder, day)? {
            return Ok(false);
        }
    }
    for (number, held) in (0..book.len()).zip(&plain.holders) {
        if !has(book, number, held) {
            return Ok(false);
        }
    }
    Ok(book.len() == 300)
}

fn new_books_say_the_same(alloc: Global) -> Result<bool, AllocError> {
    let mut plain = PlainBook {
        holders: Vec::new(alloc),
        index: Vec::new(alloc),
    };
    let mut book = HolderBook::with_room(alloc, 300)?;
    say_the_same(&mut book, &mut plain)
}

#[test]
fn the_plain_book_says_the_same(rt: HostRuntime) -> Result<(), Fail> {
    assert!(rt; new_books_say_the_same(rt.alloc())?);
    Ok(())
}
