//! The lines of an object in a stream, and what becomes of it when it is whole.
ghost use Rattle.std.specs.Prelude.{◌≡◌, ◌≤◌, ◌==◌, ◌&&◌, ℕ, List, if◌then◌else◌};
ghost use Rattle.rpsl_text.specs.Lines.{continuation_of};
ghost use Rattle.rpsl_text.specs.Reading.{after_line};
ghost use Rattle.mirror_core.specs.Draft.{goes_on, attribute_line, percent_inside, new_line, applied, whole_object, empty_line, object_key, object_line};
ghost use Rattle.mirror_core.specs.Replica.{standing, standing_in, stream_with, IsAfter, IsLonger, is_last_out};

use crate::FeedFault;
use crate::draft::{Draft, Serials, Stream, has_source};
use crate::keys::is_class;
use crate::replica::Replica;
use reg_entry::Key;
use rpsl_text::{Attrs, RpslFault, continuation_of};

/// An object has at most so many lines.
const MOST_LINES: u32 = 64;

/// The attributes with one more line.
fn with_line(attributes: Attrs, line: &[u8], place: u64) -> Result<Attrs, FeedFault>
    ensures { IsLonger place (after_line attributes line.now) result }
{
    match attributes.with_line(line, 0) {
        Ok(longer) => Ok(longer),
        Err(RpslFault::Line(_)) => Err(FeedFault::Spelling { place }),
        Err(RpslFault::NoMemory) => Err(FeedFault::NoMemory),
    }
}

/// Whether the last attribute is of no class.
fn is_last_out(attributes: &Attrs) -> bool
    ensures { result ≡ is_last_out attributes.now }
{
    match attributes.last() {
        Some((name, _)) => !is_class(name),
        None => false,
    }
}

/// Whether the object's first line, which is its last so far, isn't that of a class.
fn is_out(lines: u32, attributes: &Attrs) -> bool
    ensures { result ≡ (lines == 0) && is_last_out attributes.now }
{
    lines == 0 && is_last_out(attributes)
}

fn first_place(lines: u32, first: u64, place: u64) -> u64
    ensures { result ≡ (if lines == 0 then place else first) }
{
    if lines == 0 { place } else { first }
}

impl Replica {
    /// A line that goes on with the last attribute's value.
    fn value_line(&mut self, serials: Serials, draft: Draft, line: &[u8]) -> Result<(), FeedFault>
        requires serials { serials.next ≤ serials.last }
        ensures said { let s = stream_with serials draft in (text : List ℕ) → continuation_of line.now ≡ Some text
            → IsAfter (goes_on (standing_in self.old s) s draft text) self.old self.new result }
        ensures place { self.new.place ≡ self.old.place }
    {
        let Draft {
            act,
            attributes,
            lines,
            first,
            last,
            ..
        } = draft;
        if lines >= MOST_LINES {
            return Err(self.spelling());
        }
        let attributes = with_line(attributes, line, self.place)?;
        let draft = Draft {
            act,
            attributes,
            lines: lines + 1,
            first,
            last,
            key: None,
        };
        self.stream = Some(Stream {
            serials,
            draft: Some(draft),
        });
        Ok(())
    }

    /// A line that begins an attribute.
    fn attribute_line(
        &mut self,
        serials: Serials,
        draft: Draft,
        line: &[u8],
    ) -> Result<(), FeedFault>
        requires serials { serials.next ≤ serials.last }
        requires anew { continuation_of line.now ≡ None }
        ensures said { let s = stream_with serials draft in IsAfter (attribute_line (standing_in self.old s) s draft line.now) self.old self.new result }
        ensures place { self.new.place ≡ self.old.place }
    {
        let Draft {
            act,
            attributes,
            lines,
            first,
            key,
            ..
        } = draft;
        if lines >= MOST_LINES {
            return Err(self.spelling());
        }
        let attributes = with_line(attributes, line, self.place)?;
        if is_out(lines, &attributes) {
            return Err(FeedFault::ClassOut { place: self.place });
        }
        let draft = Draft {
            act,
            attributes,
            lines: lines + 1,
            first: first_place(lines, first, self.place),
            last: self.place,
            key,
        };
        self.stream = Some(Stream {
            serials,
            draft: Some(draft),
        });
        Ok(())
    }

    /// A `%` line can't stand in an operation.
    fn percent_inside(&mut self, line: &[u8]) -> Result<(), FeedFault>
        ensures said { IsAfter (percent_inside (standing self.old) line.now) self.old self.new result }
        ensures place { self.new.place ≡ self.old.place }
    {
        self.percent_line(line)?;
        Err(self.spelling())
    }

    /// A line that doesn't go on with a value.
    fn new_line(
        &mut self,
        serials: Serials,
        mut draft: Draft,
        first: u8,
        line: &[u8],
    ) -> Result<(), FeedFault>
        requires serials { serials.next ≤ serials.last }
        requires anew { continuation_of line.now ≡ None }
        ensures said { let s = stream_with serials draft in IsAfter (new_line (standing_in self.old s) s draft first line.now) self.old self.new result }
        ensures place { self.new.place ≡ self.old.place }
    {
        if let Some(fault) = draft.settle(self.alloc, self.source.as_slice()) {
            return Err(fault);
        }
        if first != b'%' {
            return self.attribute_line(serials, draft, line);
        }
        self.stream = Some(Stream {
            serials,
            draft: Some(draft),
        });
        self.percent_inside(line)
    }

    /// The stream's next operation is applied, unless it was before.
    fn apply(&mut self, serials: Serials, draft: Draft, key: Key) -> Result<(), FeedFault>
        requires { serials.next ≤ serials.last }
        ensures said { let s = stream_with serials draft in IsAfter (Ok (applied (standing_in self.old s) s draft key)) self.old self.new result }
        ensures place { self.new.place ≡ self.old.place }
    {
        self.stream = Some(Stream {
            serials: Serials {
                next: serials.next + 1,
                last: serials.last,
            },
            draft: None,
        });
        if u128::from(self.serial) < serials.next {
            let Draft {
                act,
                attributes,
                ..
            } = draft;
            self.objects.operate(act, key, attributes)?;
            self.serial = serials.next as u64;
        }
        Ok(())
    }

    /// The empty line behind an object.
    fn whole_object(&mut self, serials: Serials, draft: Draft) -> Result<(), FeedFault>
        requires { serials.next ≤ serials.last }
        ensures said { let s = stream_with serials draft in IsAfter (whole_object (standing_in self.old s) s draft (object_key draft.attributes)) self.old self.new result }
        ensures place { self.new.place ≡ self.old.place }
    {
        match draft.key() {
            Some(key) if has_source(&draft.attributes) => self.apply(serials, draft, key),
            _ => Err(self.spelling()),
        }
    }

    fn empty_line(&mut self, serials: Serials, mut draft: Draft) -> Result<(), FeedFault>
        requires { serials.next ≤ serials.last }
        ensures said { let s = stream_with serials draft in IsAfter (empty_line (standing_in self.old s) s draft) self.old self.new result }
        ensures place { self.new.place ≡ self.old.place }
    {
        if draft.lines == 0 {
            self.stream = Some(Stream {
                serials,
                draft: Some(draft),
            });
            return Ok(());
        }
        if let Some(fault) = draft.settle(self.alloc, self.source.as_slice()) {
            return Err(fault);
        }
        self.whole_object(serials, draft)
    }

    /// A line behind an act.
    pub(crate) fn object_line(
        &mut self,
        serials: Serials,
        draft: Draft,
        line: &[u8],
    ) -> Result<(), FeedFault>
        requires { serials.next ≤ serials.last }
        ensures said { let s = stream_with serials draft in IsAfter (object_line (standing_in self.old s) s draft line.now) self.old self.new result }
        ensures place { self.new.place ≡ self.old.place }
    {
        let [first, ..] = line else {
            return self.empty_line(serials, draft);
        };
        match continuation_of(line) {
            Some(_) => self.value_line(serials, draft, line),
            None => self.new_line(serials, draft, *first, line),
        }
    }
}
