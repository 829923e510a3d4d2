//! Objects read, line by line.
ghost use Rattle.std.specs.Prelude.{◌≡◌, ◌++◌, ◌∷◌, [], OnOk};
ghost use Rattle.rpsl_text.specs.Attributes.{attributes_at, AreSpansOf};
ghost use Rattle.rpsl_text.specs.Lines.{attribute_of};
ghost use Rattle.rpsl_text.specs.Reading.{gone_on, after_line, read_text, IsReadAs, IsTakenAs, IsLongerAs};

use crate::attrs::{Attrs, Span};
use crate::fault::RpslFault;
use crate::lines::{append_name, append_value, continuation_of, name_and_rest, next_line};
use std::alloc::{AllocError, Global};

/// The attributes of the lines so far.
#[derive(Drop)]
struct Draft {
    bytes: Vec<u8>,
    spans: Vec<Span>,
}

/// How many attributes an object of the register has at most, but for holders, and how many bytes they mostly have.
const ROOM: usize = 6;

const ROOM_BYTES: usize = 96;

impl Draft {
    /// Has room for most objects at once, so that their memory doesn't grow line by line.
    fn make_room(&mut self) -> Result<(), AllocError>
        ensures bytes { self.new.bytes.items ≡ self.old.bytes.items }
        ensures spans { self.new.spans.items ≡ self.old.spans.items }
    {
        if self.spans.is_empty() {
            self.bytes.reserve(ROOM_BYTES)?;
            self.spans.reserve(ROOM)?;
        }
        Ok(())
    }

    /// An attribute begins.
    fn begin(&mut self, name: &[u8], text: &[u8]) -> Result<(), AllocError>
        requires { AreSpansOf self.old.bytes.items self.old.spans.items }
        ensures spans { OnOk result (AreSpansOf self.new.bytes.items self.new.spans.items) }
        ensures taken { OnOk result (attributes_at self.new.bytes.items self.new.spans.items
            ≡ attributes_at self.old.bytes.items self.old.spans.items ++ attribute_of (name.now, text.now) ∷ []) }
    {
        let from = self.bytes.len();
        append_name(name, &mut self.bytes)?;
        let start = self.bytes.len();
        append_value(text, start, &mut self.bytes)?;
        self.spans.push(Span {
            name: start - from,
            value: self.bytes.len() - start,
        })?;
        Ok(())
    }

    /// The last attribute goes on.
    fn go_on(&mut self, text: &[u8], number: u32) -> Result<(), RpslFault>
        requires { AreSpansOf self.old.bytes.items self.old.spans.items }
        ensures spans { OnOk result (AreSpansOf self.new.bytes.items self.new.spans.items) }
        ensures taken { IsTakenAs number (gone_on (attributes_at self.old.bytes.items self.old.spans.items) text.now)
            (attributes_at self.new.bytes.items self.new.spans.items) result }
    {
        let Some(last) = self.spans.pop() else {
            return Err(RpslFault::Line(number));
        };
        let start = self.bytes.len() - last.value;
        append_value(text, start, &mut self.bytes)?;
        self.spans.push(Span {
            name: last.name,
            value: self.bytes.len() - start,
        })?;
        Ok(())
    }

    fn take_line(&mut self, line: &[u8], number: u32) -> Result<(), RpslFault>
        requires { AreSpansOf self.old.bytes.items self.old.spans.items }
        ensures spans { OnOk result (AreSpansOf self.new.bytes.items self.new.spans.items) }
        ensures taken { IsTakenAs number (after_line (attributes_at self.old.bytes.items self.old.spans.items) line.now)
            (attributes_at self.new.bytes.items self.new.spans.items) result }
    {
        if let Some(text) = continuation_of(line) {
            return self.go_on(text, number);
        }
        match name_and_rest(line) {
            Some((name, text)) => Ok(self.begin(name, text)?),
            None => Err(RpslFault::Line(number)),
        }
    }
}

impl Attrs {
    /// The attributes with one more line, which is a fault of this number where it neither begins an attribute nor goes on with
    /// the last one.
    pub fn with_line(self, line: &[u8], number: u32) -> Result<Attrs, RpslFault>
        ensures { IsLongerAs number (after_line self line.now) result }
    {
        let mut draft = Draft {
            bytes: self.bytes,
            spans: self.spans,
        };
        draft.make_room()?;
        draft.take_line(line, number)?;
        Ok(Attrs {
            bytes: draft.bytes,
            spans: draft.spans,
        })
    }
}

/// The attributes of an object's text, in order (RFC 2622 2). Each line ends with LF or CR LF; the last may lack its end, and
/// a carriage return that no LF follows belongs to the value. A text without lines has no attributes. It takes memory for two
/// vectors, however many attributes there are.
pub fn read_object(alloc: Global, text: &[u8]) -> Result<Attrs, RpslFault>
    ensures { IsReadAs (read_text text.now) result }
{
    let mut attrs = Attrs::new(alloc);
    let mut number: u32 = 1;
    let mut left = text;
    'lines: while let Some((line, rest)) = next_line(left) {
        attrs = attrs.with_line(line, number)?;
        number = number.saturating_add(1);
        left = rest;
    }
    Ok(attrs)
}
