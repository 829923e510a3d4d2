//! Attributes, kept in the memory of two vectors, however many there are.
ghost use Rattle.std.specs.Prelude.{◌≡◌, []};
ghost use Rattle.std.specs.Option.{option_map};
ghost use Rattle.rpsl_text.specs.Attributes.{last_of};
ghost use Rattle.rpsl_text.specs.Pairs.{pair_of};

use std::alloc::Global;
use std::marker::Model;

/// How many bytes a name and its value have.
#[derive(Clone, Copy, Drop)]
pub(crate) struct Span {
    pub(crate) name: usize,
    pub(crate) value: usize,
}

/// The attributes of an object, in the order in which they stand in its text. Names are in lower case; a value has single
/// blanks between its words, and none at its ends.
#[derive(Drop)]
pub struct Attrs {
    // All names and values, one behind the other.
    pub(crate) bytes: Vec<u8>,
    pub(crate) spans: Vec<Span>,
}

impl Model for Attrs {
    ghost use Rattle.std.specs.Prelude.{List, ℕ};
    ghost use Rattle.rpsl_text.specs.Attributes.{attributes_at, AreSpansOf};

    ghost Value = { List (List ℕ × List ℕ) };

    ghost view = { λ a. attributes_at a.bytes.items a.spans.items };

    ghost invariant = { λ a. AreSpansOf a.bytes.items a.spans.items };
}

/// The attributes that are left.
#[derive(Drop)]
pub struct PairWalk<'a> {
    bytes: &'a [u8],
    spans: &'a [Span],
}

impl<'a> Model for PairWalk<'a> {
    ghost use Rattle.std.specs.Prelude.{List, ℕ};
    ghost use Rattle.rpsl_text.specs.Attributes.{attributes_at, AreSpansOf};

    ghost Value = { List (List ℕ × List ℕ) };

    ghost view = { λ walk. attributes_at walk.bytes.now walk.spans.now };

    ghost invariant = { λ walk. AreSpansOf walk.bytes.now walk.spans.now };
}

impl Attrs {
    /// No attributes, which take no memory.
    pub fn new(alloc: Global) -> Attrs
        ensures { result ≡ [] }
    {
        Attrs {
            bytes: Vec::new(alloc),
            spans: Vec::new(alloc),
        }
    }

    /// The name and the value that stand last.
    pub fn last(&self) -> Option<(&[u8], &[u8])>
        ensures { option_map pair_of result ≡ last_of self.now }
    {
        let [.., last] = self.spans.as_slice() else {
            return None;
        };
        let bytes = self.bytes.as_slice();
        let (front, value) = bytes.split_at(bytes.len() - last.value);
        let (_, name) = front.split_at(front.len() - last.name);
        Some((name, value))
    }

    /// Lends each name and its value, in order.
    pub fn walk(&self) -> PairWalk<'_>
        ensures { result ≡ self.now }
    {
        PairWalk {
            bytes: self.bytes.as_slice(),
            spans: self.spans.as_slice(),
        }
    }
}

impl<'a> Iterator for PairWalk<'a> {
    ghost use Rattle.std.specs.Iterator.{YieldsFirstBy, item_count};
    ghost use Rattle.rpsl_text.specs.Pairs.{pair_of};

    type Item = (&'a [u8], &'a [u8]);

    ghost next_gives = { YieldsFirstBy pair_of (λ left. left) };

    ghost remaining = { item_count (λ left. left) };

    fn next(&mut self) -> Option<(&'a [u8], &'a [u8])> {
        let [span, spans @ ..] = self.spans else {
            return None;
        };
        let (name, rest) = self.bytes.split_at(span.name);
        let (value, bytes) = rest.split_at(span.value);
        self.bytes = bytes;
        self.spans = spans;
        Some((name, value))
    }
}
