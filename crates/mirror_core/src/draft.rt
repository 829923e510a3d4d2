//! A stream that is being read, and the object of its next operation.
ghost use Rattle.std.specs.Prelude.{◌≡◌, codes, bytes_eq};
ghost use Rattle.std.specs.List.{list_any};
ghost use Rattle.mirror_core.specs.Draft.{is_source_attribute, ends_foreign, class_fault, attribute_fault, object_key};
ghost use Rattle.mirror_core.specs.Framing.{no_lines};

use crate::FeedFault;
use crate::keys::key_of_attribute;
use reg_entry::{Act, Key};
use rpsl_text::Attrs;
use std::alloc::Global;
use std::marker::Model;

/// The serials of a stream that are still to come. The next goes one past the last.
#[derive(Clone, Copy)]
pub(crate) struct Serials {
    pub(crate) next: u128,
    pub(crate) last: u64,
}

/// An object that is being read.
#[derive(Drop)]
pub(crate) struct Draft {
    pub(crate) act: Act,
    pub(crate) attributes: Attrs,
    pub(crate) lines: u32,
    // The places of its first line, and of the line on which its last attribute begins.
    pub(crate) first: u64,
    pub(crate) last: u64,
    // The key that the first attribute spells, once it has been read. It has a place of its own, since it is large, and a draft
    // is moved with each line.
    pub(crate) key: Option<Box<Key>>,
}

impl Model for Draft {
    ghost use Rattle.std.specs.Prelude.{◌≡◌, Some, IfSome};
    ghost use Rattle.mirror_core.specs.Draft.{object_key};
    ghost use Rattle.mirror_core.specs.Mirror.{PlainDraft};

    ghost Value = { PlainDraft };

    ghost view = { λ d. record { act = d.act; attributes = d.attributes; lines = d.lines; first = d.first; last = d.last } };

    ghost invariant = { λ d. IfSome d.key (λ k. object_key d.attributes ≡ Some k.value) };
}

#[derive(Drop)]
pub(crate) struct Stream {
    pub(crate) serials: Serials,
    pub(crate) draft: Option<Draft>,
}

impl Model for Stream {
    ghost use Rattle.std.specs.Prelude.{◌≤◌, IfSome};
    ghost use Rattle.mirror_core.specs.Mirror.{PlainStream};

    ghost Value = { PlainStream };

    ghost view = { λ s. record { next = s.serials.next; last = s.serials.last; draft = s.draft } };

    ghost invariant = { λ s. IfSome s.draft (λ _. s.serials.next ≤ s.serials.last) };
}

// Byte by byte, since a call of a comparison costs more than these six.
#[tactic(auto, using(crate::proofs::Sources::spells_source))]
fn is_source(name: &[u8]) -> bool
    ensures { result ≡ bytes_eq name.now (codes "source") }
{
    matches!(name, [b's', b'o', b'u', b'r', b'c', b'e'])
}

/// Whether the last attribute names another source.
fn ends_foreign(source: &[u8], attributes: &Attrs) -> bool
    ensures { result ≡ ends_foreign source.now attributes.now }
{
    match attributes.last() {
        Some((name, value)) => is_source(name) && value != source,
        None => false,
    }
}

impl Draft {
    /// No line of the object has been read.
    pub(crate) fn new(alloc: Global, act: Act) -> Draft
        ensures { result ≡ no_lines act }
    {
        Draft {
            act,
            attributes: Attrs::new(alloc),
            lines: 0,
            first: 0,
            last: 0,
            key: None,
        }
    }

    /// The object's key, by its first attribute.
    pub(crate) fn key(&self) -> Option<Key>
        ensures { result ≡ object_key self.now.attributes }
    {
        match &self.key {
            Some(key) => Some(**key),
            None => object_key(&self.attributes),
        }
    }

    /// Keeps the key, so that it is read once. Where there is no memory for it, it is read again.
    fn keep_key(&mut self, alloc: Global)
        ensures { self.new ≡ self.old }
    {
        if let Some(key) = object_key(&self.attributes) {
            self.key = Box::new(alloc, key).ok();
        }
    }

    /// The first attribute alone has to spell a key of its class.
    fn class_fault(&self) -> Option<FeedFault>
        ensures { result ≡ class_fault self.now self.now.attributes }
    {
        if self.key.is_some() {
            return None;
        }
        let mut attributes = self.attributes.walk();
        let (name, value) = attributes.next()?;
        if attributes.next().is_some() || key_of_attribute(name, value).is_some() {
            return None;
        }
        Some(FeedFault::Spelling { place: self.first })
    }

    /// What is wrong with the last attribute, once the line behind it doesn't go on with it.
    pub(crate) fn attribute_fault(&self, source: &[u8]) -> Option<FeedFault>
        ensures { result ≡ attribute_fault source.now self.now }
    {
        if ends_foreign(source, &self.attributes) {
            return Some(FeedFault::ForeignSource { place: self.last });
        }
        self.class_fault()
    }

    /// The same, where the key is kept on the way.
    pub(crate) fn settle(&mut self, alloc: Global, source: &[u8]) -> Option<FeedFault>
        ensures fault { result ≡ attribute_fault source.now self.old }
        ensures kept { self.new ≡ self.old }
    {
        if self.key.is_none() {
            self.keep_key(alloc);
        }
        self.attribute_fault(source)
    }
}

/// The object's key, by its first attribute.
fn object_key(attributes: &Attrs) -> Option<Key>
    ensures { result ≡ object_key attributes.now }
{
    let (name, value) = attributes.walk().next()?;
    key_of_attribute(name, value)
}

/// Whether one of the attributes names the source.
pub(crate) fn has_source(attributes: &Attrs) -> bool
    ensures { result ≡ list_any is_source_attribute attributes.now }
{
    for (name, _) in attributes.walk() {
        if is_source(name) {
            return true;
        }
    }
    false
}
