//! The objects of a mirror by their keys.
ghost use Rattle.std.specs.Prelude.{◌≡◌, ◌++◌, [], codes, OnOk, OnErr};
ghost use Rattle.rpsl_text.specs.Object.{attributes_text};
ghost use Rattle.mirror_core.specs.Objects.{with_attributes, without_object, operated};

use board::Body;
use reg_entry::laws::keys_are_in_order;
use reg_entry::{Act, Key};
use rpsl_text::{Attrs, append_attribute};
use std::alloc::{AllocError, Global};
use std::collections::BTreeMap;
use std::collections::btree_map::Iter;
use std::marker::Model;

/// A map from keys to attributes, rising by key.
#[derive(Drop)]
pub struct Objects {
    map: BTreeMap<Key, Attrs>,
}

impl Model for Objects {
    ghost use Rattle.std.specs.Prelude.{List, ℕ};
    ghost use Rattle.reg_entry.specs.declared.object.Key.{Key};

    ghost Value = { List (Key × List (List ℕ × List ℕ)) };

    ghost view = { λ o. o.map.entries };
}

impl Objects {
    /// No objects, which take no memory.
    pub(crate) fn new(alloc: Global) -> Objects
        ensures { result ≡ [] }
    {
        Objects {
            map: BTreeMap::new(alloc),
        }
    }

    /// The object of this key is there from now on, in the place of one that was.
    pub(crate) fn insert(&mut self, key: Key, attributes: Attrs) -> Result<(), AllocError>
        ensures ok { OnOk result (self.new ≡ with_attributes self.old key attributes) }
        ensures err { OnErr result (self.new ≡ self.old) }
    {
        keys_are_in_order();
        self.map.insert(key, attributes)?;
        Ok(())
    }

    /// The object of this key is there no more.
    pub(crate) fn remove(&mut self, key: &Key)
        ensures { self.new ≡ without_object self.old key.now }
    {
        // Tells that the keys rise.
        let _ = self.map.len();
        let _gone = self.map.remove(key);
    }

    /// What an operation does.
    pub(crate) fn operate(
        &mut self,
        act: Act,
        key: Key,
        attributes: Attrs,
    ) -> Result<(), AllocError>
        ensures ok { OnOk result (self.new ≡ operated self.old act key attributes) }
        ensures err { OnErr result (self.new ≡ self.old) }
    {
        match act {
            Act::Add => self.insert(key, attributes),
            Act::Del => {
                self.remove(&key);
                Ok(())
            }
        }
    }

    /// Lends each key with its attributes, rising by key.
    pub fn walk(&self) -> ObjectWalk<'_>
        ensures { result ≡ self.now }
    {
        ObjectWalk {
            entries: self.map.iter(),
        }
    }
}

/// The objects that are left.
#[derive(Drop)]
pub struct ObjectWalk<'a> {
    entries: Iter<'a, Key, Attrs>,
}

impl<'a> Model for ObjectWalk<'a> {
    ghost use Rattle.std.specs.Prelude.{List, ℕ};
    ghost use Rattle.reg_entry.specs.declared.object.Key.{Key};

    ghost Value = { List (Key × List (List ℕ × List ℕ)) };

    ghost view = { λ walk. walk.entries };
}

impl<'a> Iterator for ObjectWalk<'a> {
    ghost use Rattle.std.specs.Iterator.{YieldsFirstBy, item_count};
    ghost use Rattle.mirror_core.specs.Objects.{lent_object};

    type Item = (&'a Key, &'a Attrs);

    ghost next_gives = { YieldsFirstBy lent_object (λ left. left) };

    ghost remaining = { item_count (λ left. left) };

    fn next(&mut self) -> Option<(&'a Key, &'a Attrs)> {
        self.entries.next()
    }
}

/// Appends an object's text, and an empty line. Where there is no memory for all of it, some of it may stand in the body.
pub fn append_attributes(attributes: &Attrs, body: &mut Body) -> Result<(), AllocError>
    ensures { OnOk result (body.new ≡ body.old ++ (attributes_text attributes.now ++ codes "\n")) }
{
    for (name, value) in attributes.walk() {
        append_attribute(name, value, body)?;
    }
    body.append(b"\n")?;
    Ok(())
}
