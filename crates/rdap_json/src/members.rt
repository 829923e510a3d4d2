ghost use Rattle.std.specs.Prelude.{◌≡◌, ◌∷◌, [], OnOk};
ghost use Rattle.serde_json.specs.Data.{no_members, put, string, object};
ghost use Rattle.serde_json.specs.View.{view};
ghost use Rattle.rdap_json.specs.Made.{members_in};
ghost use Rattle.rdap_json.specs.Network.{conformance};
ghost use Rattle.rdap_json.specs.Tree.{array_of};

use serde_json::{Map, Value, json};
use std::alloc::{AllocError, Global};

/// The members of an object that is being made. They stand in the order of their names.
#[derive(Drop)]
pub(crate) struct Members {
    alloc: Global,
    map: Map<String, Value>,
}

impl Members {
    pub(crate) fn new(alloc: Global) -> Members
        ensures { members_in result ≡ no_members }
    {
        Members {
            alloc,
            map: Map::new(alloc),
        }
    }

    pub(crate) fn put(&mut self, name: &str, value: Value) -> Result<(), AllocError>
        ensures { OnOk result (members_in self.new ≡ put name.now (view value) (members_in self.old)) }
    {
        serde_json::put(&mut self.map, self.alloc, name, value)
    }

    pub(crate) fn put_text(&mut self, name: &str, text: &str) -> Result<(), AllocError>
        ensures { OnOk result (members_in self.new ≡ put name.now (string text.now) (members_in self.old)) }
    {
        let value = Value::try_from_str(self.alloc, text)?;
        self.put(name, value)
    }

    /// Puts an array of one item.
    pub(crate) fn put_one(&mut self, name: &str, item: Value) -> Result<(), AllocError>
        ensures { OnOk result (members_in self.new
            ≡ put name.now (array_of (view item ∷ [])) (members_in self.old)) }
    {
        let array = json!(in self.alloc; [item])?;
        self.put(name, array)
    }

    /// Puts an array of one text.
    pub(crate) fn put_one_text(&mut self, name: &str, text: &str) -> Result<(), AllocError>
        ensures { OnOk result (members_in self.new
            ≡ put name.now (array_of (string text.now ∷ [])) (members_in self.old)) }
    {
        let item = Value::try_from_str(self.alloc, text)?;
        self.put_one(name, item)
    }

    /// Puts which specifications the answer follows (RFC 9083 4.1).
    pub(crate) fn put_conformance(&mut self) -> Result<(), AllocError>
        ensures { OnOk result (members_in self.new
            ≡ put conformance.0 conformance.1 (members_in self.old)) }
    {
        self.put_one_text("rdapConformance", "rdap_level_0")
    }

    pub(crate) fn into_object(self) -> Value
        ensures { view result ≡ object (members_in self) }
    {
        Value::Object(self.map)
    }
}
