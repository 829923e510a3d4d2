//! A holder as an entity with a jCard (RFC 9083 5.1, RFC 7095).
ghost use Rattle.std.specs.Prelude.{◌≡◌, IfOk};
ghost use Rattle.serde_json.specs.View.{view};
ghost use Rattle.rdap_json.specs.Network.{property_tree, vcard_tree, entity_tree};

use crate::texts::{handle_text, plain_text};
use reg_entry::Holder;
use serde_json::{Value, json};
use std::alloc::{AllocError, Global};

/// A property without parameters (RFC 7095 3.3).
fn property_value(alloc: Global, name: &str, value: &str) -> Result<Value, AllocError>
    ensures { IfOk result (λ v. view v ≡ property_tree name.now value.now) }
{
    let parameters = json!(in alloc; {})?;
    json!(in alloc; [name, parameters, "text", value])
}

fn vcard_value(alloc: Global, holder: &Holder) -> Result<Value, AllocError>
    ensures { IfOk result (λ v. view v ≡ vcard_tree holder.now) }
{
    let version = property_value(alloc, "version", "4.0")?;
    let name = property_value(alloc, "fn", plain_text(&holder.name))?;
    let kind = property_value(alloc, "kind", "org")?;
    let email = property_value(alloc, "email", plain_text(&holder.email))?;
    json!(in alloc; ["vcard", [version, name, kind, email]])
}

/// The holder as the one for whom numbers are registered.
pub(crate) fn entity_value(alloc: Global, holder: &Holder) -> Result<Value, AllocError>
    ensures { IfOk result (λ v. view v ≡ entity_tree holder.now) }
{
    let vcard = vcard_value(alloc, holder)?;
    json!(in alloc; {
        "handle": handle_text(&holder.handle),
        "objectClassName": "entity",
        "roles": ["registrant"],
        "vcardArray": vcard
    })
}
