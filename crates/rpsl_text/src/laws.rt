//! What was written is read again, proved as contracts of functions that do nothing.
ghost use Rattle.std.specs.Prelude.{◌≡◌, ℕ, List, Ok, IsTrue};
ghost use Rattle.std.specs.List.{All, AllByRecursion};
ghost use Rattle.reg_entry.specs.declared.object.Object.{Object as TheObject};
ghost use Rattle.reg_entry.specs.Host.{is_host};
ghost use Rattle.rpsl_text.specs.Forms.{HasFields, HasHandle, HasForms, is_source};
ghost use Rattle.rpsl_text.specs.Alone.{IsReadAlone};
ghost use Rattle.rpsl_text.specs.Object.{attributes_of, object_text};
ghost use Rattle.rpsl_text.specs.Plain.{plain_attributes};
ghost use Rattle.rpsl_text.specs.Reading.{read_text};

use reg_entry::{Handle, Holder, Host, Object};

/// The text of an object is read as the object's attributes, in which each run of blanks in a value is one.
pub fn written_is_read()
    ensures { (o : TheObject) (source : List ℕ) → HasForms o → IsTrue (is_source source)
        → read_text (object_text o source) ≡ Ok (plain_attributes o source) }
{}

/// Each line of the text of an object is read by itself as its attribute, and is short.
pub fn lines_are_read_alone()
    ensures { (o : TheObject) (source : List ℕ) → HasForms o → IsTrue (is_source source)
        → AllByRecursion IsReadAlone (attributes_of o source) }
{}

/// Tells callers that the holder's fields are of their forms, as their types keep them.
pub fn has_fields(holder: &Holder)
    ensures { HasFields holder.now }
{
    let _ = holder.handle.bytes();
    let _ = holder.cc.bytes();
    let _ = holder.name.bytes();
    let _ = holder.email.bytes();
}

fn has_handle(handle: &Option<Handle>)
    ensures { HasHandle handle.now }
{
    if let Some(handle) = handle {
        let _ = handle.bytes();
    }
}

/// Tells callers that the hosts are of their form, as their type keeps it.
pub fn are_hosts(hosts: &[Host])
    ensures { All (λ host. IsTrue (is_host host)) hosts.now }
{
    for host in hosts {
        let _ = host.bytes();
    }
}

/// Tells callers that the object's parts are of their forms, as their types keep them.
pub fn has_forms(o: &Object)
    ensures { HasForms o.now }
{
    match o {
        Object::Org { holder, .. } => has_fields(holder),
        Object::Block { range, handle, .. } => {
            let _ = range.first();
            has_handle(handle);
        }
        Object::Sub { range, handle, .. } => {
            let _ = range.first();
            let _ = handle.bytes();
        }
        Object::Cut { servers, .. } => are_hosts(servers.hosts()),
    }
}
