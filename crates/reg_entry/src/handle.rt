ghost use Rattle.std.specs.Prelude.{◌≡◌, ◌↔◌, IsTrue, IsSome, IfSome};
ghost use Rattle.std.specs.List.{list_all};
ghost use Rattle.reg_entry.specs.Handle.{is_handle, is_handle_byte};

use crate::Label;
use std::marker::Model;

/// The name under which a holder is known: a capital letter, then capitals, digits and `-`, 24 bytes at most.
#[derive(Clone, Copy, PartialEq, Eq, PartialOrd, Ord)]
pub struct Handle {
    label: Label<24>,
}

impl Model for Handle {
    ghost use Rattle.std.specs.Prelude.{List, ℕ, IsTrue};
    ghost use Rattle.reg_entry.specs.Handle.{is_handle};

    ghost Value = { List ℕ };

    ghost view = { λ h. h.label };

    ghost invariant = { λ h. IsTrue (is_handle h.label) };

    ghost inverse = { λ bytes. record { label = bytes } };
}

fn is_handle_byte(b: u8) -> bool
    ensures { result ≡ is_handle_byte b }
{
    matches!(b, b'A'..=b'Z' | b'0'..=b'9' | b'-')
}

fn all_handle_bytes(bytes: &[u8]) -> bool
    ensures { result ≡ list_all is_handle_byte bytes.now }
{
    bytes.iter().all(|b| is_handle_byte(*b))
}

fn is_handle(bytes: &[u8]) -> bool
    ensures { result ≡ is_handle bytes.now }
{
    match bytes {
        [b'A'..=b'Z', rest @ ..] => rest.len() <= 23 && all_handle_bytes(rest),
        _ => false,
    }
}

impl Handle {
    /// The handle that these bytes are, or nothing where they aren't of its form.
    pub fn read(bytes: &[u8]) -> Option<Handle>
        ensures form { IsSome result ↔ IsTrue (is_handle bytes.now) }
        ensures bytes { IfSome result (λ h. h ≡ bytes.now) }
    {
        if !is_handle(bytes) {
            return None;
        }
        let label = Label::new(bytes)?;
        Some(Handle { label })
    }

    pub fn bytes(&self) -> &[u8]
        ensures bytes { result.now ≡ self.now }
        ensures form { IsTrue (is_handle self.now) }
    {
        self.label.bytes()
    }
}
