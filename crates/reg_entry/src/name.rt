ghost use Rattle.std.specs.Prelude.{◌≡◌, ◌↔◌, IsTrue, IsSome, IfSome};
ghost use Rattle.std.specs.List.{list_all};
ghost use Rattle.reg_entry.specs.Name.{is_name, is_name_byte};

use crate::Label;
use std::marker::Model;

/// The name of the registry or of one of its hostmasters: 1 to 24 small letters and digits.
#[derive(Clone, Copy, PartialEq, Eq, PartialOrd, Ord)]
pub struct Name {
    label: Label<24>,
}

impl Model for Name {
    ghost use Rattle.std.specs.Prelude.{List, ℕ, IsTrue};
    ghost use Rattle.reg_entry.specs.Name.{is_name};

    ghost Value = { List ℕ };

    ghost view = { λ n. n.label };

    ghost invariant = { λ n. IsTrue (is_name n.label) };

    ghost inverse = { λ bytes. record { label = bytes } };
}

/// A small letter or a digit.
pub(crate) fn is_name_byte(b: u8) -> bool
    ensures { result ≡ is_name_byte b }
{
    matches!(b, b'a'..=b'z' | b'0'..=b'9')
}

fn all_name_bytes(bytes: &[u8]) -> bool
    ensures { result ≡ list_all is_name_byte bytes.now }
{
    bytes.iter().all(|b| is_name_byte(*b))
}

fn is_name(bytes: &[u8]) -> bool
    ensures { result ≡ is_name bytes.now }
{
    1 <= bytes.len() && bytes.len() <= 24 && all_name_bytes(bytes)
}

impl Name {
    /// The name that these bytes are, or nothing where they aren't of its form.
    pub fn read(bytes: &[u8]) -> Option<Name>
        ensures form { IsSome result ↔ IsTrue (is_name bytes.now) }
        ensures bytes { IfSome result (λ n. n ≡ bytes.now) }
    {
        if !is_name(bytes) {
            return None;
        }
        let label = Label::new(bytes)?;
        Some(Name { label })
    }

    pub fn bytes(&self) -> &[u8]
        ensures bytes { result.now ≡ self.now }
        ensures form { IsTrue (is_name self.now) }
    {
        self.label.bytes()
    }
}
