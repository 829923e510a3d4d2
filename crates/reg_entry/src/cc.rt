ghost use Rattle.std.specs.Prelude.{◌≡◌, ◌↔◌, IsTrue, IsSome, IfSome};
ghost use Rattle.reg_entry.specs.Cc.{is_cc};

use crate::Label;
use std::marker::Model;

/// A country code of two capital letters (ISO 3166-1 alpha-2).
#[derive(Clone, Copy, PartialEq, Eq)]
pub struct Cc {
    label: Label<2>,
}

impl Model for Cc {
    ghost use Rattle.std.specs.Prelude.{List, ℕ, IsTrue};
    ghost use Rattle.reg_entry.specs.Cc.{is_cc};

    ghost Value = { List ℕ };

    ghost view = { λ c. c.label };

    ghost invariant = { λ c. IsTrue (is_cc c.label) };

    ghost inverse = { λ bytes. record { label = bytes } };
}

fn is_cc(bytes: &[u8]) -> bool
    ensures { result ≡ is_cc bytes.now }
{
    matches!(bytes, [b'A'..=b'Z', b'A'..=b'Z'])
}

impl Cc {
    /// The code that these bytes are, or nothing where they aren't of its form.
    pub fn read(bytes: &[u8]) -> Option<Cc>
        ensures form { IsSome result ↔ IsTrue (is_cc bytes.now) }
        ensures bytes { IfSome result (λ c. c ≡ bytes.now) }
    {
        if !is_cc(bytes) {
            return None;
        }
        let label = Label::new(bytes)?;
        Some(Cc { label })
    }

    pub fn bytes(&self) -> &[u8]
        ensures bytes { result.now ≡ self.now }
        ensures form { IsTrue (is_cc self.now) }
    {
        self.label.bytes()
    }
}
