ghost use Rattle.std.specs.Prelude.{◌≡◌, Some, None, if◌then◌else◌};
ghost use Rattle.policy_table.specs.Hostmasters.{is_name_and_key};

use crate::token::Token;
use reg_entry::Name;
use std::marker::Model;

/// Who may ask the register for changes, and the token that says so.
#[derive(Clone, Copy)]
pub(crate) struct Hostmaster {
    name: Name,
    token: Token,
}

impl Model for Hostmaster {
    ghost use Rattle.std.specs.Prelude.{List, ℕ};

    ghost Value = { List ℕ × List ℕ };

    ghost view = { λ h. (h.name, h.token) };

    ghost inverse = { λ h. record { name = h.0; token = h.1 } };
}

impl Hostmaster {
    /// The hostmaster of this name and this token, or nothing where one of them isn't of its form.
    pub(crate) fn read(name: &[u8], token: &[u8]) -> Option<Hostmaster>
        ensures { result ≡ (if is_name_and_key (name.now, token.now) then Some (name.now, token.now) else None) }
    {
        let name = Name::read(name)?;
        let token = Token::read(token)?;
        Some(Hostmaster { name, token })
    }

    pub(crate) fn name(&self) -> &Name
        ensures { result.now ≡ self.now.0 }
    {
        &self.name
    }

    pub(crate) fn token(&self) -> &[u8]
        ensures { result.now ≡ self.now.1 }
    {
        self.token.bytes()
    }
}
