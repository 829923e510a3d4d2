ghost use Rattle.std.specs.Prelude.{◌≡◌, ◌==◌, ◌↔◌, drop, IsTrue, IsSome, IfSome};
ghost use Rattle.std.specs.List.{list_all};
ghost use Rattle.reg_entry.specs.Handle.{is_capital};
ghost use Rattle.policy_table.specs.Token.{is_token_mark, is_token_byte, token_front, has_token_form, is_token};

use reg_entry::Label;
use std::marker::Model;

/// The secret by which a hostmaster is known: 8 to 64 bytes in the form of a bearer token (RFC 6750 2.1).
#[derive(Clone, Copy)]
pub(crate) struct Token {
    label: Label<96>,
}

impl Model for Token {
    ghost use Rattle.std.specs.Prelude.{List, ℕ, IsTrue};
    ghost use Rattle.policy_table.specs.Token.{is_token};

    ghost Value = { List ℕ };

    ghost view = { λ t. t.label };

    ghost invariant = { λ t. IsTrue (is_token t.label) };

    ghost inverse = { λ bytes. record { label = bytes } };
}

fn is_token_byte(b: u8) -> bool
    ensures { result ≡ is_token_byte b }
{
    matches!(b, b'A'..=b'Z' | b'a'..=b'z' | b'0'..=b'9')
        || matches!(b, b'-' | b'.' | b'_' | b'~' | b'+' | b'/')
}

fn token_front(bytes: &[u8]) -> usize
    ensures { result ≡ token_front bytes.now }
{
    bytes.iter().take_while(|b| is_token_byte(**b)).count()
}

fn all_padding(bytes: &[u8]) -> bool
    ensures { result ≡ list_all (λ b. b == 61) bytes.now }
{
    bytes.iter().all(|b| *b == b'=')
}

fn is_token(bytes: &[u8]) -> bool
    ensures { result ≡ is_token bytes.now }
{
    if bytes.len() < 8 || bytes.len() > 64 {
        return false;
    }
    let front = token_front(bytes);
    1 <= front && all_padding(&bytes[front..])
}

impl Token {
    /// The token that these bytes are, or nothing where they aren't of its form.
    pub(crate) fn read(bytes: &[u8]) -> Option<Token>
        ensures form { IsSome result ↔ IsTrue (is_token bytes.now) }
        ensures bytes { IfSome result (λ t. t ≡ bytes.now) }
    {
        if !is_token(bytes) {
            return None;
        }
        let label = Label::new(bytes)?;
        Some(Token { label })
    }

    pub(crate) fn bytes(&self) -> &[u8]
        ensures { result.now ≡ self.now }
    {
        self.label.bytes()
    }
}
