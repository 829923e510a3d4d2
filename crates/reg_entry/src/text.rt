ghost use Rattle.std.specs.Prelude.{◌≡◌, ◌<◌, ◌↔◌, length, IsTrue, IsSome, IfSome};
ghost use Rattle.std.specs.List.{list_all};
ghost use Rattle.reg_entry.specs.Text.{is_text, is_text_byte, is_bare_of};

use crate::Label;
use std::marker::Model;

/// A text that is stored as it stands: 1 to 96 bytes of printable ASCII without `"`, `#` and `\`, and with no blank at
/// either end.
#[derive(Clone, Copy, PartialEq, Eq)]
pub struct Text {
    label: Label<96>,
}

impl Model for Text {
    ghost use Rattle.std.specs.Prelude.{List, ℕ, IsTrue};
    ghost use Rattle.reg_entry.specs.Text.{is_text};

    ghost Value = { List ℕ };

    ghost view = { λ t. t.label };

    ghost invariant = { λ t. IsTrue (is_text t.label) };

    ghost inverse = { λ bytes. record { label = bytes } };
}

fn is_text_byte(b: u8) -> bool
    ensures { result ≡ is_text_byte b }
{
    b' ' <= b && b <= b'~' && b != b'"' && b != b'#' && b != b'\\'
}

fn all_text_bytes(bytes: &[u8]) -> bool
    ensures { result ≡ list_all is_text_byte bytes.now }
{
    bytes.iter().all(|b| is_text_byte(*b))
}

/// Whether the byte stands neither first nor last.
pub(crate) fn is_bare_of(b: u8, bytes: &[u8]) -> bool
    requires { 0 < length bytes.now }
    ensures { result ≡ is_bare_of b bytes.now }
{
    bytes[0] != b && bytes[bytes.len() - 1] != b
}

fn is_text(bytes: &[u8]) -> bool
    ensures { result ≡ is_text bytes.now }
{
    1 <= bytes.len() && bytes.len() <= 96 && all_text_bytes(bytes) && is_bare_of(b' ', bytes)
}

impl Text {
    /// The text that these bytes are, or nothing where they aren't of its form.
    pub fn read(bytes: &[u8]) -> Option<Text>
        ensures form { IsSome result ↔ IsTrue (is_text bytes.now) }
        ensures bytes { IfSome result (λ t. t ≡ bytes.now) }
    {
        if !is_text(bytes) {
            return None;
        }
        let label = Label::new(bytes)?;
        Some(Text { label })
    }

    pub fn bytes(&self) -> &[u8]
        ensures bytes { result.now ≡ self.now }
        ensures form { IsTrue (is_text self.now) }
    {
        self.label.bytes()
    }
}
