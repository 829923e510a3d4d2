ghost use Rattle.std.specs.Prelude.{◌≡◌, ◌↔◌, length, IsTrue, IsSome, IfSome};
ghost use Rattle.std.specs.List.{list_all};
ghost use Rattle.reg_entry.specs.Host.{is_host, is_host_byte, is_host_label, host_labels};

use crate::Label;
use crate::name::is_name_byte;
use crate::text::is_bare_of;
use std::marker::Model;

/// The full name of a name server, without its last dot: two or more labels of 1 to 63 small letters, digits and `-`
/// with no `-` at either end (RFC 1123 2.1), parted by dots, 96 bytes at most.
#[derive(Clone, Copy, PartialEq, Eq)]
pub struct Host {
    label: Label<96>,
}

impl Model for Host {
    ghost use Rattle.std.specs.Prelude.{List, ℕ, IsTrue};
    ghost use Rattle.reg_entry.specs.Host.{is_host};

    ghost Value = { List ℕ };

    ghost view = { λ h. h.label };

    ghost invariant = { λ h. IsTrue (is_host h.label) };

    ghost inverse = { λ bytes. record { label = bytes } };
}

fn is_host_byte(b: u8) -> bool
    ensures { result ≡ is_host_byte b }
{
    is_name_byte(b) || b == b'-'
}

fn all_host_bytes(bytes: &[u8]) -> bool
    ensures { result ≡ list_all is_host_byte bytes.now }
{
    bytes.iter().all(|b| is_host_byte(*b))
}

fn is_host_label(bytes: &[u8]) -> bool
    ensures { result ≡ is_host_label bytes.now }
{
    1 <= bytes.len() && bytes.len() <= 63 && all_host_bytes(bytes) && is_bare_of(b'-', bytes)
}

fn count_labels(bytes: &[u8]) -> usize
    ensures { result ≡ length (host_labels bytes.now) }
{
    bytes.split(|b| *b == b'.').count()
}

fn all_host_labels(bytes: &[u8]) -> bool
    ensures { result ≡ list_all is_host_label (host_labels bytes.now) }
{
    bytes
        .split(|b| *b == b'.')
        .all(|label| is_host_label(label))
}

fn is_host(bytes: &[u8]) -> bool
    ensures { result ≡ is_host bytes.now }
{
    bytes.len() <= 96 && 2 <= count_labels(bytes) && all_host_labels(bytes)
}

impl Host {
    /// The host that these bytes name, or nothing where they aren't of its form.
    pub fn read(bytes: &[u8]) -> Option<Host>
        ensures form { IsSome result ↔ IsTrue (is_host bytes.now) }
        ensures bytes { IfSome result (λ h. h ≡ bytes.now) }
    {
        if !is_host(bytes) {
            return None;
        }
        let label = Label::new(bytes)?;
        Some(Host { label })
    }

    pub fn bytes(&self) -> &[u8]
        ensures bytes { result.now ≡ self.now }
        ensures form { IsTrue (is_host self.now) }
    {
        self.label.bytes()
    }
}
