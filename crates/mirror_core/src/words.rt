//! The words of the lines round objects.
ghost use Rattle.std.specs.Prelude.{◌≡◌, length};
ghost use Rattle.rpsl_text.specs.Lines.{words};
ghost use Rattle.mirror_core.specs.Framing.{start_with, start_of, names_another, act_of, operation_with, operation_of};

use addr_text::{parted_at, read_long_decimal};
use reg_entry::Act;
use rpsl_text::next_word;
use std::marker::Model;

/// What `%START` says.
#[derive(Drop)]
pub(crate) struct StartWords<'a> {
    pub(crate) version: u64,
    pub(crate) source: &'a [u8],
    pub(crate) first: u64,
    pub(crate) last: u64,
}

impl<'a> Model for StartWords<'a> {
    ghost use Rattle.mirror_core.specs.Framing.{Start};

    ghost Value = { Start };

    ghost view = { λ s. record { version = s.version; source = s.source.now; first = s.first; last = s.last } };
}

#[tactic(auto, unfolding(crate::specs::Framing::start_with))]
fn start_with<'a>(version: &[u8], source: &'a [u8], range: &[u8]) -> Option<StartWords<'a>>
    ensures { result ≡ start_with version.now source.now range.now }
{
    let version = read_long_decimal(version)?;
    let (first, last) = parted_at(b'-', range)?;
    let first = read_long_decimal(first)?;
    let last = read_long_decimal(last)?;
    Some(StartWords {
        version,
        source,
        first,
        last,
    })
}

/// What the words behind `%START` say.
pub(crate) fn start_of(behind: &[u8]) -> Option<StartWords<'_>>
    ensures { result ≡ start_of (words behind.now) }
{
    let (label, rest) = next_word(behind)?;
    let (version, rest) = next_word(rest)?;
    let (source, rest) = next_word(rest)?;
    let (range, _) = next_word(rest)?;
    if label != b"Version:".as_slice() {
        return None;
    }
    start_with(version, source, range)
}

/// Whether the first word behind `%END` is another source.
pub(crate) fn names_another(source: &[u8], behind: &[u8]) -> bool
    ensures { result ≡ names_another source.now (words behind.now) }
{
    match next_word(behind) {
        Some((named, _)) => named != source,
        None => false,
    }
}

fn act_of(word: &[u8]) -> Option<Act>
    ensures { result ≡ act_of word.now }
{
    if word == b"ADD".as_slice() {
        Some(Act::Add)
    } else if word == b"DEL".as_slice() {
        Some(Act::Del)
    } else {
        None
    }
}

#[tactic(auto, unfolding(crate::specs::Framing::operation_with))]
fn operation_with(word: &[u8], number: &[u8]) -> Option<(Act, u64)>
    ensures { result ≡ operation_with word.now number.now }
{
    let act = act_of(word)?;
    let serial = read_long_decimal(number)?;
    Some((act, serial))
}

/// An act and a serial, where the line has just these two words.
pub(crate) fn operation_of(line: &[u8]) -> Option<(Act, u64)>
    ensures { result ≡ operation_of (words line.now) }
{
    let (word, rest) = next_word(line)?;
    let (number, rest) = next_word(rest)?;
    if next_word(rest).is_some() {
        return None;
    }
    operation_with(word, number)
}
