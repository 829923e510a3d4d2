//! The first words of lines.
ghost use Rattle.std.specs.Prelude.{◌≡◌, bytes_eq};
ghost use Rattle.desk_lang.specs.Grammar.{verb_of};

/// The first word of a line that asks for something.
#[derive(Clone, Copy)]
pub enum Verb {
    Receive,
    Holder,
    Edit,
    Delegate,
    Reserve,
    Unreserve,
    Sub,
    Unsub,
    Return,
    Release,
    Split,
    Join,
    Transfer,
    Reverse,
    Unreverse,
    Show,
    Due,
    Day,
    By,
}

/// The verb that the word is.
pub fn read_verb(word: &[u8]) -> Option<Verb>
    ensures { result ≡ verb_of word.now }
{
    if is_text(word, b"receive") {
        Some(Verb::Receive)
    } else if is_text(word, b"holder") {
        Some(Verb::Holder)
    } else if is_text(word, b"edit") {
        Some(Verb::Edit)
    } else if is_text(word, b"delegate") {
        Some(Verb::Delegate)
    } else if is_text(word, b"reserve") {
        Some(Verb::Reserve)
    } else if is_text(word, b"unreserve") {
        Some(Verb::Unreserve)
    } else if is_text(word, b"sub") {
        Some(Verb::Sub)
    } else if is_text(word, b"unsub") {
        Some(Verb::Unsub)
    } else if is_text(word, b"return") {
        Some(Verb::Return)
    } else if is_text(word, b"release") {
        Some(Verb::Release)
    } else if is_text(word, b"split") {
        Some(Verb::Split)
    } else if is_text(word, b"join") {
        Some(Verb::Join)
    } else if is_text(word, b"transfer") {
        Some(Verb::Transfer)
    } else if is_text(word, b"reverse") {
        Some(Verb::Reverse)
    } else if is_text(word, b"unreverse") {
        Some(Verb::Unreverse)
    } else if is_text(word, b"show") {
        Some(Verb::Show)
    } else if is_text(word, b"due") {
        Some(Verb::Due)
    } else if is_text(word, b"day") {
        Some(Verb::Day)
    } else if is_text(word, b"by") {
        Some(Verb::By)
    } else {
        None
    }
}

/// Whether the word is this text. A function of its own, since what each comparison lends is followed through all that come
/// after it.
pub(crate) fn is_text(word: &[u8], text: &[u8]) -> bool
    ensures { result ≡ bytes_eq word.now text.now }
{
    word == text
}
