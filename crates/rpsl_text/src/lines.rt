//! A line of an object's text by itself.
ghost use Rattle.std.specs.Prelude.{◌≡◌, ◌==◌, ◌<◌, ◌≤◌, ◌++◌, ◌∷◌, [], false, take, drop, length, map, MatchOption, OnOk};
ghost use Rattle.std.specs.Option.{option_map, option_copied};
ghost use Rattle.std.specs.Char.{to_ascii_lowercase};
ghost use Rattle.std.specs.List.{list_all, position};
ghost use Rattle.std.specs.Str.Lines.{lines, strip_carriage_return};
ghost use Rattle.rpsl_text.specs.Lines.{is_blank, before_comment, words, with_word, continued, is_name_byte, is_name, continuation_of, name_and_rest};
ghost use Rattle.rpsl_text.specs.Words.{BeginsWithWord, is_spaced, spaced_value};

use addr_text::parted_at;
use std::alloc::AllocError;

/// The line without the one carriage return at its end.
fn without_return(line: &[u8]) -> &[u8]
    ensures { result.now ≡ strip_carriage_return line.now }
{
    match line {
        [front @ .., b'\r'] => front,
        _ => line,
    }
}

/// The first line of the text, without its end, and what stands behind it.
pub(crate) fn next_line(text: &[u8]) -> Option<(&[u8], &[u8])>
    ensures { MatchOption result (lines text.now ≡ [])
        (λ parts. (lines text.now ≡ parts.0.now ∷ lines parts.1.now) × (length parts.1.now < length text.now)) }
{
    if text.is_empty() {
        return None;
    }
    match parted_at(b'\n', text) {
        Some((line, rest)) => Some((without_return(line), rest)),
        None => Some((text, &[])),
    }
}

fn is_blank(b: u8) -> bool
    ensures { result ≡ is_blank b }
{
    b == b' ' || b == b'\t'
}

fn are_blanks(text: &[u8]) -> bool
    ensures { result ≡ list_all is_blank text.now }
{
    text.iter().all(|b| is_blank(*b))
}

/// The text with which this line goes on with a value (RFC 2622 2).
pub fn continuation_of(line: &[u8]) -> Option<&[u8]>
    ensures { option_copied result ≡ continuation_of line.now }
{
    match line {
        [b'+', text @ ..] => Some(text),
        [b' ' | b'\t', text @ ..] if !are_blanks(text) => Some(text),
        _ => None,
    }
}

fn is_name_byte(b: u8) -> bool
    ensures { result ≡ is_name_byte b }
{
    matches!(b, b'a'..=b'z' | b'A'..=b'Z' | b'0'..=b'9' | b'-')
}

fn are_name_bytes(name: &[u8]) -> bool
    ensures { result ≡ list_all is_name_byte name.now }
{
    name.iter().all(|b| is_name_byte(*b))
}

fn is_name(name: &[u8]) -> bool
    ensures { result ≡ is_name name.now }
{
    !name.is_empty() && are_name_bytes(name)
}

/// The name with which the line begins, as it stands, and what stands behind its colon.
pub(crate) fn name_and_rest(line: &[u8]) -> Option<(&[u8], &[u8])>
    ensures { option_map (λ parts. (parts.0.now, parts.1.now)) result ≡ name_and_rest line.now }
{
    let (name, rest) = parted_at(b':', line)?;
    if is_name(name) {
        Some((name, rest))
    } else {
        None
    }
}

fn comment_in(text: &[u8]) -> Option<usize>
    ensures { result ≡ position (λ b. b == 35) text.now }
{
    text.iter().position(|b| *b == b'#')
}

fn before_comment(text: &[u8]) -> &[u8]
    ensures { result.now ≡ before_comment text.now }
{
    match comment_in(text) {
        Some(at) => &text[..at],
        None => text,
    }
}

fn without_blanks(text: &[u8]) -> &[u8]
    ensures words { words result.now ≡ words text.now }
    ensures front { BeginsWithWord result.now }
    ensures shorter { length result.now ≤ length text.now }
{
    let mut left = text;
    'blanks: while let [b' ' | b'\t', rest @ ..] = left {
        left = rest;
    }
    left
}

fn blank_in(text: &[u8]) -> Option<usize>
    ensures { result ≡ position is_blank text.now }
{
    text.iter().position(|b| is_blank(*b))
}

/// Parts a text at the blank behind the word with which it begins.
fn part_at_blank(text: &[u8]) -> (&[u8], &[u8])
    requires { BeginsWithWord text.now }
    ensures words { 0 < length text.now → words text.now ≡ result.0.now ∷ words result.1.now }
    ensures shorter { 0 < length text.now → length result.1.now < length text.now }
{
    match blank_in(text) {
        Some(end) => (&text[..end], &text[end + 1..]),
        None => (text, &[]),
    }
}

/// The first word of the text, and what stands behind it. Blanks and tabs part words.
pub fn next_word(text: &[u8]) -> Option<(&[u8], &[u8])>
    ensures { MatchOption result (words text.now ≡ [])
        (λ parts. (words text.now ≡ parts.0.now ∷ words parts.1.now) × (length parts.1.now < length text.now)) }
{
    let text = without_blanks(text);
    if text.is_empty() {
        return None;
    }
    Some(part_at_blank(text))
}

/// Appends a name in lower case.
pub(crate) fn append_name(name: &[u8], bytes: &mut Vec<u8>) -> Result<(), AllocError>
    ensures { OnOk result (bytes.new.items ≡ bytes.old.items ++ map to_ascii_lowercase name.now) }
{
    let start = bytes.len();
    bytes.extend_from_slice(name)?;
    let appended = &mut bytes.as_mut_slice()[start..];
    appended.make_ascii_lowercase();
    Ok(())
}

/// The value that begins at this place, and is last, goes on with the word.
fn append_word(word: &[u8], start: usize, bytes: &mut Vec<u8>) -> Result<(), AllocError>
    requires { start ≤ length bytes.old.items }
    ensures front { OnOk result (take start bytes.new.items ≡ take start bytes.old.items) }
    ensures value { OnOk result (drop start bytes.new.items ≡ with_word (drop start bytes.old.items) word.now) }
    ensures start { OnOk result (start ≤ length bytes.new.items) }
{
    if bytes.len() > start {
        bytes.push(b' ')?;
    }
    bytes.extend_from_slice(word)?;
    Ok(())
}

/// Whether the text has words, single blanks between them, none at its ends, and no comment.
fn is_spaced(text: &[u8]) -> bool
    ensures { result ≡ is_spaced false text.now }
{
    let mut inside = false;
    for b in text {
        inside = match *b {
            b' ' if inside => false,
            b' ' | b'\t' | b'#' => return false,
            _ => true,
        };
    }
    inside
}

/// What stands behind one blank as values are written, so that its words can be copied at once.
fn spaced_value(text: &[u8]) -> Option<&[u8]>
    ensures { option_copied result ≡ spaced_value text.now }
{
    match text {
        [b' ', value @ ..] if is_spaced(value) => Some(value),
        _ => None,
    }
}

/// The value that begins at this place, and is last, goes on with the words of the text.
fn append_words(text: &[u8], start: usize, bytes: &mut Vec<u8>) -> Result<(), AllocError>
    requires { start ≤ length bytes.old.items }
    ensures front { OnOk result (take start bytes.new.items ≡ take start bytes.old.items) }
    ensures value { OnOk result (drop start bytes.new.items ≡ continued (drop start bytes.old.items) text.now) }
    ensures start { OnOk result (start ≤ length bytes.new.items) }
{
    let mut left = before_comment(text);
    'words: while let Some((word, rest)) = next_word(left) {
        append_word(word, start, bytes)?;
        left = rest;
    }
    Ok(())
}

/// The value that begins at this place, and is last, goes on with the text.
pub(crate) fn append_value(text: &[u8], start: usize, bytes: &mut Vec<u8>) -> Result<(), AllocError>
    requires { start ≤ length bytes.old.items }
    ensures front { OnOk result (take start bytes.new.items ≡ take start bytes.old.items) }
    ensures value { OnOk result (drop start bytes.new.items ≡ continued (drop start bytes.old.items) text.now) }
    ensures start { OnOk result (start ≤ length bytes.new.items) }
{
    match spaced_value(text) {
        Some(value) => append_word(value, start, bytes),
        None => append_words(text, start, bytes),
    }
}
