//! The line that asks.
ghost use Rattle.std.specs.Prelude.{◌≡◌};
ghost use Rattle.std.specs.Option.{option_copied};
ghost use Rattle.std.specs.List.{list_all};
ghost use Rattle.nrtm_stream.specs.Query.{is_query_byte, is_query_source};
ghost use Rattle.nrtm_stream.specs.Ask.{behind_flag, source_of, last_of, serials_of, query_of, ask_of, IsAskedOf};

use crate::laws::queries_are_spelled;
use crate::{Ask, AskFault};
use addr_text::{parted_at, read_long_decimal};
use std::marker::Model;

/// What a line asks for, of whatever source and in whatever version.
#[derive(Drop)]
struct Query<'a> {
    source: &'a [u8],
    version: u64,
    ask: Ask,
}

impl<'a> Model for Query<'a> {
    ghost use Rattle.nrtm_stream.specs.Query.{PlainQuery};

    ghost Value = { PlainQuery };

    ghost view = { λ q. record { source = q.source.now; version = q.version; ask = q.ask } };
}

fn behind_flag(line: &[u8]) -> Option<&[u8]>
    ensures { option_copied result ≡ behind_flag line.now }
{
    match line {
        [b'-', b'g', b' ', words @ ..] => Some(words),
        _ => None,
    }
}

fn is_query_byte(b: u8) -> bool
    ensures { result ≡ is_query_byte b }
{
    !matches!(b, b' ' | b'\t' | b':')
}

fn are_query_bytes(text: &[u8]) -> bool
    ensures { result ≡ list_all is_query_byte text.now }
{
    text.iter().all(|b| is_query_byte(*b))
}

fn is_query_source(text: &[u8]) -> bool
    ensures { result ≡ is_query_source text.now }
{
    !text.is_empty() && are_query_bytes(text)
}

fn source_of(text: &[u8]) -> Option<&[u8]>
    ensures { option_copied result ≡ source_of text.now }
{
    if is_query_source(text) {
        Some(text)
    } else {
        None
    }
}

fn read_last(text: &[u8]) -> Option<Option<u64>>
    ensures { result ≡ last_of text.now }
{
    if text == b"LAST".as_slice() {
        return Some(None);
    }
    Some(Some(read_long_decimal(text)?))
}

#[tactic(auto, unfolding(crate::specs::Ask::serials_of))]
fn read_serials(text: &[u8]) -> Option<Ask>
    ensures { result ≡ serials_of text.now }
{
    let (first, last) = parted_at(b'-', text)?;
    let first = read_long_decimal(first)?;
    let last = read_last(last)?;
    Some(Ask { first, last })
}

#[tactic(auto, unfolding(crate::specs::Ask::query_of))]
fn read_query(line: &[u8]) -> Option<Query<'_>>
    ensures { result ≡ query_of line.now }
{
    let words = behind_flag(line)?;
    let (source, words) = parted_at(b':', words)?;
    let source = source_of(source)?;
    let (version, words) = parted_at(b':', words)?;
    let version = read_long_decimal(version)?;
    let ask = read_serials(words)?;
    Some(Query {
        source,
        version,
        ask,
    })
}

fn find_ask(line: &[u8], source: &[u8]) -> Result<Ask, AskFault>
    ensures { result ≡ ask_of line.now source.now }
{
    let Some(query) = read_query(line) else {
        return Err(AskFault::Malformed);
    };
    if query.version != 3 {
        return Err(AskFault::Version);
    }
    if query.source != source {
        return Err(AskFault::Source);
    }
    Ok(query.ask)
}

/// What the line, without its end, asks of the stream of this source: `-g SOURCE:VERSION:FIRST-LAST`, with the one blank that
/// stands here and no other. The numbers have 64 bits, without sign or leading zero; the last may be the word `LAST`.
pub fn read_ask(line: &[u8], source: &[u8]) -> Result<Ask, AskFault>
    ensures value { result ≡ ask_of line.now source.now }
    ensures spelled { IsAskedOf source.now line.now result }
{
    // A law, for `spelled`.
    queries_are_spelled();
    find_ask(line, source)
}
