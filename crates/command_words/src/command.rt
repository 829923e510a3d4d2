//! The command that the words of the command line are.
ghost use Rattle.std.specs.Prelude.{◌≡◌, IfOk, map};
ghost use Rattle.std.specs.List.{list_any};
ghost use Rattle.std.specs.Option.{option_map};
ghost use Rattle.std.specs.String.{string_bytes};
ghost use Rattle.clap.specs.Words.{rows_of, found_of, first_of, subcommand_rows_of};
ghost use Rattle.command_words.specs.Command.{command_of, load_by, serve_by};
ghost use Rattle.command_words.specs.Table.{begins_with_hyphen, command_in_row, command_met, load_in, serve_in};

use crate::number::{read_number_up_to, read_port, read_workers};
use crate::table::table;
use addr_text::read_long_decimal;
use clap::ArgMatches;
use clap::error::ErrorKind;
use std::alloc::{AllocError, Global};

/// The greatest number of requests of a load.
const MOST_REQUESTS: u32 = 900_000;

/// What is published of a register as files.
#[derive(Clone, Copy)]
pub enum Publication {
    /// The statistics file.
    Statistics,
    /// The reverse zones, one behind the other.
    Zones,
}

/// What the program is asked to do.
#[derive(Clone, Copy)]
pub enum Command {
    /// To answer a script line by line.
    Batch,
    /// To serve both doors of a register at these ports, with so many workers a door.
    Serve { http: u16, line: u16, workers: u8 },
    /// To write what is published of the register that a script leaves.
    Publish(Publication),
    /// To feed a script to a mirror, and to write the objects that it holds then.
    Mirror,
    /// To send so many random requests to a register, drawn from a seed.
    Load { seed: u64, requests: u32 },
}

/// Whether a word begins with `-`, as an option does.
fn is_option(word: &str) -> bool
    ensures { result ≡ begins_with_hyphen word.now }
{
    matches!(word.as_bytes(), [b'-', ..])
}

/// Whether one of the words is an option; no command has one.
fn has_option(words: &[String]) -> bool
    ensures { result ≡ list_any (λ word. begins_with_hyphen (string_bytes word)) words.now }
{
    words.iter().any(|word| is_option(word))
}

/// The text of this name, where it was found.
fn text_of<'a>(texts: &ArgMatches<'a>, name: &str) -> Option<&'a [u8]>
    ensures { option_map (λ text. text.now) result ≡ first_of name.now (rows_of (found_of texts.now)) }
{
    match texts.get_str(name) {
        Some(text) => Some(text.as_bytes()),
        None => None,
    }
}

/// The doors at two ports, with a number of workers.
#[tactic(auto, unfolding(crate::specs::Command::serve_by))]
fn read_serve(http: &[u8], line: &[u8], workers: &[u8]) -> Option<Command>
    ensures { result ≡ serve_by http.now line.now workers.now }
{
    let http = read_port(http)?;
    let line = read_port(line)?;
    let workers = read_workers(workers)?;
    Some(Command::Serve {
        http,
        line,
        workers,
    })
}

/// The doors of the texts that were found.
#[tactic(auto, unfolding(crate::specs::Table::serve_in))]
fn read_serve_of(texts: &ArgMatches<'_>) -> Option<Command>
    ensures { result ≡ serve_in (rows_of (found_of texts.now)) }
{
    let http = text_of(texts, "HTTP")?;
    let line = text_of(texts, "LINE")?;
    let workers = text_of(texts, "WORKERS")?;
    read_serve(http, line, workers)
}

/// The load of a seed and a number of requests.
#[tactic(auto, unfolding(crate::specs::Command::load_by))]
fn read_load(seed: &[u8], requests: &[u8]) -> Option<Command>
    ensures { result ≡ load_by seed.now requests.now }
{
    let seed = read_long_decimal(seed)?;
    let requests = read_number_up_to(requests, MOST_REQUESTS)?;
    Some(Command::Load { seed, requests })
}

/// The load of the texts that were found.
#[tactic(auto, unfolding(crate::specs::Table::load_in))]
fn read_load_of(texts: &ArgMatches<'_>) -> Option<Command>
    ensures { result ≡ load_in (rows_of (found_of texts.now)) }
{
    let seed = text_of(texts, "SEED")?;
    let requests = text_of(texts, "N")?;
    read_load(seed, requests)
}

impl Command {
    /// The command of a row of the table, by its word and the texts behind it.
    fn read_row(word: &str, texts: &ArgMatches<'_>) -> Option<Command>
        ensures { result ≡ command_in_row word.now (rows_of (found_of texts.now)) }
    {
        if word == "batch" {
            Some(Command::Batch)
        } else if word == "serve" {
            read_serve_of(texts)
        } else if word == "stats" {
            Some(Command::Publish(Publication::Statistics))
        } else if word == "zones" {
            Some(Command::Publish(Publication::Zones))
        } else if word == "mirror" {
            Some(Command::Mirror)
        } else if word == "load" {
            read_load_of(texts)
        } else {
            None
        }
    }

    /// The command that was found, by its row.
    fn found(matches: &ArgMatches<'_>) -> Option<Command>
        ensures { result ≡ command_met (subcommand_rows_of matches.now) }
    {
        match matches.subcommand() {
            Some((word, texts)) => Command::read_row(word, texts),
            None => None,
        }
    }

    /// The command that the words behind the program's name are, where they are one. Want of memory says nothing of the words.
    pub fn read(alloc: Global, words: &[String]) -> Result<Option<Command>, AllocError>
        ensures { IfOk result (λ command. command ≡ command_of (map string_bytes words.now)) }
    {
        if has_option(words) {
            return Ok(None);
        }
        match table(alloc)?.try_get_matches_from(words) {
            Ok(matches) => Ok(Command::found(&matches)),
            Err(error) => match error.kind() {
                ErrorKind::OutOfMemory => Err(AllocError),
                _ => Ok(None),
            },
        }
    }
}
