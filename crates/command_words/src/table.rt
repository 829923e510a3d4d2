//! The table of commands, for `clap`.
ghost use Rattle.std.specs.Prelude.{◌≡◌, IfOk, false, true};
ghost use Rattle.clap.specs.Walk.{rule_of};
ghost use Rattle.clap.specs.Simple.{app_of};
ghost use Rattle.clap.specs.declared.builder.command.Command.TheViews.{out-Command};
ghost use Rattle.command_words.specs.Table.{load_row, only, serve_row, table, text_rule};

use clap::{Arg, Command};
use std::alloc::{AllocError, Global};

/// A text that has to stand behind a command's word.
fn text<'a>(alloc: Global, name: &'a str) -> Arg<'a>
    ensures rule { rule_of result ≡ text_rule name.entry.now }
    ensures local { result.global ≡ false }
{
    Arg::new(alloc, name).required(true)
}

/// The row of the doors.
fn serve<'a>(alloc: Global) -> Result<Command<'a>, AllocError>
    ensures app { IfOk result (λ made. app_of made ≡ only serve_row) }
    ensures local { IfOk result (λ made. (out-Command made).has_globals ≡ false) }
{
    Command::new(alloc, "serve")
        .arg(text(alloc, "HTTP"))?
        .arg(text(alloc, "LINE"))?
        .arg(text(alloc, "WORKERS"))
}

/// The row of a load.
fn load<'a>(alloc: Global) -> Result<Command<'a>, AllocError>
    ensures app { IfOk result (λ made. app_of made ≡ only load_row) }
    ensures local { IfOk result (λ made. (out-Command made).has_globals ≡ false) }
{
    Command::new(alloc, "load")
        .arg(text(alloc, "SEED"))?
        .arg(text(alloc, "N"))
}

/// The program, without its commands: there are no words for help and for the version, and no word is its name.
fn program<'a>(alloc: Global) -> Command<'a>
    ensures { app_of result ≡ only (record table.top { is_leaf = true }) }
{
    Command::new(alloc, "registry_main")
        .no_binary_name(true)
        .disable_help_flag(true)
        .disable_help_subcommand(true)
        .subcommand_required(true)
}

/// Each command is a subcommand, which its first word names, and its texts are what has to follow.
pub(crate) fn table<'a>(alloc: Global) -> Result<Command<'a>, AllocError>
    ensures { IfOk result (λ made. app_of made ≡ table) }
{
    program(alloc)
        .subcommand(Command::new(alloc, "batch"))?
        .subcommand(serve(alloc)?)?
        .subcommand(Command::new(alloc, "stats"))?
        .subcommand(Command::new(alloc, "zones"))?
        .subcommand(Command::new(alloc, "mirror"))?
        .subcommand(load(alloc)?)
}
