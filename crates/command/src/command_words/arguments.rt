//! What `clap` is told of the words of the command.
ghost use Rattle.std.specs.Prelude.{◌≡◌, IfOk, false, codes};
ghost use Rattle.clap.specs.Words.{app_of, rule_of};
ghost use Rattle.command.specs.CommandWords.Arguments.{files_rule, flag_rule, option_rule, plain_app, words_app};

use clap::{Arg, ArgAction, Command};
use std::alloc::{AllocError, Global};

/// An option of this name, with a text.
fn option<'a>(alloc: Global, name: &'a str) -> Arg<'a>
    ensures rule { rule_of result ≡ option_rule name.entry.now }
    ensures own { result.global ≡ false }
{
    Arg::new(alloc, name).long(name).action(ArgAction::Set)
}

/// An option of this name, without a value.
fn flag<'a>(alloc: Global, name: &'a str) -> Arg<'a>
    ensures rule { rule_of result ≡ flag_rule name.entry.now }
    ensures own { result.global ≡ false }
{
    Arg::new(alloc, name).long(name).action(ArgAction::SetTrue)
}

/// The names of files.
fn file_names<'a>(alloc: Global) -> Arg<'a>
    ensures rule { rule_of result ≡ files_rule }
    ensures own { result.global ≡ false }
{
    Arg::new(alloc, "files").action(ArgAction::Append)
}

/// A command without flags for help and version, of which the first word isn't the program's name.
fn plain_command<'a>(alloc: Global) -> Command<'a>
    ensures { app_of result ≡ plain_app }
{
    Command::new(alloc, "cocorun")
        .no_binary_name(true)
        .disable_help_flag(true)
        .disable_version_flag(true)
}

/// One simple command with all options and files, their values as texts.
pub fn simple_command<'a>(alloc: Global) -> Result<Command<'a>, AllocError>
    ensures { IfOk result (λ command. app_of command ≡ words_app) }
{
    plain_command(alloc)
        .arg(option(alloc, "top"))?
        .arg(option(alloc, "budget"))?
        .arg(option(alloc, "seed"))?
        .arg(option(alloc, "made"))?
        .arg(flag(alloc, "trace"))?
        .arg(flag(alloc, "vcd"))?
        .arg(file_names(alloc))
}
