//! What clap is told of the command line.
ghost use Rattle.std.specs.Prelude.{◌≡◌, IfOk, false};
ghost use Rattle.clap.specs.Words.{app_of, rule_of};
ghost use Rattle.command_line.specs.Arguments.{flag_rule, option_rule, router_arguments, words_rule};

use clap::{Arg, ArgAction};
use std::alloc::{AllocError, Global};

// `--NAME VALUE`, at most once.
fn option<'a>(alloc: Global, name: &'a str) -> Arg<'a>
    ensures rule { rule_of result ≡ option_rule name.entry.now }
    ensures here { result.global ≡ false }
{
    Arg::new(alloc, name).long(name).action(ArgAction::Set)
}

// `--NAME`, at most once.
fn flag<'a>(alloc: Global, name: &'a str) -> Arg<'a>
    ensures rule { rule_of result ≡ flag_rule name.entry.now }
    ensures here { result.global ≡ false }
{
    Arg::new(alloc, name).long(name).action(ArgAction::SetTrue)
}

// The command's name and its words.
fn words<'a>(alloc: Global) -> Arg<'a>
    ensures rule { rule_of result ≡ words_rule }
    ensures here { result.global ≡ false }
{
    Arg::new(alloc, "words")
        .num_args(1..)
        .action(ArgAction::Append)
        .required(true)
}

/// The command line of `router`, without the program's name.
pub(crate) fn router_arguments<'a>(alloc: Global) -> Result<clap::Command<'a>, AllocError>
    ensures { IfOk result (λ command. app_of command ≡ router_arguments) }
{
    clap::Command::new(alloc, "router")
        .no_binary_name(true)
        .arg(option(alloc, "change"))?
        .arg(option(alloc, "station"))?
        .arg(option(alloc, "days"))?
        .arg(option(alloc, "workers"))?
        .arg(option(alloc, "lanes"))?
        .arg(flag(alloc, "close"))?
        .arg(flag(alloc, "lenient"))?
        .arg(flag(alloc, "plain"))?
        .arg(flag(alloc, "mirror"))?
        .arg(flag(alloc, "json"))?
        .arg(flag(alloc, "csv"))?
        .arg(words(alloc))
}
