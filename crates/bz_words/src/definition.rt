//! What `clap` is told: the flags, the option with a value, and that words follow.

ghost use Rattle.std.specs.Prelude.{◌≡◌, false, IfOk};
ghost use Rattle.clap.specs.Words.{app_of, rule_of};
ghost use Rattle.bz_words.specs.Definition.{argument_rule, flag_rule, input_rule, kind_rule, program};

use clap::{Arg, ArgAction, Command};
use std::alloc::{AllocError, Global};

/// Four flags, one option with a value, and the words: a kind of command, and any number of arguments.
pub(crate) fn program<'a>(alloc: Global) -> Result<Command<'a>, AllocError>
    ensures { IfOk result (λ command. app_of command ≡ program) }
{
    let command = Command::new(alloc, "symq")
        .no_binary_name(true)
        .arg(flag(alloc, "no-reload"))?
        .arg(flag(alloc, "no-code-info"))?
        .arg(flag(alloc, "no-inlined"))?
        .arg(flag(alloc, "no-map-files"))?
        .arg(input(alloc))?
        .arg(kind(alloc))?
        .arg(argument(alloc))?;
    Ok(command)
}

fn flag<'a>(alloc: Global, name: &'a str) -> Arg<'a>
    ensures rule { rule_of result ≡ flag_rule name.entry.now }
    ensures local { result.global ≡ false }
{
    Arg::new(alloc, name).long(name).action(ArgAction::SetTrue)
}

fn input<'a>(alloc: Global) -> Arg<'a>
    ensures rule { rule_of result ≡ input_rule }
    ensures local { result.global ≡ false }
{
    Arg::new(alloc, "input")
        .long("input")
        .action(ArgAction::Set)
}

fn kind<'a>(alloc: Global) -> Arg<'a>
    ensures rule { rule_of result ≡ kind_rule }
    ensures local { result.global ≡ false }
{
    Arg::new(alloc, "kind").required(true)
}

fn argument<'a>(alloc: Global) -> Arg<'a>
    ensures rule { rule_of result ≡ argument_rule }
    ensures local { result.global ≡ false }
{
    Arg::new(alloc, "arg")
        .action(ArgAction::Append)
        .num_args(0..)
}
