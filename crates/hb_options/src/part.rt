//! What a command declares.

ghost use Rattle.std.specs.Prelude.{◌≡◌, false, IfOk};
ghost use Rattle.clap.specs.Simple.{app_of};
ghost use Rattle.clap.specs.Walk.{rule_of};
ghost use Rattle.clap.specs.declared.builder.command.Command.TheViews.{out-Command as fields_of};
ghost use Rattle.hb_options.specs.Given.{part_of, command_of};
ghost use Rattle.hb_options.specs.Items.{rule, alone_app};

use clap::{Arg, ArgAction, Command};
use std::alloc::{AllocError, Global};

/// A part of a command, by its name.
#[derive(Clone, Copy)]
pub enum Part<'a> {
    /// An option with a value, and whether it is wanted.
    Valued(&'a str, bool),
    Flag(&'a str),
    /// A word in a place, and whether it is wanted. Places are counted in the order of the parts.
    Place(&'a str, bool),
}

/// A command, by the word that names it.
#[derive(Clone, Copy)]
pub struct Declaration<'a> {
    pub name: &'a str,
    pub parts: &'a [Part<'a>],
}

/// The part as clap knows it.
fn arg<'a>(alloc: Global, part: Part<'a>) -> Arg<'a>
    ensures rule { rule_of result ≡ rule (part_of part.entry) }
    ensures own { result.global ≡ false }
{
    match part {
        Part::Valued(name, wanted) => Arg::new(alloc, name).long(name).required(wanted),
        Part::Flag(name) => Arg::new(alloc, name).long(name).action(ArgAction::SetTrue),
        Part::Place(name, wanted) => Arg::new(alloc, name).required(wanted),
    }
}

/// The command as clap knows it.
pub(crate) fn command<'a>(
    alloc: Global,
    declared: Declaration<'a>,
) -> Result<Command<'a>, AllocError>
    ensures built { IfOk result (λ r. app_of r ≡ alone_app (command_of declared.entry)) }
    ensures own { IfOk result (λ r. (fields_of r).has_globals ≡ false) }
{
    let mut made = Command::new(alloc, declared.name);
    for part in declared.parts {
        made = made.arg(arg(alloc, *part))?;
    }
    Ok(made)
}
