//! Programs of commands, and their words read.

ghost use Rattle.std.specs.Prelude.{◌≡◌, ◌<◌, length, map, true, IfOk};
ghost use Rattle.std.specs.String.{string_bytes};
ghost use Rattle.clap.specs.Simple.{app_of};
ghost use Rattle.clap.specs.declared.builder.command.Command.TheViews.{out-Command as fields_of};
ghost use Rattle.hb_options.specs.Given.{command_of};
ghost use Rattle.hb_options.specs.Items.{app, are_proper};
ghost use Rattle.hb_options.specs.Read.{Reads};

use crate::clean::are_clean;
use crate::part::{Declaration, command};
use clap::error::ErrorKind;
use clap::{ArgMatches, Command};
use std::alloc::{AllocError, Global};

/// The program as clap knows it: its first word names a command, and no word asks for help.
fn program<'a>(
    alloc: Global,
    name: &'a str,
    commands: &[Declaration<'a>],
) -> Result<Command<'a>, AllocError>
    requires some { 0 < length commands.now }
    ensures built { IfOk result (λ r. app_of r ≡ app name.entry.now (map command_of commands.now)) }
{
    let mut made = Command::new(alloc, name)
        .no_binary_name(true)
        .disable_help_flag(true)
        .disable_help_subcommand(true)
        .subcommand_required(true);
    for declared in commands {
        made = made.subcommand(command(alloc, *declared)?)?;
    }
    Ok(made)
}

/// The matches of words that items spell which the command accepts that the first word names; `None`: no command accepts such items.
///
/// Errors: want of memory.
pub fn read<'a>(
    alloc: Global,
    name: &'a str,
    commands: &[Declaration<'a>],
    words: &'a [String],
) -> Result<Option<ArgMatches<'a>>, AllocError>
    requires some { 0 < length commands.now }
    requires proper { are_proper (map command_of commands.now) ≡ true }
    ensures { IfOk result (Reads (map command_of commands.now) (map string_bytes words.entry.now)) }
{
    if !are_clean(words) {
        return Ok(None);
    }
    let program = program(alloc, name, commands)?;
    match program.try_get_matches_from(words) {
        Ok(matches) => Ok(Some(matches)),
        Err(error) => {
            if error.kind() == ErrorKind::OutOfMemory {
                return Err(AllocError);
            }
            Ok(None)
        }
    }
}
