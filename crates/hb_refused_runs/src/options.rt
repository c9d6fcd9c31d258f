//! Of hb_options.

ghost use Rattle.std.specs.Prelude.{◌≡◌, ◌<◌, length, map, true, IfOk};
ghost use Rattle.std.specs.String.{string_bytes};
ghost use Rattle.hb_options.specs.Given.{command_of};
ghost use Rattle.hb_options.specs.Items.{are_proper};
ghost use Rattle.hb_options.specs.Read.{Reads};

use clap::ArgMatches;
use hb_options::Declaration;
use std::alloc::{AllocError, Global};

/// `read`, with its Errors and its None.
pub fn read<'a>(
    alloc: Global,
    name: &'a str,
    commands: &[Declaration<'a>],
    words: &'a [String],
) -> Result<Option<ArgMatches<'a>>, AllocError>
    requires some { 0 < length commands.now }
    requires proper { are_proper (map command_of commands.now) ≡ true }
    ensures { IfOk result (Reads (map command_of commands.now) (map string_bytes words.entry.now)) }
{
    hb_options::read(alloc, name, commands, words)
}
