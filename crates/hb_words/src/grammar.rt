//! What each command declares, and words by that.

ghost use Rattle.std.specs.Prelude.{◌≡◌, map, IfOk};
ghost use Rattle.std.specs.String.{string_bytes};
ghost use Rattle.hb_options.specs.Read.{Reads};
ghost use Rattle.hb_words.specs.Grammar.{commands};

use clap::ArgMatches;
use hb_options::{Declaration, Part, read};
use std::alloc::{AllocError, Global};

/// The commands, and what each declares.
static COMMANDS: [Declaration<'static>; 6] = [
    Declaration {
        name: "check",
        parts: &[
            Part::Valued("node", true),
            Part::Valued("network", false),
            Part::Flag("explain"),
            Part::Place("SOURCE", true),
            Part::Place("IDENTITY", true),
            Part::Place("TARGET", true),
        ],
    },
    Declaration {
        name: "route",
        parts: &[
            Part::Valued("node", true),
            Part::Valued("network", false),
            Part::Valued("hbone-port", false),
            Part::Place("SOURCE", true),
            Part::Place("TARGET", true),
        ],
    },
    Declaration {
        name: "show",
        parts: &[Part::Flag("fields")],
    },
    Declaration {
        name: "make",
        parts: &[Part::Place("N", true), Part::Flag("run")],
    },
    Declaration {
        name: "replay",
        parts: &[
            Part::Valued("node", true),
            Part::Valued("id", true),
            Part::Valued("discovery", true),
            Part::Valued("inbound", false),
            Part::Valued("outbound", false),
            Part::Valued("plain", false),
            Part::Valued("network", false),
            Part::Valued("hbone-port", false),
            Part::Valued("tunnels", false),
            Part::Valued("turns", false),
            Part::Flag("trace"),
            Part::Flag("brief"),
        ],
    },
    Declaration {
        name: "serve",
        parts: &[
            Part::Valued("node", true),
            Part::Valued("id", true),
            Part::Valued("discovery", true),
            Part::Valued("inbound", false),
            Part::Valued("outbound", false),
            Part::Valued("plain", false),
            Part::Valued("network", false),
            Part::Valued("hbone-port", false),
            Part::Valued("tunnels", false),
            Part::Valued("turns", false),
            Part::Valued("ticks", false),
            Part::Valued("status", false),
            Part::Flag("stop-on-input"),
            Part::Flag("quiet"),
            Part::Flag("notes-only"),
        ],
    },
];

/// The matches of accepted words; `None` where no command accepts them.
///
/// Errors: want of memory.
pub(crate) fn matches<'a>(
    alloc: Global,
    words: &'a [String],
) -> Result<Option<ArgMatches<'a>>, AllocError>
    ensures { IfOk result (Reads commands (map string_bytes words.entry.now)) }
{
    read(alloc, "hbone", COMMANDS.as_slice(), words)
}
