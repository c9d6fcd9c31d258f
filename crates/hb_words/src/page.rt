//! The pages that tell what the program's words are, and its version.

ghost use Rattle.std.specs.Prelude.{◌≡◌, ◌++◌, IfOk, OnOk, map};
ghost use Rattle.std.specs.List.{flat_map};
ghost use Rattle.std.specs.String.{string_bytes};
ghost use Rattle.hb_words.specs.Page.{page_named, page_behind, page_of, version, usage_of, purpose_of, column_of, command_line, part_line};
ghost use Rattle.hb_words.specs.Page.{shown_parts, shown_commands, commands_page, words_page, page_text};

use crate::part::{CommandName, PartName, command_named};
use hb_base::NoMemory;
use std::alloc::Global;

/// The program's version.
const VERSION: &str = "0.1.0";

/// What the program tells of itself.
#[derive(Clone, Copy)]
pub enum Page {
    /// What each command does.
    Commands,
    /// What the words of a command mean.
    Words(CommandName),
    Version,
}

/// The commands, in the order of their lines.
static COMMANDS: [CommandName; 6] = [
    CommandName::Check,
    CommandName::Route,
    CommandName::Show,
    CommandName::Make,
    CommandName::Replay,
    CommandName::Serve,
];

static CHECK_PARTS: [PartName; 6] = [
    PartName::Node,
    PartName::Network,
    PartName::Explain,
    PartName::Source,
    PartName::Identity,
    PartName::Target,
];

static ROUTE_PARTS: [PartName; 5] = [
    PartName::Node,
    PartName::Network,
    PartName::HbonePort,
    PartName::Source,
    PartName::Target,
];

static SHOW_PARTS: [PartName; 1] = [PartName::Fields];

static MAKE_PARTS: [PartName; 2] = [PartName::Count, PartName::Run];

static REPLAY_PARTS: [PartName; 12] = [
    PartName::Node,
    PartName::Id,
    PartName::Discovery,
    PartName::Inbound,
    PartName::Outbound,
    PartName::Plain,
    PartName::Network,
    PartName::HbonePort,
    PartName::Tunnels,
    PartName::Turns,
    PartName::Trace,
    PartName::Brief,
];

static SERVE_PARTS: [PartName; 15] = [
    PartName::Node,
    PartName::Id,
    PartName::Discovery,
    PartName::Inbound,
    PartName::Outbound,
    PartName::Plain,
    PartName::Network,
    PartName::HbonePort,
    PartName::Tunnels,
    PartName::Turns,
    PartName::Ticks,
    PartName::Status,
    PartName::StopOnInput,
    PartName::Quiet,
    PartName::NotesOnly,
];

/// The page that one word asks for.
fn page_named(word: &str) -> Option<Page>
    ensures { result ≡ page_named word.now }
{
    if word == "--help" {
        return Some(Page::Commands);
    }
    if word == "--version" {
        return Some(Page::Version);
    }
    None
}

/// The page that a word behind another one asks for.
fn page_behind(name: &str, word: &str) -> Option<Page>
    ensures { result ≡ page_behind name.now word.now }
{
    if word == "--help" {
        Some(Page::Words(command_named(name)?))
    } else {
        None
    }
}

/// The page that words ask for, if they ask for one.
#[tactic(auto, unfolding(crate::specs::Page::page_of))]
pub(crate) fn page_of(words: &[String]) -> Option<Page>
    ensures { result ≡ page_of (map string_bytes words.now) }
{
    match words {
        [word] => page_named(word.as_str()),
        [name, word] => page_behind(name.as_str(), word.as_str()),
        _ => None,
    }
}

impl CommandName {
    /// The form of its words.
    fn usage(self) -> &'static str
        ensures { result.now ≡ usage_of self }
    {
        match self {
            CommandName::Check => {
                "hbone check --node NODE [--network NETWORK] [--explain] SOURCE IDENTITY TARGET"
            }
            CommandName::Route => {
                "hbone route --node NODE [--network NETWORK] [--hbone-port PORT] SOURCE TARGET"
            }
            CommandName::Show => "hbone show [--fields]",
            CommandName::Make => "hbone make N [--run]",
            CommandName::Replay => {
                "hbone replay --node NODE --id ID --discovery TARGET [OPTION ..]"
            }
            CommandName::Serve => "hbone serve --node NODE --id ID --discovery TARGET [OPTION ..]",
        }
    }

    /// What it does.
    fn purpose(self) -> &'static str
        ensures { result.now ≡ purpose_of self }
    {
        match self {
            CommandName::Check => {
                "Tells whether a peer may connect to an address and port, \
                 by the discovery responses on standard input."
            }
            CommandName::Route => {
                "Tells which way a connection to an address and port takes, \
                 by the discovery responses on standard input."
            }
            CommandName::Show => {
                "Tells what each discovery response on standard input did, \
                 and what the node holds after them."
            }
            CommandName::Make => {
                "Prints a script of N tunnels for replay, or the totals of its run."
            }
            CommandName::Replay => {
                "Runs the proxy over the script of socket events on standard input, \
                 and prints a report."
            }
            CommandName::Serve => {
                "Runs the proxy over real sockets, and prints its totals at the end."
            }
        }
    }

    /// Its name, before that.
    fn column(self) -> &'static str
        ensures { result.now ≡ column_of self }
    {
        match self {
            CommandName::Check => "  check       ",
            CommandName::Route => "  route       ",
            CommandName::Show => "  show        ",
            CommandName::Make => "  make        ",
            CommandName::Replay => "  replay      ",
            CommandName::Serve => "  serve       ",
        }
    }

    /// Its parts, in the order in which it declares them.
    fn shown_parts(self) -> &'static [PartName]
        ensures { result.now ≡ shown_parts self }
    {
        match self {
            CommandName::Check => CHECK_PARTS.as_slice(),
            CommandName::Route => ROUTE_PARTS.as_slice(),
            CommandName::Show => SHOW_PARTS.as_slice(),
            CommandName::Make => MAKE_PARTS.as_slice(),
            CommandName::Replay => REPLAY_PARTS.as_slice(),
            CommandName::Serve => SERVE_PARTS.as_slice(),
        }
    }
}

impl PartName {
    /// Its line, with what it means.
    fn line(self) -> &'static str
        ensures { result.now ≡ part_line self }
    {
        match self {
            PartName::Node => "  --node NODE           the name of the node\n",
            PartName::Network => {
                "  --network NETWORK     the node's network; without it the one whose name is empty\n"
            }
            PartName::Explain => "  --explain             tells each policy that counts, too\n",
            PartName::Source => "  SOURCE                the address that connects\n",
            PartName::Identity => {
                "  IDENTITY              none, or spiffe://TRUST_DOMAIN/ns/NAMESPACE/sa/SERVICE_ACCOUNT\n"
            }
            PartName::Target => {
                "  TARGET                the address and port that it asks for, as 10.0.0.7:8080 or [::1]:8080\n"
            }
            PartName::Id => {
                "  --id ID               the id that the node tells its control plane\n"
            }
            PartName::Discovery => {
                "  --discovery TARGET    the address of the control plane, as 10.0.0.1:15010 or [::1]:15010\n"
            }
            PartName::Inbound => {
                "  --inbound TARGET      where the inbound door listens; without it there is none\n"
            }
            PartName::Outbound => {
                "  --outbound TARGET     where the outbound door listens; without it there is none\n"
            }
            PartName::Plain => {
                "  --plain TARGET        where the plain door listens; without it there is none\n"
            }
            PartName::HbonePort => {
                "  --hbone-port PORT     the port at which workloads take HBONE; without it 15008\n"
            }
            PartName::Tunnels => {
                "  --tunnels COUNT       the most tunnels at a time, 1 to 4096; without it 4096\n"
            }
            PartName::Turns => {
                "  --turns COUNT         the most turns of the event loop; one more ends the run with status 5\n"
            }
            PartName::Ticks => {
                "  --ticks COUNT         the tick of the timer, about one a second, that ends the run\n"
            }
            PartName::Status => {
                "  --status TARGET       where the state of the run is told over HTTP; without it nowhere\n"
            }
            PartName::StopOnInput => {
                "  --stop-on-input       ends the run where standard input ends or has a byte\n"
            }
            PartName::Quiet => {
                "  --quiet               writes no line of an answer, of its reason, or of an end\n"
            }
            PartName::NotesOnly => {
                "  --notes-only          writes the lines of answers, of their reasons, and of ends alone\n"
            }
            PartName::Fields => {
                "  --fields              tells the fields of each resource held, too\n"
            }
            PartName::Trace => "  --trace               tells each call on a socket, too\n",
            PartName::Brief => "  --brief               tells the totals alone\n",
            PartName::Count => "  N                     the number of tunnels, 1 to 1000\n",
            PartName::Run => {
                "  --run                 runs the proxy over the script, and prints the totals in its place\n"
            }
        }
    }
}

/// Adds a line of each command.
fn add_lines(commands: &[CommandName], text: &mut String) -> Result<(), NoMemory>
    ensures { OnOk result (string_bytes text.new ≡ string_bytes text.old ++ flat_map command_line commands.now) }
{
    for command in commands {
        text.push_str(command.column())?;
        text.push_str(command.purpose())?;
        text.push_str("\n")?;
    }
    Ok(())
}

/// Adds a line of each command, between two texts.
fn add_commands(
    head: &str,
    commands: &[CommandName],
    tail: &str,
    text: &mut String,
) -> Result<(), NoMemory>
    ensures { OnOk result (string_bytes text.new ≡ string_bytes text.old ++ (head.now ++ flat_map command_line commands.now ++ tail.now)) }
{
    text.push_str(head)?;
    add_lines(commands, text)?;
    text.push_str(tail)
}

/// Adds a line of each part.
fn add_parts(parts: &[PartName], text: &mut String) -> Result<(), NoMemory>
    ensures { OnOk result (string_bytes text.new ≡ string_bytes text.old ++ flat_map part_line parts.now) }
{
    for part in parts {
        text.push_str(part.line())?;
    }
    Ok(())
}

fn add_commands_page(text: &mut String) -> Result<(), NoMemory>
    ensures { OnOk result (string_bytes text.new ≡ string_bytes text.old ++ commands_page shown_commands) }
{
    add_commands(
        "A node proxy for Istio's ambient mode.\n\nusage: hbone COMMAND [WORD ..]\n",
        COMMANDS.as_slice(),
        "  --help      Prints this page; behind a command, its words.\n  \
         --version   Prints the program's version.\n",
        text,
    )
}

fn add_words_page(command: CommandName, text: &mut String) -> Result<(), NoMemory>
    ensures { OnOk result (string_bytes text.new ≡ string_bytes text.old ++ words_page command) }
{
    text.push_str(command.purpose())?;
    text.push_str("\n\nusage: ")?;
    text.push_str(command.usage())?;
    text.push_str("\n")?;
    add_parts(command.shown_parts(), text)
}

impl Page {
    /// What is printed of it: lines, each with a newline at its end.
    ///
    /// Errors: `NoMemory`.
    pub fn text(self, alloc: Global) -> Result<String, NoMemory>
        ensures { IfOk result (λ text. string_bytes text ≡ page_text self) }
    {
        let mut text = String::new(alloc);
        match self {
            Page::Commands => add_commands_page(&mut text)?,
            Page::Words(command) => add_words_page(command, &mut text)?,
            Page::Version => {
                text.push_str("hbone ")?;
                text.push_str(VERSION)?;
                text.push_str("\n")?;
            }
        }
        Ok(text)
    }
}
