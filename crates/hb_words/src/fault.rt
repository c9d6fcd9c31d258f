//! Why words aren't accepted.

ghost use Rattle.std.specs.Prelude.{◌≡◌, IfOk};
ghost use Rattle.std.specs.Str.{IsUtf8};
ghost use Rattle.std.specs.String.{string_bytes};
ghost use Rattle.hb_words.specs.Fault.{lead, grammar_text, target_text, part_text, why_text, fault_text, help_at, fault_line};

use crate::part::{CommandName, PartName};
use hb_base::{BadTarget, NoMemory, Text};
use std::alloc::Global;

/// Why the words behind a command aren't accepted: the first reason, word by word, and then what isn't there.
#[derive(Drop)]
pub enum Why {
    /// The command has no option and no flag that this word names.
    Unknown(Text),
    /// The command has no place for this word.
    Spare(Text),
    /// An option or a flag stands a second time.
    Twice(PartName),
    /// An option is the last word.
    NoValue(PartName),
    /// A flag has a value.
    Valued(PartName),
    /// A value is empty, begins with a dash or isn't of its grammar and range.
    BadValue(PartName),
    /// The value of TARGET isn't of its grammar.
    BadTarget(BadTarget),
    /// What is wanted isn't there.
    Missing(PartName),
    /// Nothing of this is found.
    NotAccepted,
}

/// Why words aren't accepted.
#[derive(Drop)]
pub enum WordsFault {
    /// A word isn't UTF-8; the program tells it before words are read.
    NotUtf8,
    NoCommand,
    UnknownCommand(Text),
    /// Of the words behind a command.
    Behind(CommandName, Why),
}

/// The characters of a text.
fn shown(text: &Text) -> &str
    ensures { result.now ≡ text.now }
{
    match std::str::from_utf8(text.as_slice()) {
        Ok(shown) => shown,
        Err(_) => unreachable!(),
    }
}

impl PartName {
    /// What stands before a part whose value is told.
    fn lead(self) -> &'static str
        ensures { result.now ≡ lead self }
    {
        match self {
            PartName::Source | PartName::Identity | PartName::Target | PartName::Count => "",
            _ => "the value of ",
        }
    }

    /// What its value isn't.
    fn grammar(self) -> &'static str
        ensures { result.now ≡ grammar_text self }
    {
        match self {
            PartName::Source => " is neither an IPv4 nor an IPv6 address",
            PartName::Identity => {
                " is neither none nor spiffe://TRUST_DOMAIN/ns/NAMESPACE/sa/SERVICE_ACCOUNT"
            }
            PartName::Target
            | PartName::Discovery
            | PartName::Inbound
            | PartName::Outbound
            | PartName::Plain
            | PartName::Status => " is neither IPv4:PORT nor [IPv6]:PORT",
            PartName::HbonePort => " is no number from 1 to 65535",
            PartName::Tunnels => " is no number from 1 to 4096",
            PartName::Turns | PartName::Ticks => " is no number from 1 to 18446744073709551615",
            PartName::Count => " is no number from 1 to 1000",
            _ => " is empty or begins with a dash",
        }
    }
}

fn target_text(fault: BadTarget) -> &'static str
    ensures { result.now ≡ target_text fault }
{
    match fault {
        BadTarget::NoPort => "TARGET has no port",
        BadTarget::BadIp => "the address of TARGET is neither IPv4 text nor IPv6 text in brackets",
        BadTarget::BadPort => "the port of TARGET is no number from 1 to 65535",
    }
}

/// A part between two texts.
fn part_text(alloc: Global, before: &str, part: PartName, behind: &str) -> Result<String, NoMemory>
    ensures { IfOk result (λ t. string_bytes t ≡ part_text before.now part behind.now) }
{
    let dashes = part.dashes();
    let name = part.id();
    format!(in alloc; "{before}{dashes}{name}{behind}")
}

impl Why {
    fn text(&self, alloc: Global, command: CommandName) -> Result<String, NoMemory>
        ensures { IfOk result (λ t. string_bytes t ≡ why_text command self.now) }
    {
        match self {
            Why::Unknown(word) => {
                let word = shown(word);
                format!(in alloc; "unknown option '{word}'")
            }
            Why::Spare(word) => {
                let word = shown(word);
                format!(in alloc; "unexpected word '{word}'")
            }
            Why::Twice(part) => part_text(alloc, "", *part, " stands twice"),
            Why::NoValue(part) => part_text(alloc, "", *part, " has no value"),
            Why::Valued(part) => part_text(alloc, "", *part, " takes no value"),
            Why::BadValue(part) => part_text(alloc, part.lead(), *part, part.grammar()),
            Why::BadTarget(fault) => {
                let text = target_text(*fault);
                format!(in alloc; "{text}")
            }
            Why::Missing(part) => {
                let part = part_text(alloc, "", *part, " is wanted behind ")?;
                let command = command.name();
                format!(in alloc; "{part}{command}")
            }
            Why::NotAccepted => format!(in alloc; "these words aren't accepted"),
        }
    }
}

impl WordsFault {
    fn text(&self, alloc: Global) -> Result<String, NoMemory>
        ensures { IfOk result (λ t. string_bytes t ≡ fault_text self.now) }
    {
        match self {
            WordsFault::NotUtf8 => format!(in alloc; "a word is not UTF-8"),
            WordsFault::NoCommand => format!(in alloc; "a command is wanted"),
            WordsFault::UnknownCommand(word) => {
                let word = shown(word);
                format!(in alloc; "unknown command '{word}'")
            }
            WordsFault::Behind(command, why) => why.text(alloc, *command),
        }
    }

    /// What prints the words of the named command, or the commands.
    fn help(&self, alloc: Global) -> Result<String, NoMemory>
        ensures { IfOk result (λ t. string_bytes t ≡ help_at self.now) }
    {
        match self {
            WordsFault::Behind(command, _) => {
                let command = command.name();
                format!(in alloc; "hbone {command} --help")
            }
            _ => format!(in alloc; "hbone --help"),
        }
    }

    /// The line that tells it, with what prints the accepted words.
    ///
    /// Errors: `NoMemory`.
    pub fn line(&self, alloc: Global) -> Result<String, NoMemory>
        ensures { IfOk result (λ l. string_bytes l ≡ fault_line self.now) }
    {
        let text = self.text(alloc)?;
        let help = self.help(alloc)?;
        format!(in alloc; "hbone: words: {text} (see {help})\n")
    }
}
