//! The line of a fact.

ghost use Rattle.std.specs.Prelude.{◌≡◌, ◌++◌, string_bytes, IfOk, OnOk};
ghost use Rattle.hb_log.specs.Fact.{party_word, has_space, value_text, again_text, link_of_door, fact_line};
ghost use Rattle.hb_log.specs.declared.fact.Fact.TheVariants.{Listens, Dialled, DialFailed, Ended, Way, Closed};
ghost use Rattle.hb_script.specs.EntryText.{cause_text};

use crate::fact::{Fact, Party};
use hb_base::{Cause, Door, NoMemory, Target};
use hb_report::add_target;
use hb_script::{cause_string, door_word};
use std::alloc::Global;

/// The word of a party.
fn party_word(party: Party) -> &'static str
    ensures { result.now ≡ party_word party }
{
    match party {
        Party::Control => "control",
        Party::Gateway => "gateway",
    }
}

/// Whether the text holds a space.
fn has_space(text: &str) -> bool
    ensures { result ≡ has_space text.now }
{
    text.as_bytes().iter().any(|b| *b == b' ')
}

/// Appends a value, in double quotes where it holds a space.
fn add_value(text: &str, line: &mut String) -> Result<(), NoMemory>
    ensures { OnOk result (string_bytes line.new ≡ string_bytes line.old ++ value_text text.now) }
{
    if has_space(text) {
        write!(line, "\"{text}\"")
    } else {
        line.push_str(text)
    }
}

/// Appends a cause as a value.
fn add_cause(alloc: Global, cause: Cause, line: &mut String) -> Result<(), NoMemory>
    ensures { OnOk result (string_bytes line.new ≡ string_bytes line.old ++ value_text (cause_text cause)) }
{
    let text = cause_string(alloc, &cause)?;
    add_value(text.as_str(), line)
}

/// Appends which attempt in a row it is, where it isn't the first.
fn add_again(attempt: u64, line: &mut String) -> Result<(), NoMemory>
    ensures { OnOk result (string_bytes line.new ≡ string_bytes line.old ++ again_text attempt) }
{
    if attempt <= 1 {
        return Ok(());
    }
    write!(line, " again={attempt}")
}

fn add_listens(door: Door, at: Target, line: &mut String) -> Result<(), NoMemory>
    ensures { OnOk result (string_bytes line.new ≡ string_bytes line.old ++ fact_line (Listens door at)) }
{
    let word = door_word(door);
    write!(line, "listens door={word} at=")?;
    add_target(at, line)?;
    line.push_str("\n")
}

fn add_dialled(
    party: Party,
    link: u64,
    to: Target,
    attempt: u64,
    line: &mut String,
) -> Result<(), NoMemory>
    ensures { OnOk result (string_bytes line.new ≡ string_bytes line.old ++ fact_line (Dialled party link to attempt)) }
{
    let word = party_word(party);
    write!(line, "{word} link={link} dialled=")?;
    add_target(to, line)?;
    add_again(attempt, line)?;
    line.push_str("\n")
}

fn add_dial_failed(
    party: Party,
    to: Target,
    attempt: u64,
    line: &mut String,
) -> Result<(), NoMemory>
    ensures { OnOk result (string_bytes line.new ≡ string_bytes line.old ++ fact_line (DialFailed party to attempt)) }
{
    let word = party_word(party);
    write!(line, "{word} dial=")?;
    add_target(to, line)?;
    line.push_str(" failed")?;
    add_again(attempt, line)?;
    line.push_str("\n")
}

fn add_ended(
    alloc: Global,
    party: Party,
    link: u64,
    cause: Cause,
    line: &mut String,
) -> Result<(), NoMemory>
    ensures { OnOk result (string_bytes line.new ≡ string_bytes line.old ++ fact_line (Ended party link cause)) }
{
    let word = party_word(party);
    write!(line, "{word} link={link} closed=")?;
    add_cause(alloc, cause, line)?;
    line.push_str("\n")
}

fn add_way(link: u64, to: Target, line: &mut String) -> Result<(), NoMemory>
    ensures { OnOk result (string_bytes line.new ≡ string_bytes line.old ++ fact_line (Way link to)) }
{
    write!(line, "way {link}/0 direct=")?;
    add_target(to, line)?;
    line.push_str("\n")
}

/// Appends a link of a door.
fn add_link_of_door(link: u64, door: Door, line: &mut String) -> Result<(), NoMemory>
    ensures { OnOk result (string_bytes line.new ≡ string_bytes line.old ++ link_of_door link door) }
{
    let word = door_word(door);
    write!(line, "link={link} door={word}")
}

fn add_closed(
    alloc: Global,
    link: u64,
    door: Door,
    cause: Cause,
    line: &mut String,
) -> Result<(), NoMemory>
    ensures { OnOk result (string_bytes line.new ≡ string_bytes line.old ++ fact_line (Closed link door cause)) }
{
    line.push_str("closed ")?;
    add_link_of_door(link, door, line)?;
    line.push_str(" cause=")?;
    add_cause(alloc, cause, line)?;
    line.push_str("\n")
}

/// Appends the line of a fact, with its newline.
fn add_fact(alloc: Global, fact: Fact, line: &mut String) -> Result<(), NoMemory>
    ensures { OnOk result (string_bytes line.new ≡ string_bytes line.old ++ fact_line fact) }
{
    match fact {
        Fact::Listens { door, at } => add_listens(door, at, line),
        Fact::Dialled {
            party,
            link,
            to,
            attempt,
        } => add_dialled(party, link, to, attempt, line),
        Fact::DialFailed { party, to, attempt } => add_dial_failed(party, to, attempt, line),
        Fact::Opened { party, link } => {
            let word = party_word(party);
            write!(line, "{word} link={link} open\n")
        }
        Fact::Ended { party, link, cause } => add_ended(alloc, party, link, cause, line),
        Fact::Way { link, to } => add_way(link, to, line),
        Fact::Closed { link, door, cause } => add_closed(alloc, link, door, cause, line),
        Fact::More { count } => write!(line, "closed more={count}\n"),
    }
}

/// The line of a fact, with its newline.
///
/// Errors: `NoMemory`.
pub(crate) fn line_of(alloc: Global, fact: Fact) -> Result<String, NoMemory>
    ensures { IfOk result (λ line. string_bytes line ≡ fact_line fact) }
{
    let mut line = String::new(alloc);
    add_fact(alloc, fact, &mut line)?;
    Ok(line)
}
