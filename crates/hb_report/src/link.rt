//! The line of a link.

ghost use Rattle.std.specs.Prelude.{◌≡◌, ◌++◌, codes, decimal, string_bytes, IfOk, OnOk};
ghost use Rattle.std.specs.List.{flat_map};
ghost use Rattle.hb_report.specs.Link.{why_word, owner_text, closing_text, tail_text, what_of_dial, link_line, birth_line};
ghost use Rattle.hb_report.specs.Tallies.{tally_in};
ghost use Rattle.hb_script.specs.Spelling.{door_word};

use crate::tallies::{Tallies, Tally};
use hb_base::{Cause, Door, NoMemory, Target, Why, put_target};
use hb_script::{cause_string, door_word};
use hb_world::Entry;
use std::alloc::Global;

/// The word of a dial.
fn why_word(why: Why) -> &'static str
    ensures { result.now ≡ why_word why }
{
    match why {
        Why::Discovery => "discovery",
        Why::Upstream { .. } => "upstream",
        Why::Plain { .. } => "relay",
        Why::Direct { .. } => "direct",
        Why::Gateway { .. } => "gateway",
    }
}

/// For which link, or stream of a link, a link was dialled, where its line tells it.
fn owner_text(alloc: Global, why: Why) -> Result<String, NoMemory>
    ensures { IfOk result (λ text. string_bytes text ≡ owner_text why) }
{
    match why {
        Why::Upstream { link, stream } => format!(in alloc; " of {link}/{stream}"),
        Why::Plain { link } | Why::Direct { link } => format!(in alloc; " of {link}"),
        Why::Discovery | Why::Gateway { .. } => Ok(String::new(alloc)),
    }
}

fn closing_text(alloc: Global, cause: Option<Cause>) -> Result<String, NoMemory>
    ensures { IfOk result (λ text. string_bytes text ≡ closing_text cause) }
{
    match cause {
        Some(cause) => {
            let cause = cause_string(alloc, &cause)?;
            format!(in alloc; "closed {cause}")
        }
        None => String::from_str(alloc, "open"),
    }
}

/// The front of a link's line, up to its word.
fn head_text(alloc: Global, link: u64, word: &str) -> Result<String, NoMemory>
    ensures { IfOk result (λ text. string_bytes text ≡ codes "link " ++ decimal link ++ codes " " ++ word.now) }
{
    format!(in alloc; "link {link} {word}")
}

/// The end of a link's line.
fn tail_text(alloc: Global, tally: Tally) -> Result<String, NoMemory>
    ensures { IfOk result (λ text. string_bytes text ≡ tail_text tally) }
{
    let Tally {
        received,
        sent,
        cause,
    } = tally;
    let closing = closing_text(alloc, cause)?;
    format!(in alloc; ": received {received}, sent {sent}, {closing}\n")
}

fn accepted_line(alloc: Global, link: u64, door: Door, tally: Tally) -> Result<Vec<u8>, NoMemory>
    ensures { IfOk result (λ line. line.items ≡ link_line link (door_word door) tally) }
{
    let mut line = head_text(alloc, link, door_word(door))?.into_bytes();
    let tail = tail_text(alloc, tally)?;
    line.extend_from_slice(tail.as_bytes())?;
    Ok(line)
}

fn dialled_line(
    alloc: Global,
    link: u64,
    target: Target,
    why: Why,
    tally: Tally,
) -> Result<Vec<u8>, NoMemory>
    ensures { IfOk result (λ line. line.items ≡ link_line link (what_of_dial target why) tally) }
{
    let mut line = head_text(alloc, link, why_word(why))?.into_bytes();
    line.push(b' ')?;
    put_target(alloc, target, &mut line)?;
    let owner = owner_text(alloc, why)?;
    line.extend_from_slice(owner.as_bytes())?;
    let tail = tail_text(alloc, tally)?;
    line.extend_from_slice(tail.as_bytes())?;
    Ok(line)
}

/// Appends the line of the link that an entry gave birth to, if it did.
fn put_birth_line(
    alloc: Global,
    tallies: &Tallies,
    entry: &Entry,
    out: &mut Vec<u8>,
) -> Result<(), NoMemory>
    ensures { OnOk result (out.new.items ≡ out.old.items ++ birth_line (tally_in tallies.now) entry.now) }
{
    let line = match entry {
        Entry::Accepted(link, door) => { accepted_line(alloc, *link, *door, tallies.get(*link))? }
        Entry::Dialled(link, target, why) => {
            dialled_line(alloc, *link, *target, *why, tallies.get(*link))?
        }
        _ => return Ok(()),
    };
    out.extend_from_slice(line.as_slice())
}

/// Appends a line for each link of a trace, in the order of their births.
pub(crate) fn put_links(
    alloc: Global,
    tallies: &Tallies,
    trace: &[Entry],
    out: &mut Vec<u8>,
) -> Result<(), NoMemory>
    ensures { OnOk result (out.new.items ≡ out.old.items ++ flat_map (birth_line (tally_in tallies.now)) trace.now) }
{
    for entry in trace {
        put_birth_line(alloc, tallies, entry, out)?;
    }
    Ok(())
}
