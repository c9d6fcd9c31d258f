//! The line that tells an entry of a trace.

ghost use Rattle.std.specs.Prelude.{◌≡◌, ◌++◌, codes, decimal, string_bytes, IfOk, OnOk, OnErr};
ghost use Rattle.hb_base.specs.TargetText.{target_text};
ghost use Rattle.hb_world.specs.declared.entry.Entry.TheVariants.{Accepted, Closed};
ghost use Rattle.hex.specs.Hex.{encode_lower};
ghost use Rattle.hb_script.specs.EntryText.{cause_text, entry_text};

use crate::spelling::door_word;
use hb_base::{Bytes, Cause, Door, NoMemory, Target, put_target};
use hb_world::Entry;
use std::alloc::Global;

fn accepted_text(alloc: Global, link: u64, door: Door) -> Result<String, NoMemory>
    ensures { IfOk result (λ text. string_bytes text ≡ entry_text (Accepted link door)) }
{
    let word = door_word(door);
    format!(in alloc; "accepted {link} {word}\n")
}

/// A word, a link and its bytes.
fn bytes_text(alloc: Global, word: &str, link: u64, bytes: &Bytes) -> Result<String, NoMemory>
    ensures { IfOk result (λ text. string_bytes text
        ≡ word.now ++ codes " " ++ decimal link ++ codes " " ++ encode_lower bytes.now ++ codes "\n") }
{
    let digits = hex::encode(alloc, bytes.as_slice())?;
    format!(in alloc; "{word} {link} {digits}\n")
}

/// A cause: its word, and its number where it has one.
///
/// Errors: `NoMemory`.
pub fn cause_string(alloc: Global, cause: &Cause) -> Result<String, NoMemory>
    ensures { IfOk result (λ text. string_bytes text ≡ cause_text cause.now) }
{
    let word = cause.word();
    match cause.number() {
        Some(number) => format!(in alloc; "{word} {number}"),
        None => String::from_str(alloc, word),
    }
}

fn closed_text(alloc: Global, link: u64, cause: &Cause) -> Result<String, NoMemory>
    ensures { IfOk result (λ text. string_bytes text ≡ entry_text (Closed link cause.now)) }
{
    let cause = cause_string(alloc, cause)?;
    format!(in alloc; "closed {link} {cause}\n")
}

/// What was dialled, behind a head.
fn dial_bytes(alloc: Global, head: String, target: Target) -> Result<Vec<u8>, NoMemory>
    ensures { IfOk result (λ text. text.items ≡ string_bytes head ++ target_text target ++ codes "\n") }
{
    let mut text = head.into_bytes();
    put_target(alloc, target, &mut text)?;
    text.push(b'\n')?;
    Ok(text)
}

fn dialled_bytes(alloc: Global, link: u64, target: Target) -> Result<Vec<u8>, NoMemory>
    ensures { IfOk result (λ text. text.items
        ≡ codes "dialled " ++ decimal link ++ codes " " ++ target_text target ++ codes "\n") }
{
    let head = format!(in alloc; "dialled {link} ")?;
    dial_bytes(alloc, head, target)
}

fn dial_failed_bytes(alloc: Global, target: Target) -> Result<Vec<u8>, NoMemory>
    ensures { IfOk result (λ text. text.items ≡ codes "dial failed " ++ target_text target ++ codes "\n") }
{
    let head = String::from_str(alloc, "dial failed ")?;
    dial_bytes(alloc, head, target)
}

fn entry_bytes(alloc: Global, entry: &Entry) -> Result<Vec<u8>, NoMemory>
    ensures { IfOk result (λ text. text.items ≡ entry_text entry.now) }
{
    let text = match entry {
        Entry::Accepted(link, door) => accepted_text(alloc, *link, *door),
        Entry::Dialled(link, target, _) => return dialled_bytes(alloc, *link, *target),
        Entry::DialFailed(target, _) => return dial_failed_bytes(alloc, *target),
        Entry::Opened(link) => format!(in alloc; "opened {link}\n"),
        Entry::Came(link, bytes) => bytes_text(alloc, "came", *link, bytes),
        Entry::Ended(link) => format!(in alloc; "ended {link}\n"),
        Entry::Broke(link) => format!(in alloc; "broke {link}\n"),
        Entry::Went(link, bytes) => bytes_text(alloc, "went", *link, bytes),
        Entry::Shut(link) => format!(in alloc; "shut {link}\n"),
        Entry::Closed(link, cause) => closed_text(alloc, *link, cause),
        Entry::Tick => String::from_str(alloc, "tick\n"),
        Entry::Balked(_) | Entry::Wait(..) => Ok(String::new(alloc)),
    };
    Ok(text?.into_bytes())
}

/// Appends the line that tells an entry, with its newline; nothing for a call that moved nothing and for a wait.
///
/// Errors: `NoMemory`, and then nothing is appended.
pub fn put_entry(alloc: Global, entry: &Entry, out: &mut Vec<u8>) -> Result<(), NoMemory>
    ensures ok { OnOk result (out.new.items ≡ out.old.items ++ entry_text entry.now) }
    ensures err { OnErr result (out.new.items ≡ out.old.items) }
{
    let text = entry_bytes(alloc, entry)?;
    out.extend_from_slice(text.as_slice())
}
