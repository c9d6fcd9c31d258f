//! The line that tells why a peer was denied.

ghost use Rattle.std.specs.Prelude.{◌≡◌, ◌++◌, string_bytes, OnOk};
ghost use Rattle.hb_audit.specs.Told.{reason_as, told_of};
ghost use Rattle.hb_line_audit.specs.Why.{place_in, reason_text, why_line, told_line};

use hb_audit::Reason;
use hb_base::{NoMemory, Note};
use hb_quote::add_policy;
use hb_report::add_note;
use std::alloc::Global;

/// Appends the link and the stream of a note.
fn add_place(note: &Note, line: &mut String) -> Result<(), NoMemory>
    ensures { OnOk result (string_bytes line.new ≡ string_bytes line.old ++ place_in note.now) }
{
    match note {
        Note::Verdict { link, stream, .. } | Note::End { link, stream, .. } => {
            write!(line, "{link}/{stream}")
        }
    }
}

fn add_reason(alloc: Global, reason: Reason<'_>, line: &mut String) -> Result<(), NoMemory>
    ensures { OnOk result (string_bytes line.new ≡ string_bytes line.old ++ reason_text (reason_as reason.entry)) }
{
    match reason {
        Reason::DeniedBy { namespace, name } => {
            line.push_str("denied_by=")?;
            add_policy(alloc, namespace, name, line)
        }
        Reason::NoneAllows(many) => write!(line, "none_allows={many}"),
    }
}

fn add_why(
    alloc: Global,
    note: &Note,
    reason: Reason<'_>,
    line: &mut String,
) -> Result<(), NoMemory>
    ensures { OnOk result (string_bytes line.new ≡ string_bytes line.old ++ why_line note.now (reason_as reason.entry)) }
{
    line.push_str("why ")?;
    add_place(note, line)?;
    line.push_str(" ")?;
    add_reason(alloc, reason, line)?;
    line.push_str("\n")
}

/// Appends the line of a note, and behind it the one of its reason, where it has one.
///
/// Errors: `NoMemory`, and then a part of them may be appended.
pub(crate) fn add_told(
    alloc: Global,
    note: &Note,
    reason: Option<Reason<'_>>,
    line: &mut String,
) -> Result<(), NoMemory>
    ensures { OnOk result (string_bytes line.new ≡ string_bytes line.old ++ told_line (told_of note.now reason.entry)) }
{
    add_note(note, line)?;
    match reason {
        Some(reason) => add_why(alloc, note, reason, line),
        None => Ok(()),
    }
}
