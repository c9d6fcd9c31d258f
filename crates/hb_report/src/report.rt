//! The report of a run.

ghost use Rattle.std.specs.Prelude.{◌≡◌, ◌++◌, IfOk, OnOk, OnErr};
ghost use Rattle.std.specs.List.{flat_map};
ghost use Rattle.hb_script.specs.EntryText.{entry_text};
ghost use Rattle.hb_report.specs.Report.{report, details, links_text};

use crate::flags::Flags;
use crate::link::put_links;
use crate::note::put_notes;
use crate::tallies::Tallies;
use crate::total::put_total;
use hb_base::{NoMemory, Note};
use hb_script::put_entry;
use hb_turns::Totals;
use hb_world::Entry;
use std::alloc::Global;

/// Appends the lines that tell a trace.
fn put_trace(alloc: Global, trace: &[Entry], out: &mut Vec<u8>) -> Result<(), NoMemory>
    ensures { OnOk result (out.new.items ≡ out.old.items ++ flat_map entry_text trace.now) }
{
    for entry in trace {
        put_entry(alloc, entry, out)?;
    }
    Ok(())
}

fn put_link_lines(alloc: Global, trace: &[Entry], out: &mut Vec<u8>) -> Result<(), NoMemory>
    ensures { OnOk result (out.new.items ≡ out.old.items ++ links_text trace.now) }
{
    let tallies = Tallies::of(alloc, trace)?;
    put_links(alloc, &tallies, trace, out)
}

/// The lines in front of the total line.
fn details(
    alloc: Global,
    flags: &Flags,
    trace: &[Entry],
    notes: &[Note],
) -> Result<Vec<u8>, NoMemory>
    ensures { IfOk result (λ text. text.items ≡ details flags.now trace.now notes.now) }
{
    let mut text = Vec::new(alloc);
    if flags.brief {
        return Ok(text);
    }
    if flags.trace {
        put_trace(alloc, trace, &mut text)?;
    }
    put_link_lines(alloc, trace, &mut text)?;
    put_notes(alloc, notes, &mut text)?;
    Ok(text)
}

/// Appends the report of a run with this trace, these notes and these totals.
///
/// Errors: `NoMemory`, and then nothing is appended.
pub fn put_report(
    alloc: Global,
    flags: &Flags,
    trace: &[Entry],
    notes: &[Note],
    totals: &Totals,
    out: &mut Vec<u8>,
) -> Result<(), NoMemory>
    ensures ok { OnOk result (out.new.items ≡ out.old.items ++ report flags.now trace.now notes.now totals.now) }
    ensures err { OnErr result (out.new.items ≡ out.old.items) }
{
    let mut text = details(alloc, flags, trace, notes)?;
    put_total(alloc, totals, &mut text)?;
    out.extend_from_slice(text.as_slice())
}
