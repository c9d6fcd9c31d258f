//! The metrics of a run, in the text format of Prometheus.

use crate::counts::{Counter, Counts};
use hb_base::NoMemory;
use std::alloc::Global;

/// Adds what stands before the samples of a metric.
fn add_head(text: &mut String, name: &str, kind: &str, help: &str) -> Result<(), NoMemory> {
    text.push_str("# HELP ")?;
    text.push_str(name)?;
    text.push_str(" ")?;
    text.push_str(help)?;
    text.push_str("\n# TYPE ")?;
    text.push_str(name)?;
    text.push_str(" ")?;
    text.push_str(kind)?;
    text.push_str("\n")
}

/// Adds a sample: a metric with its labels, and its number.
fn add_sample(
    text: &mut String,
    alloc: Global,
    name: &str,
    labels: &str,
    number: u64,
) -> Result<(), NoMemory> {
    let line = format!(in alloc; "{name}{labels} {number}\n")?;
    text.push_str(line.as_str())
}

/// Adds a metric of one sample.
fn add_one(
    text: &mut String,
    alloc: Global,
    name: &str,
    kind: &str,
    help: &str,
    number: u64,
) -> Result<(), NoMemory> {
    add_head(text, name, kind, help)?;
    add_sample(text, alloc, name, "", number)
}

/// Adds a sample for each word.
fn add_each(
    text: &mut String,
    alloc: Global,
    name: &str,
    label: &str,
    counters: &[Counter],
) -> Result<(), NoMemory> {
    for counter in counters {
        let word = counter.word;
        let labels = format!(in alloc; "{{{label}=\"{word}\"}}")?;
        add_sample(text, alloc, name, labels.as_str(), counter.times())?;
    }
    Ok(())
}

/// Adds what is known of tunnels.
fn add_tunnels(text: &mut String, alloc: Global, counts: &Counts) -> Result<(), NoMemory> {
    add_one(
        text,
        alloc,
        "hbone_tunnels_open",
        "gauge",
        "Tunnels and captured connections that are open.",
        counts.open(),
    )?;
    let answers = "hbone_answers_total";
    add_head(
        text,
        answers,
        "counter",
        "Answers to requests for a tunnel and to captured connections, by status.",
    )?;
    add_each(text, alloc, answers, "status", counts.answers.as_slice())?;
    let ends = "hbone_ends_total";
    add_head(
        text,
        ends,
        "counter",
        "Ends of tunnels and captured connections that were let in, by cause.",
    )?;
    add_each(text, alloc, ends, "cause", counts.ends.as_slice())?;
    let bytes = "hbone_bytes_total";
    add_head(
        text,
        bytes,
        "counter",
        "Bytes of those that ended, to the side that was dialled (up) and back (down).",
    )?;
    add_sample(text, alloc, bytes, "{direction=\"up\"}", counts.up())?;
    add_sample(text, alloc, bytes, "{direction=\"down\"}", counts.down())
}

/// Adds what is known of links, of what is held, and of responses.
fn add_mesh(text: &mut String, alloc: Global, counts: &Counts) -> Result<(), NoMemory> {
    let links = "hbone_links";
    add_head(text, links, "gauge", "Links that live, by kind.")?;
    add_each(text, alloc, links, "kind", counts.links.as_slice())?;
    let held = "hbone_held";
    add_head(
        text,
        held,
        "gauge",
        "Resources that are held, as of the last tick, by kind.",
    )?;
    add_each(text, alloc, held, "kind", counts.held.as_slice())?;
    let updates = "hbone_updates_total";
    add_head(
        text,
        updates,
        "counter",
        "Discovery responses that were applied, by kind.",
    )?;
    add_each(text, alloc, updates, "kind", counts.updates.as_slice())?;
    let refused = "hbone_refused_total";
    add_head(
        text,
        refused,
        "counter",
        "Resources of discovery responses that were refused, by kind.",
    )?;
    add_each(text, alloc, refused, "kind", counts.refused.as_slice())
}

/// Adds what is known of the event loop, which was seen to look up so many seconds ago, of the control plane, and of the lines of notes.
fn add_loop(text: &mut String, alloc: Global, counts: &Counts, quiet: u64) -> Result<(), NoMemory> {
    add_one(
        text,
        alloc,
        "hbone_looks_total",
        "counter",
        "How often the event loop looked up: its waits and glances.",
        counts.looks(),
    )?;
    add_one(
        text,
        alloc,
        "hbone_quiet_seconds",
        "gauge",
        "Seconds since the event loop was seen to look up.",
        quiet,
    )?;
    add_one(
        text,
        alloc,
        "hbone_synced",
        "gauge",
        "1 once workloads and policies were told, as of the last tick.",
        u64::from(counts.is_synced()),
    )?;
    add_one(
        text,
        alloc,
        "hbone_log_stopped",
        "gauge",
        "1 once a line of a note couldn't be taken, since when none is written.",
        u64::from(counts.is_silent()),
    )
}

/// The metrics of a run whose loop was seen to look up so many seconds ago.
///
/// Errors: `NoMemory`.
pub(crate) fn metrics(alloc: Global, counts: &Counts, quiet: u64) -> Result<String, NoMemory> {
    let mut text = String::new(alloc);
    add_tunnels(&mut text, alloc, counts)?;
    add_mesh(&mut text, alloc, counts)?;
    add_loop(&mut text, alloc, counts, quiet)?;
    Ok(text)
}
