//! A run over a script, and what is told of it.

ghost use Rattle.std.specs.Prelude.{◌≡◌, [], None, IfOk};
ghost use Rattle.hb_audit.specs.HeldBy.{each, answers_by};
ghost use Rattle.hb_base.specs.Outcome.{Answers};
ghost use Rattle.hb_report.specs.Report.{report};
ghost use Rattle.hb_reason.specs.Reasons.{Hear};
ghost use Rattle.hb_script.specs.Script.{lines};
ghost use Rattle.hb_turns.specs.Notes.{held};
ghost use Rattle.hb_turns.specs.Totals.{totals_of};
ghost use Rattle.hb_words.specs.AskedRun.{replay_seen};
ghost use Rattle.hb_cli.specs.Asked.{words_of};
ghost use Rattle.hb_cli.specs.Replaying.{flags_of, done_by, run_state, IsRun, DoneLawfully, ReplaysLines, Replays, TellsNotes};

use crate::asked::serve_words;
use crate::ended::{ReplayEnd, ended_as};
use hb_audit::{Audit, Audits};
use hb_base::{Bytes, List, NoMemory, Note, Or};
use hb_report::{Flags, put_report};
use hb_script::{ScriptFault, read_script};
use hb_serve::serve;
use hb_turns::{Keep, Totals};
use hb_words::Replay;
use hb_world::{Entry, Line, ScriptWorld};
use std::alloc::Global;

/// A run that ended, and the report of it.
#[derive(Drop)]
pub struct Replayed {
    pub end: ReplayEnd,
    pub report: Vec<u8>,
}

/// Runs the proxy over a script in which nothing happened yet. Gives how it ended, and its totals.
fn run_over<A: Audit>(
    alloc: Global,
    words: &Replay<'_>,
    keep: &mut Keep,
    audits: &mut Audits<A>,
    script: &mut ScriptWorld,
) -> Result<(ReplayEnd, Totals), NoMemory>
    requires { script.old.trace ≡ [] }
    ensures lines { script.new.lines ≡ script.old.lines }
    ensures lawful { DoneLawfully (replay_seen words.now) script.new.trace }
    ensures runs { IfOk result (λ ran. IsRun (replay_seen words.now) ran.0 (done_by script.new.trace keep.new)) }
    ensures totals { IfOk result (λ ran. ran.1 ≡ totals_of script.new.trace (held keep.new)) }
    ensures told { IfOk result (λ ran. Hear (answers_by A.notes A.answers) (words_of (replay_seen words.now).run None).config
        script.new.trace (each audits.old) (each audits.new) (held keep.new)) }
{
    let asked = serve_words(alloc, &words.run, None)?;
    let served = serve(alloc, asked, keep, audits, script);
    if !keep.keeps() {
        return Err(NoMemory);
    }
    match ended_as(&served) {
        Some(end) => Ok((end, served.totals)),
        None => Err(NoMemory),
    }
}

/// The report of a run with this trace, these notes and these totals.
fn report_of(
    alloc: Global,
    words: &Replay<'_>,
    trace: &[Entry],
    notes: &[Note],
    totals: &Totals,
) -> Result<Vec<u8>, NoMemory>
    ensures { IfOk result (λ text. text.items ≡ report (flags_of (replay_seen words.now)) trace.now notes.now totals.now) }
{
    let flags = Flags {
        trace: words.trace,
        brief: words.brief,
    };
    let mut text = Vec::new(alloc);
    put_report(alloc, &flags, trace, notes, totals, &mut text)?;
    Ok(text)
}

/// The lines that a text spells. The text is given back before the run, which takes memory of its own.
fn lines_of(alloc: Global, text: Bytes) -> Result<List<Line>, Or<ScriptFault>>
    ensures { Answers result (lines text) }
{
    read_script(alloc, text.as_slice())
}

/// Runs the proxy over these lines, in whose world nothing happened yet. The notes of the run are left in `keep`, and told to the
/// audits with their reasons; one that doesn't keep each is dropped.
///
/// Errors: `NoMemory`, and then nothing is done, or a run was served, whose links are all closed; so also where `keep` keeps no
/// notes.
pub fn replay_lines<A: Audit>(
    alloc: Global,
    words: &Replay<'_>,
    lines: List<Line>,
    keep: &mut Keep,
    audits: &mut Audits<A>,
    script: &mut ScriptWorld,
) -> Result<Replayed, NoMemory>
    requires lines { script.old.lines ≡ [] }
    requires trace { script.old.trace ≡ [] }
    ensures replays { ReplaysLines (replay_seen words.now) lines (run_state script.new keep.new) result }
    ensures tells { IfOk result (λ _. Hear (answers_by A.notes A.answers) (words_of (replay_seen words.now).run None).config
        script.new.trace (each audits.old) (each audits.new) (held keep.new)) }
{
    script.load(lines)?;
    let (end, totals) = run_over(alloc, words, keep, audits, script)?;
    let report = report_of(alloc, words, script.entries(), keep.notes(), &totals)?;
    Ok(Replayed { end, report })
}

/// Runs the proxy over the script that a text spells, in whose world nothing happened yet. The notes of the run are left in `keep`, and
/// told to the audits with their reasons; one that doesn't keep each is dropped.
///
/// Errors: the fault of the first row that is no line, and then nothing is done; and `NoMemory`, and then nothing is
/// done, or a run was served, whose links are all closed; so also where `keep` keeps no notes.
pub fn replay<A: Audit>(
    alloc: Global,
    words: &Replay<'_>,
    text: Bytes,
    keep: &mut Keep,
    audits: &mut Audits<A>,
    script: &mut ScriptWorld,
) -> Result<Replayed, Or<ScriptFault>>
    requires lines { script.old.lines ≡ [] }
    requires trace { script.old.trace ≡ [] }
    ensures replays { Replays (replay_seen words.now) text (run_state script.new keep.new) result }
    ensures tells { TellsNotes (answers_by A.notes A.answers) (replay_seen words.now) (each audits.old) (each audits.new)
        (done_by script.new.trace keep.new) result }
{
    let lines = lines_of(alloc, text)?;
    Ok(replay_lines(alloc, words, lines, keep, audits, script)?)
}
