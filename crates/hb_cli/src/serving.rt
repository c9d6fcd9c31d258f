//! `serve`: a run of the proxy over a world, and the line of its totals.

ghost use Rattle.std.specs.Prelude.{◌≡◌, ◌≤◌, Some, IsErr, IfOk};
ghost use Rattle.hb_audit.specs.HeldBy.{each, answers_by};
ghost use Rattle.hb_report.specs.Total.{total_line};
ghost use Rattle.hb_serve.specs.Served.{heard_of};
ghost use Rattle.hb_words.specs.AskedRun.{serve_seen};
ghost use Rattle.hb_cli.specs.Ended.{ended_as};
ghost use Rattle.hb_cli.specs.Serving.{Worked, Unused, PrintsRun, ServesAt, world_used};
ghost use Rattle.hb_cli.specs.Use.{used};

use crate::answer::{Printed, end_run, print_text};
use crate::asked::serve_words;
use crate::ended::ended_as;
use crate::replaying::Replayed;
use crate::telling::tell;
use hb_audit::{Audit, Audits};
use hb_base::{NoMemory, Sink};
use hb_report::put_total;
use hb_serve::serve;
use hb_turns::{Keep, Served};
use hb_words::Serve;
use hb_world::World;
use std::alloc::Global;

/// Runs the proxy over a world. Its notes are told to the audits, and aren't kept.
///
/// Errors: `NoMemory`, and then no call was made on the world.
fn serve_over<A: Audit, W: World>(
    alloc: Global,
    words: &Serve<'_>,
    audits: &mut Audits<A>,
    world: &mut W,
) -> Result<Served, NoMemory>
    ensures worked { IfOk result (λ told. Worked (serve_seen words.now)
        (world_used W.trace W.seen world.old world.new (heard_of (answers_by A.notes A.answers) (each audits.old) (each audits.new))) told) }
    ensures unused { IsErr result
        → Unused (world_used W.trace W.seen world.old world.new (heard_of (answers_by A.notes A.answers) (each audits.old) (each audits.new))) }
    ensures follows { (W.seen world.new).script ≡ (W.seen world.old).script }
{
    let asked = serve_words(alloc, &words.run, words.ticks)?;
    Ok(serve(alloc, asked, &mut Keep::none(), audits, world))
}

/// How a run ended, and its total line.
///
/// Errors: `NoMemory`, so where it lacked in the run.
fn told_of(alloc: Global, served: &Served) -> Result<Replayed, NoMemory>
    ensures end { IfOk result (λ told. ended_as served.now ≡ Some told.end) }
    ensures line { IfOk result (λ told. told.report.items ≡ total_line served.now.totals) }
{
    let Some(end) = ended_as(served) else {
        return Err(NoMemory);
    };
    let mut report = Vec::new(alloc);
    put_total(alloc, &served.totals, &mut report)?;
    Ok(Replayed { end, report })
}

/// Prints the total line of a run, and tells how it ended. Gives the status.
pub fn print_total<K: Sink, E: Sink>(told: &Replayed, out: &mut K, err: &mut E) -> u8
    ensures prints { PrintsRun told.now.end told.now.report.items
        (used K.written K.faults out.old out.new) (used E.written E.faults err.old err.new) result }
    ensures later_out { K.faults out.old ≤ K.faults out.new }
    ensures later_err { E.faults err.old ≤ E.faults err.new }
{
    match print_text(out, told.report.as_slice()) {
        Printed::Whole => end_run(told.end, err),
        _ => tell(err, b"hbone: write fault\n", 7),
    }
}

/// Runs the proxy over a world, tells its notes to the audits, prints its totals, and tells how the run ended. Gives the status.
pub fn serve_world<K: Sink, E: Sink, A: Audit, W: World>(
    alloc: Global,
    words: &Serve<'_>,
    out: &mut K,
    err: &mut E,
    audits: &mut Audits<A>,
    world: &mut W,
) -> u8
    ensures serves { ServesAt (serve_seen words.now)
        (world_used W.trace W.seen world.old world.new (heard_of (answers_by A.notes A.answers) (each audits.old) (each audits.new)))
        (used K.written K.faults out.old out.new) (used E.written E.faults err.old err.new) result }
    ensures follows { (W.seen world.new).script ≡ (W.seen world.old).script }
    ensures later_out { K.faults out.old ≤ K.faults out.new }
    ensures later_err { E.faults err.old ≤ E.faults err.new }
{
    let Ok(served) = serve_over(alloc, words, audits, world) else {
        return tell(err, b"hbone: out of memory\n", 9);
    };
    let Ok(told) = told_of(alloc, &served) else {
        return tell(err, b"hbone: out of memory\n", 9);
    };
    print_total(&told, out, err)
}
