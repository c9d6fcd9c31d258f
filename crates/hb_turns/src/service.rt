//! A run of the event loop, from its start to its end.

ghost use Rattle.std.specs.Prelude.{◌≡◌, [], true, Some, IfOk, IfSome, OnOk};
ghost use Rattle.std.specs.Option.{option_map};
ghost use Rattle.hb_turns.specs.Faults.{CountsWhole};
ghost use Rattle.hb_turns.specs.Ends.{cause_at, is_fault, end_of};
ghost use Rattle.hb_turns.specs.Leads.{LeadLaw};
ghost use Rattle.hb_turns.specs.Looks.{LooksLaw};
ghost use Rattle.hb_turns.specs.Reckons.{Begins, Finishes};
ghost use Rattle.hb_turns.specs.Served.{IsServed, IsFresh, IsFreshNode, leaves};
ghost use Rattle.hb_turns.specs.Stands.{Left};
ghost use Rattle.hb_turns.specs.Totals.{sums_of};
ghost use Rattle.hb_turns.specs.declared.served.ServeEnd.TheVariants.{TurnsSpent};

use crate::ending::end_run;
use crate::keep::Keep;
use crate::listens::listen;
use crate::node::Node;
use crate::run::{MOST_READ, Records, Run};
use crate::served::{ServeEnd, Served, Totals};
use crate::sums::Sums;
use crate::taken::Taken;
use crate::turns::turns;
use crate::words::ServeWords;
use hb_base::{Cause, NoMemory};
use hb_ready::{Asked, Links};
use hb_world::{Ready, World};
use std::alloc::Global;

/// The listens, and all turns.
fn run_on<W: World, N: Node>(
    run: &mut Run<N>,
    world: &mut W,
    ready: &mut Ready,
    words: ServeWords,
) -> Result<ServeEnd, NoMemory>
    ensures keeps { IfSome (W.trace world.old) (Begins N.stands N.shown run.old [])
        → IfSome (W.trace world.new) (Left N.stands N.shown result run.new) }
    ensures closes { OnOk result ((N.shown run.old.node).none_closes ≡ true → (N.shown run.new.node).none_closes ≡ true) }
    ensures rests { IfOk result (λ end. end ≡ TurnsSpent → (N.shown run.new.node).idle ≡ true) }
    ensures finishes { IfSome (W.trace world.old) (Begins N.stands N.shown run.old [])
        → IfSome (W.trace world.new) (Finishes words (end_of result)) }
    ensures looks { IfSome (W.trace world.old) (Begins N.stands N.shown run.old []) → IfSome (W.trace world.new) LooksLaw }
    ensures leads { IfSome (W.trace world.old) (Begins N.stands N.shown run.old [])
        → IfSome (W.trace world.new) (LeadLaw N.stands N.shown) }
    ensures faults { CountsWhole (W.seen world.old) (W.seen world.new) (is_fault (end_of result)) }
{
    match listen(run, world, words.doors)? {
        Some(end) => return Ok(end),
        None => {}
    }
    turns(run, world, ready, words.turns, words.ticks)
}

/// The cause for which links are closed that live at the run's end.
fn cause_at(end: ServeEnd) -> Cause
    ensures { result ≡ cause_at end }
{
    match end {
        ServeEnd::NoMemory => Cause::NoMemory,
        _ => Cause::Stopped,
    }
}

/// How a run is to end; where memory lacked, so.
fn end_of(ended: Result<ServeEnd, NoMemory>) -> ServeEnd
    ensures { result ≡ end_of ended }
{
    match ended {
        Ok(end) => end,
        Err(_) => ServeEnd::NoMemory,
    }
}

/// The listens, all turns, and the run's end.
fn serve_run<W: World, N: Node>(
    run: &mut Run<N>,
    world: &mut W,
    ready: &mut Ready,
    words: ServeWords,
) -> Served
    ensures served { (N.shown run.old.node).none_closes ≡ true → IfSome (W.trace world.old) (Begins N.stands N.shown run.old [])
        → IfSome (W.trace world.new) (IsServed N.stands N.shown words result (leaves run.new.taken.keep run.new.node)) }
    ensures faults { CountsWhole (W.seen world.old) (W.seen world.new) (is_fault result.end) }
{
    let end = end_of(run_on(run, world, ready, words));
    let noted = end_run(run, world, cause_at(end));
    Served {
        end,
        totals: Totals {
            links: run.records.births,
            accepted: run.taken.sums.accepted,
            revoked: run.records.revoked,
            up: run.taken.sums.up,
            down: run.taken.sums.down,
            lacked: run.taken.sums.lacked,
        },
        wanting: run.records.wanting,
        unkept: noted.is_err(),
    }
}

/// Nothing is known before anything happened.
fn fresh_records(alloc: Global) -> Records
    ensures { IsFresh result }
{
    Records {
        links: Links::new(alloc),
        asked: Asked::new(),
        births: 0,
        wanting: false,
        revoked: 0,
    }
}

/// Room for one read.
///
/// Errors: `NoMemory`.
fn read_buffer(alloc: Global) -> Result<Vec<u8>, NoMemory> {
    let mut buffer = Vec::with_capacity(alloc, MOST_READ)?;
    buffer.resize(MOST_READ, 0)?;
    Ok(buffer)
}

/// Room for one read, and for what a wait names.
///
/// Errors: `NoMemory`.
fn room(alloc: Global) -> Result<(Vec<u8>, Ready), NoMemory> {
    let buffer = read_buffer(alloc)?;
    let ready = Ready::new(alloc)?;
    Ok((buffer, ready))
}

/// Before anything happened.
fn begin<N: Node>(alloc: Global, node: N, keep: Keep, buffer: Vec<u8>) -> Run<N>
    ensures node { result.node ≡ node }
    ensures keep { result.taken.keep ≡ keep }
    ensures sums { result.taken.sums ≡ sums_of [] }
    ensures fresh { IsFresh result.records }
{
    Run {
        node,
        records: fresh_records(alloc),
        taken: Taken {
            keep,
            sums: Sums::new(),
        },
        buffer,
    }
}

/// Runs a node over a world: it listens at the doors, then goes on until a listen or a wait fails, a wait tells a stop, the ticks
/// passed or the turns are spent, or memory lacks. Then the node is told, each link is closed, and the last notes are taken. The keep
/// holds the notes of this run alone, and the node is handed back. Where the world tells its trace, and no call was made on it before,
/// the trace is that of a run that is over.
pub fn serve<W: World, N: Node + Drop>(
    alloc: Global,
    node: N,
    words: ServeWords,
    keep: &mut Keep,
    world: &mut W,
) -> (Served, N)
    requires stands { N.stands [] node [] }
    requires fresh { IsFreshNode (N.shown node) }
    ensures served { W.trace world.old ≡ Some []
        → IfSome (W.trace world.new) (IsServed N.stands N.shown words result.0 (leaves keep.new result.1)) }
    ensures faults { CountsWhole (W.seen world.old) (W.seen world.new) (is_fault result.0.end) }
{
    let Ok((buffer, mut ready)) = room(alloc) else {
        return (Served::nothing(), node);
    };
    let mut run = begin(alloc, node, keep.emptied(alloc), buffer);
    let served = serve_run(&mut run, world, &mut ready, words);
    let Run { node, taken, .. } = run;
    *keep = taken.keep;
    (served, node)
}
