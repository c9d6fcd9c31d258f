//! Of hb_serve.

ghost use Rattle.std.specs.Prelude.{◌≡◌, [], Some, IfSome};
ghost use Rattle.hb_audit.specs.HeldBy.{each, answers_by};
ghost use Rattle.hb_serve.specs.Served.{Serves, heard_of};
ghost use Rattle.hb_turns.specs.Ends.{is_fault};
ghost use Rattle.hb_turns.specs.Faults.{CountsWhole};

use hb_audit::{Audit, Audits};
use hb_serve::ServeWords;
use hb_turns::{Keep, Served};
use hb_world::World;
use std::alloc::Global;

/// `serve`.
pub fn serve<A: Audit, W: World>(
    alloc: Global,
    words: ServeWords,
    keep: &mut Keep,
    audits: &mut Audits<A>,
    world: &mut W,
) -> Served
    ensures served { W.trace world.old ≡ Some [] → IfSome (W.trace world.new)
        (Serves words result keep.new (heard_of (answers_by A.notes A.answers) (each audits.old) (each audits.new))) }
    ensures faults { CountsWhole (W.seen world.old) (W.seen world.new) (is_fault result.end) }
{
    hb_serve::serve(alloc, words, keep, audits, world)
}
