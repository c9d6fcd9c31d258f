//! Of hb_turns.

ghost use Rattle.std.specs.Prelude.{◌≡◌, [], Some, IfSome};
ghost use Rattle.hb_turns.specs.Ends.{is_fault};
ghost use Rattle.hb_turns.specs.Faults.{CountsWhole};
ghost use Rattle.hb_turns.specs.Served.{IsServed, IsFreshNode, leaves};

use hb_turns::{Keep, Node, ServeWords, Served};
use hb_world::World;
use std::alloc::Global;

/// `serve`.
pub fn serve<W: World, N: Node + Drop>(
    alloc: Global,
    node: N,
    words: ServeWords,
    keep: &mut Keep,
    world: &mut W,
) -> (Served, N)
    requires stands { N.stands [] node [] }
    requires fresh { IsFreshNode (N.shown node) }
    ensures served { W.trace world.old ≡ Some []
        → IfSome (W.trace world.new) (IsServed N.stands N.shown words result.0 (leaves keep.new result.1)) }
    ensures faults { CountsWhole (W.seen world.old) (W.seen world.new) (is_fault result.0.end) }
{
    hb_turns::serve(alloc, node, words, keep, world)
}
