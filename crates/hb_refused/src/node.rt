//! Of hb_node.

ghost use Rattle.std.specs.Prelude.{◌≡◌, is_none, IfOk};
ghost use Rattle.hb_world.specs.declared.entry.Entry.TheVariants as e;
ghost use Rattle.hb_node.specs.State.{due_of, after_act, Enters, EntersAlone, EntersJudged, Answers, NoneIsDue, Acts};

use hb_base::{NoMemory, Why};
use hb_model::Act;
use hb_node::{Judge, Node};

/// `Node::dialled`, with its Errors.
pub fn dialled(node: &mut Node, why: Why, link: Option<u64>) -> Result<(), NoMemory>
    ensures machine { IfOk result (λ _. Answers why link node.old node.new) }
    ensures due { IfOk result (λ _. NoneIsDue why node.old node.new) }
{
    node.dialled(why, link)
}

/// `Node::take_bytes`, with its Errors.
pub fn take_bytes<J: Judge>(
    node: &mut Node,
    link: u64,
    b: &[u8],
    judge: &mut J,
) -> Result<(), NoMemory>
    ensures judged { IfOk result (λ _. EntersJudged J.judges (e.Came link b.now) node.old node.new judge.old judge.new) }
    ensures enters { IfOk result (λ _. Enters (e.Came link b.now) node.old node.new) }
{
    node.take_bytes(link, b, judge)
}

/// `Node::tick`.
pub fn tick(node: &mut Node)
    ensures state { node.new ≡ record node.old { dials = is_none node.old.link } }
    ensures enters { EntersAlone e.Tick node.old node.new }
{
    node.tick();
}

/// `Node::next_act`, with its None.
pub fn next_act(node: &mut Node) -> Option<Act>
    ensures act { result ≡ due_of node.old }
    ensures after { node.new ≡ after_act node.old }
    ensures machine { Acts result node.old node.new }
{
    node.next_act()
}
