//! Of hb_script.

ghost use Rattle.hb_base.specs.Outcome.{Answers};
ghost use Rattle.hb_script.specs.Script.{lines};

use hb_base::{List, Or};
use hb_script::ScriptFault;
use hb_world::Line;
use std::alloc::Global;

/// `read_script`, with its Errors.
pub fn read_script(alloc: Global, b: &[u8]) -> Result<List<Line>, Or<ScriptFault>>
    ensures { Answers result (lines b.now) }
{
    hb_script::read_script(alloc, b)
}
