//! Of hb_flow.

ghost use Rattle.std.specs.Prelude.{◌≡◌, ◌≤◌, IfSome};
ghost use Rattle.std.specs.FinMap.{get};
ghost use Rattle.hb_flow.specs.Flows.{owed_on};

use hb_flow::Flow;

/// `Flow::owe_stream`.
pub fn owe_stream(flow: &mut Flow, stream: u32, n: u32)
    requires { IfSome (get flow.old.streams stream) (λ w. n ≤ w.taking.kept) }
    ensures { flow.new ≡ owed_on flow.old stream n }
{
    flow.owe_stream(stream, n);
}
