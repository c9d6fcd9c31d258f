//! Laws of traces, which no code calls: each is proved, and its body is empty.

ghost use Rattle.hb_world.specs.Allowed.{AllowsNothing};
ghost use Rattle.hb_world.specs.TraceLaws.{RecvGrows, SentGrows, BirthsGrow, LivesGrows};

/// What a trace says once one more entry stands at its end.
pub fn a_trace_grows()
    ensures recv { RecvGrows }
    ensures sent { SentGrows }
    ensures births { BirthsGrow }
    ensures lives { LivesGrows }
{}

/// Every script allows the trace in which nothing happened. What its world does later is allowed too: `ScriptWorld::is_allowed`.
pub fn a_script_allows_nothing_done()
    ensures { AllowsNothing }
{}
