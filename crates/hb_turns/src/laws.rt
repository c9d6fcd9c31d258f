//! What the laws of waits and looks and the record of a run refuse, of whatever node: small wrong traces, and good ones; and what is counted of
//! small traces and notes. Each is the contract of a function that does nothing.

ghost use Rattle.hb_turns.specs.Counted.{SparesAccepted, CountsDialledOnce, SparesStopped, CountsAccepted, CountsLacks, AddsEnds, StopsAtMost};
ghost use Rattle.hb_turns.specs.Refused.{WaitsOverDue, WaitsOverReadable, WaitsOverUnwritten, WaitsUnasked, WaitsUnaccepted, WaitsOverUnlooked, GoodLookIsSettled, GoodTraceIsSettled};
ghost use Rattle.hb_turns.specs.RefusedLeads.{ReadsAnother, TriesAnother, AcceptsAnother, WritesBefore, GoodTraceIsLed};
ghost use Rattle.hb_turns.specs.RefusedLooks.{ReadsOn, ReadsBetween, ReadsBoth, AcceptsOn, GoodTraceIsLooked, GlanceIsSettled};
ghost use Rattle.hb_turns.specs.RefusedRuns.{StopsUnasked, LeavesOpen, ClosesForLack, GoesOnBehind, WaitsPastTurns, GivesUp, GlancesOn};
ghost use Rattle.hb_turns.specs.RefusedRuns.{TicksOnceMore, ListensNowhere, ListensUnasked, ListensInAnotherOrder, LosesNotes, ForgetsNode, GoodRunIsServed};
ghost use Rattle.hb_turns.specs.RefusedRuns.{LacksTwice, LacksUnallowed, LackIsServed, SpendsWithWork};

use crate::node::Node;

/// No run spends its turns while an act is due.
pub fn work_left_at_spent_turns_is_refused<N: Node>()
    ensures { SpendsWithWork N.stands N.shown }
{}

/// No trace obeys it in which a wait stands while something is left to be done.
pub fn hurried_waits_are_refused<N: Node>()
    ensures due { WaitsOverDue N.stands N.shown }
    ensures readable { WaitsOverReadable N.stands N.shown }
    ensures unwritten { WaitsOverUnwritten N.stands N.shown }
    ensures unasked { WaitsUnasked N.stands N.shown }
    ensures unaccepted { WaitsUnaccepted N.stands N.shown }
    ensures unlooked { WaitsOverUnlooked N.stands N.shown }
{}

/// A trace obeys it in which a wait stands once the link that lives balked.
pub fn a_good_trace_is_settled<N: Node>()
    ensures { GoodTraceIsSettled N.stands N.shown }
{}

/// And one in which a wait stands once a look found fine a link that ended and was named.
pub fn a_good_look_is_settled<N: Node>()
    ensures { GoodLookIsSettled N.stands N.shown }
{}

/// No trace obeys the looks law in which one read or one accept more than was stated stands between two looks; one does with a glance
/// between, which the settled law allows wherever no act is due.
pub fn reads_unseen_are_refused<N: Node>()
    ensures on { ReadsOn }
    ensures between { ReadsBetween }
    ensures both { ReadsBoth }
    ensures accepts { AcceptsOn }
    ensures good { GoodTraceIsLooked }
    ensures settled { GlanceIsSettled N.stands N.shown }
{}

/// No trace obeys the lead law in which right behind a look another link is read or tried, one is accepted, or bytes are written, while
/// something may be read on the link that goes first; one does in which that is read, and the other link behind it.
pub fn links_read_before_the_first_are_refused<N: Node>()
    ensures read { ReadsAnother N.stands N.shown }
    ensures tried { TriesAnother N.stands N.shown }
    ensures accepted { AcceptsAnother N.stands N.shown }
    ensures written { WritesBefore N.stands N.shown }
    ensures good { GoodTraceIsLed N.stands N.shown }
{}

/// No run is over that stops unasked, leaves a link open, closes one for another cause, goes on behind its end, waits or ticks more
/// often than was stated, or gives up before its turns are spent, or spends them on glances.
pub fn wrong_ends_are_refused<N: Node>()
    ensures unasked { StopsUnasked N.stands N.shown }
    ensures left_open { LeavesOpen N.stands N.shown }
    ensures lack { ClosesForLack N.stands N.shown }
    ensures behind { GoesOnBehind N.stands N.shown }
    ensures turns { WaitsPastTurns N.stands N.shown }
    ensures gives_up { GivesUp N.stands N.shown }
    ensures glances { GlancesOn N.stands N.shown }
    ensures ticks { TicksOnceMore N.stands N.shown }
{}

/// Nor one that listens at other doors than were given, or in another order.
pub fn wrong_listens_are_refused<N: Node>()
    ensures nowhere { ListensNowhere N.stands N.shown }
    ensures unasked { ListensUnasked N.stands N.shown }
    ensures order { ListensInAnotherOrder N.stands N.shown }
{}

/// Nor one whose notes, as its node gave them, aren't those that are kept, or whose node gave none of them.
pub fn lost_notes_are_refused<N: Node>()
    ensures kept { LosesNotes N.stands N.shown }
    ensures given { ForgetsNode N.stands N.shown }
{}

/// Nor one that ended for want of memory two entries behind all that a node stands for, or at an entry that none allows.
pub fn unstood_lacks_are_refused<N: Node>()
    ensures twice { LacksTwice N.stands N.shown }
    ensures unallowed { LacksUnallowed N.stands N.shown }
{}

/// A run is over that dials a link, lacks memory once the link is open, and closes it.
pub fn a_run_that_lacked_is_served<N: Node>()
    ensures { LackIsServed N.stands N.shown }
{}

/// A run is over that listens at a door, dials a link, is told a stop, and closes the link.
pub fn a_good_run_is_served<N: Node>()
    ensures { GoodRunIsServed N.stands N.shown }
{}

/// Of the links that an update of the policies closes those are counted that were dialled, each once.
pub fn dialled_links_alone_are_revoked()
    ensures accepted { SparesAccepted }
    ensures dialled { CountsDialledOnce }
    ensures stopped { SparesStopped }
{}

/// Of the notes the verdicts of 200 are counted, and the bytes of the tunnels that ended are added, each way up to 2^64 - 1.
pub fn notes_are_counted()
    ensures accepted { CountsAccepted }
    ensures lacks { CountsLacks }
    ensures ends { AddsEnds }
    ensures most { StopsAtMost }
{}
