//! Laws of traces, which no code calls: what is known of links and doors, and what the awake law refuses.

ghost use Rattle.hb_ready.specs.Refused.{AsksAgain, ReadsAgain, WritesAgain, ReadsUnnamed, BreaksAsleep, LooksAtWhole, LooksAtOnce, LooksAgain, GoodLooks, AcceptsUnasked, AcceptsAgain, GoodTraceIsAwake};
ghost use Rattle.hb_ready.specs.SightLaws.{KnownGrows, AskedGrows, NumberedGrows};

/// What is known of links and doors behind one more entry.
pub fn what_is_known_grows()
    ensures known { KnownGrows }
    ensures asked { AskedGrows }
    ensures numbered { NumberedGrows }
{}

/// No trace obeys it in which a way of a link is tried again though nothing woke it.
pub fn calls_asleep_are_refused()
    ensures asks { AsksAgain }
    ensures reads { ReadsAgain }
    ensures writes { WritesAgain }
    ensures unnamed { ReadsUnnamed }
    ensures breaks { BreaksAsleep }
{}

/// Nor one with a look at a link whose peer may send more, or where nothing woke it since its end or the last look; one does with a look
/// behind each wait that names it.
pub fn looks_asleep_are_refused()
    ensures whole { LooksAtWhole }
    ensures at_once { LooksAtOnce }
    ensures again { LooksAgain }
    ensures good { GoodLooks }
{}

/// Nor one with an accept at a door that no wait named since.
pub fn accepts_unasked_are_refused()
    ensures unasked { AcceptsUnasked }
    ensures again { AcceptsAgain }
{}

/// A trace obeys it in which each call stands behind a wait that names its link or its door.
pub fn a_good_trace_is_awake()
    ensures { GoodTraceIsAwake }
{}
