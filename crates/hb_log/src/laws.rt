//! Small examples of what is told to a log, right and wrong. Each is the contract of a function that does nothing.

ghost use Rattle.hb_log.specs.Examples.{LineOfDoor, LineOfDial, LineOfFifth, LineOfOpen, LineOfEnd, LineOfWord, LineOfWay, LineOfClose};
ghost use Rattle.hb_log.specs.Examples.{LineOfMore, PlainCause};
ghost use Rattle.hb_log.specs.Examples.{FirstIsTold, SecondIsNot, TenthIsTold, LaterIsNot, SecondIsTold, TenthIsNot, TenthIsFirst};
ghost use Rattle.hb_log.specs.Examples.{OpenIsFirst, GatewayIsNoAttempt, LackIsNoAttempt};
ghost use Rattle.hb_log.specs.Examples.{WayIsTold, FailedWayIsTold, WayOfOther, WayOfNone, PlainWay};
ghost use Rattle.hb_log.specs.Examples.{FaultIsTold, DoneIsNot, MostIsNot, OtherIsNot, FaultIsNot, MostIsTold, MoreIsCounted};
ghost use Rattle.hb_log.specs.Examples.{LinkIsForgotten};
ghost use Rattle.hb_log.specs.Examples.{TickTells, TickIsQuiet, TickBegins};
ghost use Rattle.hb_log.specs.Examples.{LineIsHanded, LackIsCounted, NothingIsHanded};
ghost use Rattle.hb_log.specs.Examples.{LineVanishes, LineIsAnother, LineIsTwice, LineIsCut, LineIsInvented};

/// Lines, one of each form. A cause with a space stands in double quotes.
pub fn facts_have_these_lines()
    ensures door { LineOfDoor }
    ensures dial { LineOfDial }
    ensures fifth { LineOfFifth }
    ensures open { LineOfOpen }
    ensures end { LineOfEnd }
    ensures word { LineOfWord }
    ensures way { LineOfWay }
    ensures close { LineOfClose }
    ensures more { LineOfMore }
    ensures plain { PlainCause }
{}

/// Of attempts in a row the first and the tenth are told, and no other.
pub fn attempts_in_a_row_are_told_twice()
    ensures first { FirstIsTold }
    ensures second { SecondIsNot }
    ensures tenth { TenthIsTold }
    ensures later { LaterIsNot }
    ensures second_told { SecondIsTold }
    ensures tenth_not { TenthIsNot }
    ensures tenth_first { TenthIsFirst }
{}

/// Attempts are counted from the last open link on, and are those at the control plane.
pub fn attempts_are_counted_since_a_link_was_open()
    ensures open { OpenIsFirst }
    ensures gateway { GatewayIsNoAttempt }
    ensures lack { LackIsNoAttempt }
{}

/// The way of an outbound link that goes straight is told, under its own number, where one was dialled; no other link has one.
pub fn ways_are_told()
    ensures told { WayIsTold }
    ensures failed { FailedWayIsTold }
    ensures other { WayOfOther }
    ensures none { WayOfNone }
    ensures plain { PlainWay }
{}

/// A link of a door is told where it is closed for a fault, up to the sixty-fourth between two ticks.
pub fn closed_links_of_doors_are_told()
    ensures fault { FaultIsTold }
    ensures done { DoneIsNot }
    ensures most { MostIsNot }
    ensures other { OtherIsNot }
    ensures fault_not { FaultIsNot }
    ensures most_told { MostIsTold }
{}

/// What isn't told is counted until the next tick.
pub fn more_are_counted()
    ensures counted { MoreIsCounted }
    ensures forgotten { LinkIsForgotten }
    ensures tick { TickTells }
    ensures quiet { TickIsQuiet }
    ensures begins { TickBegins }
{}

/// A line is handed on whole and once, or memory lacked, which is counted.
pub fn lines_are_handed_on()
    ensures handed { LineIsHanded }
    ensures lack { LackIsCounted }
    ensures nothing { NothingIsHanded }
    ensures vanishes { LineVanishes }
    ensures another { LineIsAnother }
    ensures twice { LineIsTwice }
    ensures cut { LineIsCut }
    ensures invented { LineIsInvented }
{}
