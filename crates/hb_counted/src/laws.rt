//! Laws about the definitions that the contracts cite. Each is the contract of a function that does nothing.

ghost use Rattle.hb_counted.specs.Laws.{NoneAreCounted, AddsOne, CountsNone, AddsTwo, KeepsItsCount, StartsThere, StartsBehind};

/// Of no values none is counted in any class.
pub fn none_are_counted()
    ensures { NoneAreCounted }
{}

/// A value under a new number adds one to the count of a class in which it is; none, and two, are wrong.
pub fn a_value_counts_once()
    ensures adds { AddsOne }
    ensures missed { CountsNone }
    ensures doubled { AddsTwo }
{}

/// Once it is in the class no more the count is less by one: the count that it had is wrong.
pub fn an_end_is_counted()
    ensures { KeepsItsCount }
{}

/// A walk over the values of a class may start at the number of the first of them, and not behind. In front of it it may start anywhere:
/// that it starts as late as it may isn't claimed.
pub fn a_start_passes_over_none()
    ensures there { StartsThere }
    ensures behind { StartsBehind }
{}
