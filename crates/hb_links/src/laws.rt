//! Links that code may not show, and a call that isn't what it says. Each is the contract of a function that does nothing. Links that may
//! be shown are those of `new`.

ghost use Rattle.hb_links.specs.Refused.{LacksUp, FindsClosed, LacksLink, KeepsUnderAnother, KeepsClosed, MissesDial, ForgetsLink, LeavesBoth, LeavesOne};

/// Each upstream that isn't closed is found, and no other one; each link that is open is kept, and no other one, under its own number; and of a link that
/// isn't among those that may have an act due none is.
pub fn other_links_are_not_shown()
    ensures lacks { LacksUp }
    ensures finds { FindsClosed }
    ensures link { LacksLink }
    ensures number { KeepsUnderAnother }
    ensures closed { KeepsClosed }
    ensures act { MissesDial }
{}

/// A link that is accepted is kept.
pub fn a_link_is_not_forgotten()
    ensures { ForgetsLink }
{}

/// Where a plain link takes one place of two, one is left for the tunnels of inbound links.
pub fn plain_links_leave_places()
    ensures both { LeavesBoth }
    ensures one { LeavesOne }
{}
