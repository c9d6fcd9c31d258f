//! Links that code may not show, a call that isn't what it says, links that may be shown, and which are passed over. Each is the contract
//! of a function that does nothing.

ghost use Rattle.hb_relays.specs.Refused.{LacksUp, FindsClosed, LacksLink, KeepsUnderAnother, KeepsClosed, MissesDial, ForgetsLink};
ghost use Rattle.hb_relays.specs.Refused.{Miscounts, MistakesPort, LacksGate, KeepsClosedGate, MissesClose, WaitsThough, OneIsShown};
ghost use Rattle.hb_relays.specs.RestsRefused.{MissesPut, PassesOver, PassesOverAmong, RestsAreTold, OthersSayNothing};

/// Each upstream that isn't closed is found, and no other one; each link that is open is kept, under its own number, and none that is
/// closed; and of a link that isn't among those that may have an act due none is. The connections are counted, gateways have their port;
/// so it is of links to them, and no link waits for one while one of its key has room.
pub fn other_links_are_not_shown()
    ensures lacks { LacksUp }
    ensures finds { FindsClosed }
    ensures link { LacksLink }
    ensures number { KeepsUnderAnother }
    ensures closed { KeepsClosed }
    ensures act { MissesDial }
    ensures counts { Miscounts }
    ensures port { MistakesPort }
    ensures gate { LacksGate }
    ensures closed_gate { KeepsClosedGate }
    ensures close { MissesClose }
    ensures waits { WaitsThough }
{}

/// A link that is accepted is kept.
pub fn a_link_is_not_forgotten()
    ensures { ForgetsLink }
{}

/// One link that was taken in, and no other, is shown by one that is kept.
pub fn links_are_shown()
    ensures { OneIsShown }
{}

/// No link is passed over of which a byte may be put.
pub fn bytes_are_not_passed_over()
    ensures put { MissesPut }
    ensures rests { PassesOver }
    ensures among { PassesOverAmong }
{}

/// One of which no byte waits may be; and none need be.
pub fn links_may_be_passed_over()
    ensures told { RestsAreTold }
    ensures others { OthersSayNothing }
{}
