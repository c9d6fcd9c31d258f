//! What no call of a link may be, a link that may be shown, and whether bytes may be put there. Each is the contract of a function that
//! does nothing.

ghost use Rattle.hb_gate.specs.Refused.{PutsWithoutRoom, AsksElsewhere, OffersAway, ReadsFaulted, ResetsNothing};
ghost use Rattle.hb_gate.specs.Refused.{TellsUnheard, LeavesUntold, ClosesUndue, ClosesAnother, NewIsShown};
ghost use Rattle.hb_gate.specs.Refused.{PutsBehindOctets, KeepsBackBehindNone, PutsInTurn};

/// No octet is put where none may be, and no stream is asked for but the next one, nor offered behind a GOAWAY. Behind a connection error
/// nothing is read.
pub fn too_much_is_refused()
    ensures puts { PutsWithoutRoom }
    ensures asks { AsksElsewhere }
    ensures offers { OffersAway }
    ensures reads { ReadsFaulted }
{}

/// A stream that is to be reset isn't left so. A tunnel is told its end once, and none is left untold.
pub fn ends_are_followed()
    ensures resets { ResetsNothing }
    ensures twice { TellsUnheard }
    ensures untold { LeavesUntold }
{}

/// It is closed only where that is due, and no other link is.
pub fn other_closes_are_refused()
    ensures undue { ClosesUndue }
    ensures another { ClosesAnother }
{}

/// A link that was dialled just now is shown.
pub fn a_new_link_is_shown()
    ensures { NewIsShown }
{}

/// Bytes may be put only where no octet waits to be written, and may be there.
pub fn other_turns_are_refused()
    ensures behind { PutsBehindOctets }
    ensures none { KeepsBackBehindNone }
{}

/// So it is told of a link whose first octets wait, and of one where they went.
pub fn turns_are_told()
    ensures { PutsInTurn }
{}
