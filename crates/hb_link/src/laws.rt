//! Links that code may not show, what may not follow by itself, nor may be left untold, and a link that may be shown. Each is the
//! contract of a function that does nothing.

ghost use Rattle.hb_link.specs.Refused.{KeepsNone, LivesEarly, HasAnother, PutsLater, AnswersLater, GetsLater};
ghost use Rattle.hb_link.specs.Refused.{ForgetsRoused, WakesNone, SkipsRoused, MayRouseAll};
ghost use Rattle.hb_link.specs.Refused.{FindsTaken, FindsLeft, MayFind, AnswersUncounted, WelcomesUncounted, AnswersAtBirth};
ghost use Rattle.hb_link.specs.Refused.{TellsNone, TellsHigherFirst, TellsTwice, TellsBehindLost, NewIsShown};

/// A link has a tunnel for each that lives, at its stage, and the same connection while it serves. Between two calls nothing more could
/// be put, and each tunnel that ended got what its stream gets.
pub fn other_links_are_not_shown()
    ensures none { KeepsNone }
    ensures early { LivesEarly }
    ensures another { HasAnother }
    ensures puts { PutsLater }
    ensures answers { AnswersLater }
    ensures gets { GetsLater }
{}

/// The end of a tunnel is told, and of two those of the lower stream first.
pub fn ends_are_told_in_order()
    ensures none { TellsNone }
    ensures order { TellsHigherFirst }
{}

/// A note is told once, and none is told behind one that was lost.
pub fn notes_are_told_once()
    ensures twice { TellsTwice }
    ensures behind { TellsBehindLost }
{}

/// An upstream that was roused still is, until it is told, and so is one of which something may be read, where nothing was before.
pub fn roused_upstreams_are_told()
    ensures forgets { ForgetsRoused }
    ensures wakes { WakesNone }
    ensures skips { SkipsRoused }
    ensures all { MayRouseAll }
{}

/// A request finds all places taken exactly where they are; none is answered, nor the link taken in, by a call that counts none.
pub fn places_are_counted()
    ensures taken { FindsTaken }
    ensures left { FindsLeft }
    ensures may { MayFind }
    ensures uncounted { AnswersUncounted }
    ensures welcomes { WelcomesUncounted }
    ensures birth { AnswersAtBirth }
{}

/// A link that was taken in just now is shown by one without bytes and tunnels.
pub fn a_new_link_is_shown()
    ensures { NewIsShown }
{}
