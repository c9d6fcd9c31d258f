//! Links that code may not show, an end that isn't told, what may not come on a stream, links that may be shown, and whether bytes wait
//! there. Each is the contract of a function that does nothing.

ghost use Rattle.hb_relay.specs.Refused.{LivesEarly, DropsBytes, GoesOnDone, NotesLater, FailsLater, EndsUntold, NewIsShown};
ghost use Rattle.hb_relay.specs.StreamRefused.{AsksUnwanted, LacksUnwanted, AsksTwice, HearsUnasked, BringsEarly};
ghost use Rattle.hb_relay.specs.StreamRefused.{PutsOther, FinishesEarly, CreditsMore, CompletesEarly, StreamIsShown};
ghost use Rattle.hb_relay.specs.StreamRefused.{FindsBytesInNone, MissesByte, BytesAreFound};

/// A link lives only once its upstream, or its stream, is open, and keeps the bytes that wait. Between two calls none is done and goes on
/// without a stream, and each opening and end is noted.
pub fn other_links_are_not_shown()
    ensures early { LivesEarly }
    ensures drops { DropsBytes }
    ensures done { GoesOnDone }
    ensures notes { NotesLater }
    ensures fails { FailsLater }
{}

/// The end of a link that lived is told.
pub fn ends_are_told()
    ensures { EndsUntold }
{}

/// A link that was taken in just now is shown by one without bytes.
pub fn a_new_link_is_shown()
    ensures { NewIsShown }
{}

/// A stream is asked for, or lacked, only where one is wanted, and once; and what is heard there is heard behind that, bytes behind its
/// opening.
pub fn no_stream_comes_unasked()
    ensures unwanted { AsksUnwanted }
    ensures lacks { LacksUnwanted }
    ensures twice { AsksTwice }
    ensures hears { HearsUnasked }
    ensures early { BringsEarly }
{}

/// What is put on a stream waited for it, no more is given back than was written, and each side ends behind its last byte.
pub fn nothing_goes_early()
    ensures puts { PutsOther }
    ensures finishes { FinishesEarly }
    ensures credits { CreditsMore }
    ensures completes { CompletesEarly }
{}

/// A link whose stream was asked for just now is shown, so is one that lives there, and one that was done there.
pub fn a_link_on_a_stream_is_shown()
    ensures { StreamIsShown }
{}

/// Of a link on a stream it isn't told that bytes wait where none does, nor that none does where one waits.
pub fn other_bytes_are_not_found()
    ensures none { FindsBytesInNone }
    ensures one { MissesByte }
{}

/// It is told which of both it is.
pub fn waiting_bytes_are_found()
    ensures { BytesAreFound }
{}
