//! Small steps that no run of an inbound link takes, and what an update does. Each is the contract of a function that does nothing.

ghost use Rattle.hb_inbound.specs.Refused.{DialsUnasked, AcceptsUnopened, WritesUnopened, ShutsEarly, EndsEarly, WritesRevoked};
ghost use Rattle.hb_inbound.specs.Laws.{RunsAdmit, RunsAnswer, RunsClose, RunsDial, RunsEnd, RunsFitRings, RunsNote};
ghost use Rattle.hb_inbound.specs.Laws.{RunsObeyConnections, RunsObeyWindows, RunsRelayDown, RunsRelayUp};
ghost use Rattle.hb_inbound.specs.Block.{LacksHeld, NoneIsRefused, DataIsRefused, HeadersMayLack};
ghost use Rattle.hb_inbound.specs.Dials.{DialsElsewhere, LeavesOutDial, DialsTwice, DialsForAnother, DialMayGo};
ghost use Rattle.hb_inbound.specs.ClosesRefused.{ClosesHealthy, ClosesForSecond, ClosesBroken, ReadsEnded, LooksStopped, WritesTwice};
ghost use Rattle.hb_inbound.specs.ClosesRefused.{ClosesDone, ClosesTwice, TurnsAwayLate, ClosesMisfronted, WritesOnce};
ghost use Rattle.hb_inbound.specs.NotesRefused.{NotesUnasked, NotesOther, NotesElsewhere, EndsUnaccepted, EndsAlive, EndsTwice};
ghost use Rattle.hb_inbound.specs.NotesRefused.{CountsNoneUp, CountsNoneDown, ReadsUnnoted, ClosesUnnoted, EndsUnnoted};
ghost use Rattle.hb_inbound.specs.NotesRefused.{LeavesStanding, NotesBoth};
ghost use Rattle.hb_inbound.specs.Whole.{LifeMayGo};
ghost use Rattle.hb_inbound.specs.Rings.{ComesBeyond, WindowMayCome};
ghost use Rattle.hb_inbound.specs.RefusedRuns.{WritesBehind, GoesOnBehind, PutsBehind, ReadsBehind, ClosesForAnother, ClosesAdmitted};
ghost use Rattle.hb_inbound.specs.RefusedRuns.{DialsUnbidden, GoesOnAdmitted, ClosesRevoked};
ghost use Rattle.hb_inbound.specs.RefusedEnds.{FinishesBehind, DialsBehind, OpensBehind, ClosesUnended, ShutsPending, LosesByte};
ghost use Rattle.hb_inbound.specs.RelayRefused.{InventsByte, WritesFront, InventsDown, GoesDown, EndsWaiting};
ghost use Rattle.hb_inbound.specs.VerdictsRefused.{DecidesUnasked, AcceptsUnasked, RefusesUnasked, ResetsUnasked};
ghost use Rattle.hb_inbound.specs.VerdictsRefused.{LooksFirst, AcceptsEarly, RequestMayCome};
ghost use Rattle.hb_inbound.specs.VerdictsRefused.{RefusesKnown, RefusesByThePast, DialsAnother};
ghost use Rattle.hb_inbound.specs.Refused.{PutsRevoked, KeepsAdmitted, KeepsPlaceless, EndsOthers};

/// Nothing is dialled that wasn't asked for, 200 isn't put nor are bytes written before the upstream is open, and no way ends
/// while a byte waits on it.
pub fn early_steps_are_refused()
    ensures dials { DialsUnasked }
    ensures accepts { AcceptsUnopened }
    ensures writes { WritesUnopened }
    ensures shuts { ShutsEarly }
    ensures ends { EndsEarly }
{}

/// Behind an update that no longer admits a live tunnel no byte is written to its upstream, and no DATA is put.
pub fn revoked_tunnels_are_silent()
    ensures writes { WritesRevoked }
    ensures puts { PutsRevoked }
{}

/// An update ends exactly the tunnels, pending or live, that are no longer admitted.
pub fn updates_end_exactly()
    ensures admitted { KeepsAdmitted }
    ensures placeless { KeepsPlaceless }
    ensures others { EndsOthers }
{}

/// Behind an update that no longer admits the peer of a tunnel its stream isn't ended, and a pending one isn't dialled, nor is its upstream
/// opened. An upstream isn't closed while nothing ended its tunnel, nor shut in front of 200, and no byte is left out in the middle.
pub fn careless_ends_are_refused()
    ensures finishes { FinishesBehind }
    ensures dials { DialsBehind }
    ensures opens { OpensBehind }
    ensures closes { ClosesUnended }
    ensures shuts { ShutsPending }
    ensures loses { LosesByte }
{}

/// Each dial goes to the target that its request was answered with, for its stream, once, and before anything is read or written on the
/// link or on an upstream. A dial elsewhere, a second one, one for another stream and one that is left out are refused.
pub fn targets_are_dialled()
    ensures runs { RunsDial }
    ensures elsewhere { DialsElsewhere }
    ensures left_out { LeavesOutDial }
    ensures twice { DialsTwice }
    ensures another { DialsForAnother }
    ensures good { DialMayGo }
{}

/// What waits on each way of a tunnel fits its ring: on the way up no more than the window of its stream, with what isn't given back to
/// it yet (RFC 9113 section 6.9.2). An octet beyond that is refused, and a whole window may wait.
pub fn rings_are_never_overrun()
    ensures runs { RunsFitRings }
    ensures beyond { ComesBeyond }
    ensures window { WindowMayCome }
{}

/// A link's connection is one history of its bytes: what was looked at, told and done leads to it, the frames looked at are those of
/// the bytes that came behind the front header, and what went is the frames that have begun. Each DATA frame with payload fits both
/// windows where it begins (RFC 9113 sections 5.2 and 6.9).
pub fn connections_are_histories()
    ensures connections { RunsObeyConnections }
    ensures windows { RunsObeyWindows }
{}

/// No byte is written to an upstream, and no DATA frame with payload begins on the link, unless the resources held then admit the
/// tunnel's peer at its target.
pub fn peers_are_admitted()
    ensures { RunsAdmit }
{}

/// Each request is answered with the first answer that applies, by the resources held then: it is reset or refused, or its target is
/// dialled and 200 is put once that is open (RFC 9113 section 8.5). Each answer is put before anything more is looked at on the link.
pub fn requests_are_answered()
    ensures { RunsAnswer }
{}

/// A tunnel ends for the first cause that applies, by an update exactly where that no longer admits its peer. Behind its end nothing
/// of it stands but the close of its upstream, for that cause, and no byte of the link is read before.
pub fn tunnels_end_once()
    ensures { RunsEnd }
{}

/// The bytes written to an upstream are a front of the DATA that came on its stream, and none are written, nor is DATA put, before
/// 200 is. The upstream is shut behind the end of the peer's side alone, once all that came is written. The DATA that goes on the
/// stream is a front of what came from the upstream, and END_STREAM is put behind the upstream's end alone, once all that went.
pub fn bytes_are_relayed()
    ensures up { RunsRelayUp }
    ensures down { RunsRelayDown }
{}

/// Behind an update that no longer admits a tunnel's peer no byte may go to its upstream, no DATA be put, and no byte of the link be
/// read before the upstream is closed, for that cause alone. A tunnel that is still admitted isn't closed, and nothing is dialled
/// that nothing asked for.
pub fn revoked_runs_are_refused()
    ensures writes { WritesBehind }
    ensures goes_on { GoesOnBehind }
    ensures puts { PutsBehind }
    ensures reads { ReadsBehind }
    ensures another_cause { ClosesForAnother }
    ensures closes { ClosesAdmitted }
    ensures dials { DialsUnbidden }
{}

/// A byte may go behind an update that still admits the peer, and a tunnel that is revoked is closed.
pub fn good_runs_may_go()
    ensures goes_on { GoesOnAdmitted }
    ensures closes { ClosesRevoked }
{}

/// A byte that is written to an upstream, or goes on a stream, where none came is refused; the first of two that came isn't. Nor may the
/// stream end while a byte that came is still to go.
pub fn invented_bytes_are_refused()
    ensures invents { InventsByte }
    ensures front { WritesFront }
    ensures invents_down { InventsDown }
    ensures front_down { GoesDown }
    ensures ends { EndsWaiting }
{}

/// Nothing is decided, accepted, refused or reset that nothing asked for, 200 isn't put in front of the upstream's opening, and no more is
/// looked at while a request waits for its answer. A request may come.
pub fn unasked_answers_are_refused()
    ensures decides { DecidesUnasked }
    ensures accepts { AcceptsUnasked }
    ensures refuses { RefusesUnasked }
    ensures resets { ResetsUnasked }
    ensures looks { LooksFirst }
    ensures early { AcceptsEarly }
    ensures comes { RequestMayCome }
{}

/// A request that is to be dialled by what is held at its point isn't refused, neither as if its target weren't known nor by a policy that
/// was held before and no longer is, and no other target is dialled for it.
pub fn wrong_verdicts_are_refused()
    ensures known { RefusesKnown }
    ensures past { RefusesByThePast }
    ensures another { DialsAnother }
{}

/// The link is closed for the first cause that ended it: its front header, its peer's end, a break, a connection error, want of memory or
/// of a place, the run's stop. Behind it nothing is read or looked at on the link, nothing is put, and it is closed once.
pub fn links_close_once()
    ensures { RunsClose }
{}

/// Where memory is wanting while a connection looks at what came, a frame of a header block is among those that it holds (RFC 9113
/// section 4.3): so the link may be closed for it. It isn't for DATA, nor where no frame is held; it may be for HEADERS.
pub fn lacking_blocks_are_held()
    ensures held { LacksHeld }
    ensures none { NoneIsRefused }
    ensures payload { DataIsRefused }
    ensures headers { HeadersMayLack }
{}

/// Of each request there is one note at its answer, with its status, peer and target, and of each tunnel that lived one at its end, with
/// the first cause and what truly went each way; of a tunnel that ended while it was pending and got no status there is none.
pub fn notes_are_told()
    ensures { RunsNote }
{}

/// A healthy link isn't closed, nor one that ended for another cause than the first, nor one twice; none is turned away once it was taken
/// in. Behind its end it isn't read, looked at or written, but once behind a connection error.
pub fn early_closes_are_refused()
    ensures healthy { ClosesHealthy }
    ensures second { ClosesForSecond }
    ensures another { ClosesBroken }
    ensures done { ClosesDone }
    ensures reads { ReadsEnded }
    ensures looks { LooksStopped }
    ensures writes { WritesTwice }
    ensures twice { ClosesTwice }
    ensures late { TurnsAwayLate }
    ensures misfronted { ClosesMisfronted }
    ensures once { WritesOnce }
{}

/// A note that nothing asked for is refused, one with another status or target, an end that didn't come yet, never comes or is noted
/// already, and a count that leaves out what went; so is a run that goes on without the note of an end, or
/// leaves out the 502 of a stream that stands.
pub fn wrong_notes_are_refused()
    ensures unasked { NotesUnasked }
    ensures other { NotesOther }
    ensures elsewhere { NotesElsewhere }
    ensures unaccepted { EndsUnaccepted }
    ensures alive { EndsAlive }
    ensures twice { EndsTwice }
    ensures up { CountsNoneUp }
    ensures down { CountsNoneDown }
    ensures reads { ReadsUnnoted }
    ensures closes { ClosesUnnoted }
    ensures unnoted { EndsUnnoted }
    ensures standing { LeavesStanding }
    ensures both { NotesBoth }
{}

/// The whole life of a tunnel may go, with an update between two of its bytes: it is asked for, dialled, opened and accepted, a byte goes, a
/// response is applied that still admits its peer, another byte goes, both sides end, and it is done.
pub fn a_whole_life_may_go()
    ensures { LifeMayGo }
{}
