//! What every run of a link to a gateway obeys. Each is the contract of a function that does nothing.

ghost use Rattle.hb_gateway.specs.Laws.{RunsObeyConnections, RunsObeyWindows, RunsAsk, RunsHearInOrder, UnaskedHearNothing, RunsEndTunnels};
ghost use Rattle.hb_gateway.specs.Laws.{RunsTell, RunsBring, RunsSend, RunsCount, RunsKeep, RunsReset, LooksFailOne};
ghost use Rattle.hb_gateway.specs.Refused.{AsksBehind, AsksTwice, AsksElsewhere, PutsEarly, ResetsUnasked, DropsUnasked, WritesFirst};
ghost use Rattle.hb_gateway.specs.Refused.{ResetsClosed, ResetsTwice, ResetsBehindAway};
ghost use Rattle.hb_gateway.specs.Refused.{DialsElsewhere, FinishesEarly, DoneOpen, TellsUnheard, TellsUncome, SendsUnput};
ghost use Rattle.hb_gateway.specs.Refused.{InterimIsHeard, RefusalOpens, BringsEarly, OpensTwice, BringsUnopened, GoesOnBehind};
ghost use Rattle.hb_gateway.specs.Refused.{SuccessOpens, LifeIsInOrder, FirstMayGo};

/// A link's connection is one history of its bytes: what was looked at, told and done leads to it, the frames looked at are those of the
/// bytes that came, and what went behind the front header is the frames that have begun. What went in front of them is of that header.
/// Each DATA frame with payload fits both windows where it begins (RFC 9113 sections 5.2 and 6.9).
pub fn connections_are_histories()
    ensures connections { RunsObeyConnections }
    ensures windows { RunsObeyWindows }
{}

/// Each stream is asked for once, with the next odd number (RFC 9113 section 5.1.1), only where fewer than 100 and the peer's limit are
/// open and 1,024 octets have room, and never behind a GOAWAY (RFC 9113 section 6.8).
pub fn streams_are_asked_for_once()
    ensures { RunsAsk }
{}

/// A tunnel hears that it is open at most once, before all else; bytes and ends behind that alone; nothing behind its failure; and nothing
/// at all where it wasn't asked for.
pub fn tunnels_hear_in_order()
    ensures order { RunsHearInOrder }
    ensures unasked { UnaskedHearNothing }
{}

/// A tunnel is told what it hears, in that order, and what it is told came is a front of the DATA that came on its stream. The DATA that
/// goes on it is a front of what its captured link put, and of this it is counted how much has begun to go.
pub fn tunnels_are_told()
    ensures tells { RunsTell }
    ensures brings { RunsBring }
    ensures sends { RunsSend }
    ensures counts { RunsCount }
    ensures key { RunsKeep }
{}

/// No tunnel lives on a link that ended, broke, told a connection error or is stopped: each heard its end then, or had ended before.
pub fn ended_links_end_their_tunnels()
    ensures { RunsEndTunnels }
{}

/// A stream is reset only while a side of it is open (RFC 9113 section 5.1), and never where it is above the last of a GOAWAY that was
/// told (RFC 9113 section 6.8). Behind a look at frames at most one is to be reset.
pub fn open_streams_alone_are_reset()
    ensures resets { RunsReset }
    ensures one { LooksFailOne }
{}

/// A stream isn't asked for behind a GOAWAY, nor twice, nor with another number than the next one. No DATA is put on it in front of a
/// status from 200 to 299, and none is reset or given up that wasn't asked for, nor is one reset of which neither side is open, twice, or
/// behind a GOAWAY that leaves it out. No octet goes in front of the front header, and a link is dialled nowhere but at the gateway of its
/// key. END_STREAM waits for the DATA in front of it, and a tunnel isn't done while the gateway may send. None is told what it didn't
/// hear, or bytes that didn't come, and none goes that wasn't put.
pub fn wrong_steps_are_refused()
    ensures behind { AsksBehind }
    ensures twice { AsksTwice }
    ensures elsewhere { AsksElsewhere }
    ensures early { PutsEarly }
    ensures unasked { ResetsUnasked }
    ensures closed { ResetsClosed }
    ensures again { ResetsTwice }
    ensures away { ResetsBehindAway }
    ensures drops { DropsUnasked }
    ensures first { WritesFirst }
    ensures dials { DialsElsewhere }
    ensures finishes { FinishesEarly }
    ensures done { DoneOpen }
    ensures unheard { TellsUnheard }
    ensures uncome { TellsUncome }
    ensures unput { SendsUnput }
{}

/// A status below 200 is passed over, and one of 300 or more opens no tunnel; bytes that come in front of the status aren't handed on. A
/// tunnel doesn't open twice, brings nothing that isn't open, and doesn't go on behind its failure.
pub fn wrong_words_are_refused()
    ensures interim { InterimIsHeard }
    ensures refusal { RefusalOpens }
    ensures early { BringsEarly }
    ensures twice { OpensTwice }
    ensures unopened { BringsUnopened }
    ensures behind { GoesOnBehind }
{}

/// A success opens a tunnel, which may bring bytes and then fail. A link that is dialled may open, ask for a tunnel, and write.
pub fn good_runs_may_go()
    ensures success { SuccessOpens }
    ensures life { LifeIsInOrder }
    ensures first { FirstMayGo }
{}
