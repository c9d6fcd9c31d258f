//! What every run of a captured link obeys. Each is the contract of a function that does nothing.

ghost use Rattle.hb_captured.specs.Refused.{WritesBehind, WritesBackBehind, ReadsBehind, ClosesForAnother, ClosesAdmitted};
ghost use Rattle.hb_captured.specs.Refused.{ShutsWaiting, ShutsEarly, ShutsBackWaiting};
ghost use Rattle.hb_captured.specs.Refused.{WritesHeader, CountsHeader, DropsFirst, DoneWaiting};
ghost use Rattle.hb_captured.specs.Refused.{DialsElsewhere, DialsTwice, DialsUnasked, LeavesOutDial, InventsHeader, DialsRefused};
ghost use Rattle.hb_captured.specs.Refused.{RefusesAdmitted, KeepsIdentity, NotesTwice};
ghost use Rattle.hb_captured.specs.Refused.{EndsUnaccepted, EndsTwice, ClosesUnnoted, LeavesOut502};
ghost use Rattle.hb_captured.specs.Refused.{TriesDone, LeavesOpen};
ghost use Rattle.hb_captured.specs.GatewayRefused.{AsksTwice, AsksStraight, DialsBeside};
ghost use Rattle.hb_captured.specs.GatewayRefused.{GoesRound, GoesThroughStraight, GoesThroughNowhere, SpeaksForAnother, RefusesThrough};
ghost use Rattle.hb_captured.specs.GatewayRefused.{PutsUnopened, TakesUnopened, PutsAnother, FinishesEarly};
ghost use Rattle.hb_captured.specs.GatewayRefused.{StaysOpen, KeepsStream, CountsUnbegun};
ghost use Rattle.hb_captured.specs.GatewayRows.{ThroughMayGo, RefusedMayGo as RefusedThroughMayGo, RoomlessMayGo, BrokenMayGo};
ghost use Rattle.hb_captured.specs.OutboundRefused.{RevokesOutbound, DialsAsPlain, DialsAsDirect, TellsAnother};
ghost use Rattle.hb_captured.specs.OutboundRefused.{DialsOffItsWay, DialsForGateway, DialsBack, DialsUnsynced};
ghost use Rattle.hb_captured.specs.OutboundRefused.{RefusesStraight, MistakesRoute};
ghost use Rattle.hb_captured.specs.OutboundRows.{StraightMayGo, UnroutedMayGo};
ghost use Rattle.hb_captured.specs.Rows.{RefusedMayGo, DoneMayGo, RevokedMayGo};
ghost use Rattle.hb_captured.specs.Laws.{RunsRelay, RunsAdmit, RunsEnd, RunsAnswer, RunsNote, RunsSettle, RunsFitRings};

/// The bytes written to the upstream are a front of those that came on the link behind its front header, and the bytes written to the
/// link are a front of those that came from the upstream. Either is shut once, behind the end of the other and its last byte.
pub fn bytes_are_relayed()
    ensures { RunsRelay }
{}

/// At the plain door no byte is written to the upstream, and none to the link, unless the resources held then admit the peer at its
/// destination. At the outbound door peers aren't judged.
pub fn peers_are_admitted()
    ensures { RunsAdmit }
{}

/// The link and its upstream, or its stream of a link to a gateway, end together for the first cause that applies, by an update exactly
/// where that no longer admits the peer of a link of the plain door. Behind the end nothing stands but that its stream is given up, and the
/// close of each, once, for that cause.
pub fn relays_end_once()
    ensures { RunsEnd }
{}

/// The front header is that of the bytes that came. It gets the answer of its door, by what is held then: at the plain door the verdict on
/// its destination, at the outbound door the way that leads there. The address that this gives is dialled, once, and no other is; where the
/// way leads by a gateway, one stream is asked for.
pub fn destinations_are_answered()
    ensures { RunsAnswer }
{}

/// There is one note at the verdict, of the peer that the header told, at the outbound door with its identity; and one at the end of a
/// tunnel that lived, with the first cause and what truly went each way.
pub fn notes_are_told()
    ensures { RunsNote }
{}

/// Nothing is read, written or tried while something follows by itself or a call is due: a dial, a shut, a close.
pub fn nothing_is_put_off()
    ensures { RunsSettle }
{}

/// What waits on each way fits its ring: 65,535 bytes up and 16,384 down at the plain door, and the other way round at the outbound one.
pub fn rings_are_never_overrun()
    ensures { RunsFitRings }
{}

/// A link that is judged at its birth alone is refused: behind an update that no longer admits the peer no byte goes either way, the link
/// isn't read, and its upstream is closed for that cause. One that is still admitted isn't closed.
pub fn revoked_relays_are_silent()
    ensures writes { WritesBehind }
    ensures writes_back { WritesBackBehind }
    ensures reads { ReadsBehind }
    ensures another_cause { ClosesForAnother }
    ensures admitted { ClosesAdmitted }
{}

/// No side is shut in front of its last byte, nor before the other has ended. No byte of the front header goes or counts as one of the
/// tunnel. None is left out behind a short write: not by the next write, nor by an end as if all had gone.
pub fn bytes_are_kept()
    ensures shuts { ShutsWaiting }
    ensures early { ShutsEarly }
    ensures shuts_back { ShutsBackWaiting }
    ensures header { WritesHeader }
    ensures counts { CountsHeader }
    ensures drops { DropsFirst }
    ensures done { DoneWaiting }
{}

/// A dial elsewhere, a second one, one in front of the header and one that is left out are refused; so are a header that didn't come, a
/// dial of a destination that is to be refused, and the refusal of one that is to be dialled.
pub fn wrong_answers_are_refused()
    ensures elsewhere { DialsElsewhere }
    ensures twice { DialsTwice }
    ensures unasked { DialsUnasked }
    ensures left_out { LeavesOutDial }
    ensures invents { InventsHeader }
    ensures dials { DialsRefused }
    ensures refuses { RefusesAdmitted }
{}

/// A verdict's note has no identity at the plain door, and at the outbound one that of the header; and it is the only one. The end of a
/// tunnel that wasn't accepted, a second end, a close behind an end that isn't noted, and a failure without its 502 are refused.
pub fn wrong_notes_are_refused()
    ensures identity { KeepsIdentity }
    ensures another { TellsAnother }
    ensures twice { NotesTwice }
    ensures unaccepted { EndsUnaccepted }
    ensures ends_twice { EndsTwice }
    ensures unnoted { ClosesUnnoted }
    ensures left_out { LeavesOut502 }
{}

/// A link isn't tried while it is done, nor its upstream read while that is to be shut.
pub fn work_left_is_refused()
    ensures done { TriesDone }
    ensures left_open { LeavesOpen }
{}

/// Three whole lives are runs, with their notes, at the plain door: of a link whose destination is refused, of one that relays three bytes
/// each way and is done, and of one that an update ends.
pub fn whole_lives_may_go()
    ensures refused { RefusedMayGo }
    ensures done { DoneMayGo }
    ensures revoked { RevokedMayGo }
{}

/// No update ends a link of the outbound door, whatever it says of the peer. A link of either door that is dialled for the reason of the
/// other is refused.
pub fn doors_are_told_apart()
    ensures revoked { RevokesOutbound }
    ensures plain { DialsAsPlain }
    ensures direct { DialsAsDirect }
{}

/// At the outbound door a dial elsewhere than the way leads, one though that leads by a gateway, one that leads back to the node and one
/// before all is synced are refused; so are the refusal of a link whose way is straight, and one for the cause of another missing route.
pub fn wrong_ways_are_refused()
    ensures elsewhere { DialsOffItsWay }
    ensures gateway { DialsForGateway }
    ensures back { DialsBack }
    ensures unsynced { DialsUnsynced }
    ensures straight { RefusesStraight }
    ensures another_route { MistakesRoute }
{}

/// Two whole lives are runs, with their notes, at the outbound door: of a link that relays three bytes each way with its destination's
/// endpoint, through an update, and is done; and of one that has no route.
pub fn outbound_lives_may_go()
    ensures straight { StraightMayGo }
    ensures unrouted { UnroutedMayGo }
{}

/// A link whose way leads by a gateway asks for one stream, and no link is dialled for it alone. It doesn't go straight, nor is it refused,
/// nor asked for as another identity than its source's; and no stream is asked for where the way is straight, or its gateway is at the
/// unspecified address.
pub fn other_ways_than_the_gateway_are_refused()
    ensures twice { AsksTwice }
    ensures asks_straight { AsksStraight }
    ensures beside { DialsBeside }
    ensures round { GoesRound }
    ensures through { GoesThroughStraight }
    ensures nowhere { GoesThroughNowhere }
    ensures identity { SpeaksForAnother }
    ensures refuses { RefusesThrough }
{}

/// Nothing goes and nothing is taken on a stream in front of the gateway's answer. No other byte is put than came, and the stream isn't
/// ended while the link may send. Behind the gateway's end the link isn't read; it isn't closed while it has its stream; and its note
/// counts the bytes that have begun to go.
pub fn careless_streams_are_refused()
    ensures puts { PutsUnopened }
    ensures takes { TakesUnopened }
    ensures another { PutsAnother }
    ensures finishes { FinishesEarly }
    ensures stays_open { StaysOpen }
    ensures keeps { KeepsStream }
    ensures counts { CountsUnbegun }
{}

/// Four whole lives are runs, with their notes, by a gateway: of a link that relays three bytes each way and is done, of one that the
/// gateway refuses, of one that breaks, and of one for which no link has room.
pub fn lives_by_a_gateway_may_go()
    ensures done { ThroughMayGo }
    ensures refused { RefusedThroughMayGo }
    ensures broken { BrokenMayGo }
    ensures roomless { RoomlessMayGo }
{}
