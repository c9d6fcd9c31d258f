//! What is lawful, and what isn't: small wrong traces, and good ones. Each is the contract of a function that does nothing.

ghost use Rattle.hb_proxy.specs.Access.{EntryLaw};
ghost use Rattle.hb_laws.specs.Lawful.{RunsAreLawful};
ghost use Rattle.hb_laws.specs.Refused.{NeverDials, DialsNoMore, DialsTwice, DialsAnother};
ghost use Rattle.hb_laws.specs.Refused.{ClosesHealthy, ClosesForAnother, ClosesForSecond};
ghost use Rattle.hb_laws.specs.Refused.{KeepsEnded, KeepsBroken, LooksAtNothing, AppliesForged};
ghost use Rattle.hb_laws.specs.RefusedLinks.{ComesUnborn, GoesUnborn, BornTwice, AcceptsFirst, DialsUpUntold};
ghost use Rattle.hb_laws.specs.RefusedLinks.{ClosesLinkForSecond, ClosesHealthyLink};
ghost use Rattle.hb_laws.specs.RefusedLinks.{SendsMore};
ghost use Rattle.hb_laws.specs.RefusedTunnels.{RefusedAt, GoesDenied, GoesUncome, DialsElsewhere, KeepsEndedUp, KeepsRevokedUp};
ghost use Rattle.hb_laws.specs.RefusedTunnels.{ClosesUpForAnother, ClosesLiveUp};
ghost use Rattle.hb_laws.specs.RefusedTunnels.{RefusedBy, DialsOnce, Relays, DialsUpTwice, GoesUnheld, ChangesUp, InventsDown, ChangesDown};
ghost use Rattle.hb_laws.specs.RefusedTunnels.{OnceMayBeDialled, CameMayGoDown};
ghost use Rattle.hb_laws.specs.RefusedPlain.{ComesUndialled, GoesUndialled, DialsRelayUntold, ClosesHealthyPlain, ClosesPlainForSecond};
ghost use Rattle.hb_laws.specs.RefusedPlain.{SendsHeader, AnswersItself, DialsRelayTwice, RelaysUnheld, ChangesForth, ChangesBack};
ghost use Rattle.hb_laws.specs.RefusedPlain.{CameMayGoBack};
ghost use Rattle.hb_laws.specs.RefusedPlain.{RelaysDenied, RelaysUncome, RelaysBackUncome, DialsAside, ShutsEarly, ShutsBackEarly};
ghost use Rattle.hb_laws.specs.RefusedPlain.{KeepsEndedPlain, KeepsRevokedPlain, ClosesPlainForAnother, ClosesLivePlain};
ghost use Rattle.hb_laws.specs.RefusedGateways.{DialsForPlain as GatewayForPlain, DialsUnasked as GatewayUnasked};
ghost use Rattle.hb_laws.specs.RefusedGateways.{DialsUntold as GatewayUntold, WritesUnopened as GatewayUnopened, WritesNoFront};
ghost use Rattle.hb_laws.specs.RefusedGateways.{InventsBytes, ShutsGateway, ClosesGateway, DialsRound};
ghost use Rattle.hb_laws.specs.RefusedGateways.{KeepsBrokenGateway, KeepsEndedGateway, GoesUnbrought, ChangesBrought};
ghost use Rattle.hb_laws.specs.RefusedOutbound.{DialsAsPlain, DialsAsDirect, DialsUntold, RelaysUntold};
ghost use Rattle.hb_laws.specs.RefusedOutbound.{DialsUnrouted, DialsAstray, ClosesUpdated, ClosesRevoked};
ghost use Rattle.hb_laws.specs.Good.{GoodTraceIsLawful, GoodLinkIsLawful, GoodEndIsLawful, GoodPlainIsLawful, GoodRefusalIsLawful};
ghost use Rattle.hb_laws.specs.Good.{GoodUnsyncedIsLawful};
ghost use Rattle.hb_laws.specs.RefusedWindows.{GoesBeyond, ControlGoesBeyond, LastOctetFits, LinkGoesBeyond, PlaneGoesBeyond};
ghost use Rattle.hb_laws.specs.RefusedWindows.{GateGoesBeyond, GateHistoryGoesBeyond, PassesConnection, PassesStream, PassesFrame};
ghost use Rattle.hb_laws.specs.TriedAlone.{MayBeTried};
ghost use Rattle.hb_laws.specs.RefusedRings.{RefusedFront, KeepsMoreUp, KeepsMorePlain, ComesBeyondRing};
ghost use Rattle.hb_laws.specs.RefusedHearing.{HearsNoGoaway, HearsNoReset, HearsNoNotFound, HearsNoEnd, HearsNoEndOfHeaders};
ghost use Rattle.hb_laws.specs.RefusedHearing.{KeepsReset, KeepsEndOfStream, KeepsEndAtOnce, KeepsNotFound};
ghost use Rattle.hb_laws.specs.RefusedRoutes.{DialsGateAstray, TriesGateAstray, DialsForOtherKey, DialsForNoKey, DialsByItsKey};
ghost use Rattle.hb_laws.specs.RefusedRoutes.{RoutesByOtherPort, RefusesByOtherPort, RoutesUncounted, RoutesByEnded, RoutesByCounts};
ghost use Rattle.hb_laws.specs.RefusedRoutes.{OpensAt403, OpensAtInterim, OpensUnanswered, OpensFailed, FailsAt200, OpensAt200, FailsAt403};
ghost use Rattle.hb_laws.specs.RefusedRoutes.{ReadsUnread, ClosesHealthyGate, ClosesGateForSecond, ClosesEndedAsBroken, ClosesGateTwice};
ghost use Rattle.hb_laws.specs.RefusedRoutes.{ReadsEndedGate, AsksEndedGate, WritesGateTwice, ClosesBrokenGate, WritesGateOnce};
ghost use Rattle.hb_laws.specs.RefusedRoutes.{OverrunsPlain, OverrunsPlainBack, OverrunsOutbound, OverrunsOutboundBack};
ghost use Rattle.hb_laws.specs.RefusedRoutes.{FillsPlain, FillsOutboundBack};
ghost use Rattle.hb_laws.specs.Refused.{ReadsUnopened, ReadsBehindEnd, ReadsBehindClose, WritesUnopened, FinishesOpened};

/// The trace of every run of the whole proxy is lawful.
pub fn runs_are_lawful()
    ensures { RunsAreLawful }
{}

/// A trace isn't lawful in which the control plane isn't dialled at the start or behind a tick, is dialled beside a link to it
/// that lives, or another target is dialled in its place.
pub fn dials_are_refused()
    ensures never { NeverDials }
    ensures no_more { DialsNoMore }
    ensures twice { DialsTwice }
    ensures another { DialsAnother }
{}

/// Nor one in which a healthy link to it is closed, or one for another cause than the first, or one that ended or broke is kept.
pub fn closes_are_refused()
    ensures healthy { ClosesHealthy }
    ensures for_another { ClosesForAnother }
    ensures for_second { ClosesForSecond }
    ensures ended { KeepsEnded }
    ensures broken { KeepsBroken }
{}

/// Nor one in which a frame that ends such a link is looked at and nothing is told of it: a GOAWAY that takes no stream, a RST_STREAM,
/// HEADERS with status 404, END_STREAM. Nor one in which a link that such a frame ended is kept over the next wait.
pub fn deafness_is_refused()
    ensures goaway { HearsNoGoaway }
    ensures reset { HearsNoReset }
    ensures not_found { HearsNoNotFound }
    ensures end { HearsNoEnd }
    ensures end_of_headers { HearsNoEndOfHeaders }
    ensures keeps_reset { KeepsReset }
    ensures keeps_end { KeepsEndOfStream }
    ensures keeps_end_at_once { KeepsEndAtOnce }
    ensures keeps_not_found { KeepsNotFound }
{}

/// Nor one in which bytes that came on such a link aren't looked at, or a response is applied that didn't come.
pub fn idleness_is_refused()
    ensures looks { LooksAtNothing }
    ensures forged { AppliesForged }
{}

/// Nor one with a call on such a link where none may be made, even if it moved nothing.
pub fn calls_are_refused()
    ensures unopened { ReadsUnopened }
    ensures behind_end { ReadsBehindEnd }
    ensures behind_close { ReadsBehindClose }
    ensures writes { WritesUnopened }
    ensures finishes { FinishesOpened }
{}

/// Nor one in which bytes come or go on a link that nobody bore, a number is born twice, a link is accepted before the control plane is
/// dialled, or an upstream is dialled for a stream though no response ever came.
pub fn births_are_refused()
    ensures comes { ComesUnborn }
    ensures goes { GoesUnborn }
    ensures number { BornTwice }
    ensures first { AcceptsFirst }
    ensures untold { DialsUpUntold }
{}

/// Nor one in which an inbound link is closed as one that broke, though no call on it failed: a healthy one, or one whose peer ended.
pub fn closes_of_links_are_refused()
    ensures healthy { ClosesHealthyLink }
    ensures second { ClosesLinkForSecond }
{}

/// Nor one in which more bytes went to an upstream than came on its link.
pub fn bytes_are_refused()
    ensures more { SendsMore }
{}

/// One law alone refuses, whatever stands in front, that a second upstream is dialled for a stream, that bytes go to an upstream though no
/// workload is held any more, or that an octet goes either way, to an upstream or in DATA of its stream, that didn't come from the other
/// side, or where another one came next.
pub fn tunnels_are_refused_by_one_law()
    ensures twice { RefusedBy DialsOnce DialsUpTwice }
    ensures unheld { RefusedBy EntryLaw GoesUnheld }
    ensures uncome { RefusedBy Relays GoesUncome }
    ensures changes_up { RefusedBy Relays ChangesUp }
    ensures invents { RefusedBy Relays InventsDown }
    ensures changes { RefusedBy Relays ChangesDown }
{}

/// No lawful trace has a place at which bytes go to an upstream though what is held then doesn't admit the peer; at which another target is
/// dialled than the one that was asked for; at which the upstream of a tunnel that ended lives where more comes, also next behind an update
/// that no longer admits the peer; or at which an upstream is closed for another cause than the first, or though its tunnel lives.
pub fn places_are_refused()
    ensures denied { RefusedAt GoesDenied }
    ensures elsewhere { RefusedAt DialsElsewhere }
    ensures ended { RefusedAt KeepsEndedUp }
    ensures revoked { RefusedAt KeepsRevokedUp }
    ensures another { RefusedAt ClosesUpForAnother }
    ensures live { RefusedAt ClosesLiveUp }
{}

/// Nor one in which bytes come from an upstream of a plain link that was never dialled, or go to one, or one is dialled though no response
/// ever came; or in which such a link is closed as if a call had failed, though none did: a healthy one, or one whose peer ended.
pub fn plain_links_are_refused()
    ensures comes { ComesUndialled }
    ensures goes { GoesUndialled }
    ensures untold { DialsRelayUntold }
    ensures healthy { ClosesHealthyPlain }
    ensures second { ClosesPlainForSecond }
{}

/// Nor one in which more bytes go to the upstream of a plain link than came behind its front header, or bytes go on one that has none.
pub fn relayed_bytes_are_refused()
    ensures header { SendsHeader }
    ensures itself { AnswersItself }
{}

/// One law alone refuses that a second upstream is dialled for a plain link, of whatever door; that bytes go either way on one whose door
/// judges, though no workload is held any more; or that a byte goes either way that didn't come from the other side, or where another one
/// came next.
pub fn plain_links_are_refused_by_one_law()
    ensures twice { RefusedBy DialsOnce DialsRelayTwice }
    ensures unheld { RefusedBy EntryLaw RelaysUnheld }
    ensures uncome { RefusedBy Relays RelaysUncome }
    ensures changes_forth { RefusedBy Relays ChangesForth }
    ensures back_uncome { RefusedBy Relays RelaysBackUncome }
    ensures changes { RefusedBy Relays ChangesBack }
{}

/// It refuses alone that a byte goes on a link which its gateway didn't bring on its stream, or where it brought another one next.
pub fn links_by_gateways_are_refused_by_one_law()
    ensures unbrought { RefusedBy Relays GoesUnbrought }
    ensures changes { RefusedBy Relays ChangesBrought }
{}

/// Each of these places, but for those by a gateway, may stand behind points that obey the law which refuses it.
pub fn places_may_be_tried()
    ensures up_twice { MayBeTried DialsOnce DialsUpTwice }
    ensures unheld { MayBeTried EntryLaw GoesUnheld }
    ensures uncome { MayBeTried Relays GoesUncome }
    ensures changes_up { MayBeTried Relays ChangesUp }
    ensures invents { MayBeTried Relays InventsDown }
    ensures changes { MayBeTried Relays ChangesDown }
    ensures relay_twice { MayBeTried DialsOnce DialsRelayTwice }
    ensures relay_unheld { MayBeTried EntryLaw RelaysUnheld }
    ensures relay_uncome { MayBeTried Relays RelaysUncome }
    ensures changes_forth { MayBeTried Relays ChangesForth }
    ensures back_uncome { MayBeTried Relays RelaysBackUncome }
    ensures changes_back { MayBeTried Relays ChangesBack }
{}

/// These laws let two upstreams be dialled for two streams, and the first of two bytes go that came from an upstream.
pub fn good_places_obey_their_law()
    ensures dials { OnceMayBeDialled }
    ensures down { CameMayGoDown }
    ensures back { CameMayGoBack }
{}

/// No lawful trace has a place at which bytes go either way on a plain link though its door judges and what is held then doesn't admit the
/// peer; at which another target is dialled at the plain door than its front header's destination; at which either side is shut in front of
/// the last byte of the other; at which it ended and lives, or its upstream does, where more comes, also next behind an update by which a
/// door that judges no longer admits the peer; or at which either is closed for another cause than the first, or though the link goes on.
pub fn places_of_plain_links_are_refused()
    ensures denied { RefusedAt RelaysDenied }
    ensures aside { RefusedAt DialsAside }
    ensures shuts { RefusedAt ShutsEarly }
    ensures shuts_back { RefusedAt ShutsBackEarly }
    ensures ended { RefusedAt KeepsEndedPlain }
    ensures revoked { RefusedAt KeepsRevokedPlain }
    ensures another { RefusedAt ClosesPlainForAnother }
    ensures live { RefusedAt ClosesLivePlain }
{}

/// Nor is a trace lawful in which the upstream of a link of the outbound door is dialled as one of the plain door, or the other way round;
/// in which one is dialled, and gets bytes, though no response ever came.
pub fn outbound_links_are_refused()
    ensures as_plain { DialsAsPlain }
    ensures as_direct { DialsAsDirect }
    ensures untold { DialsUntold }
    ensures relays { RelaysUntold }
{}

/// No lawful trace has a place at which a link of the outbound door is dialled though its front header had no route, or elsewhere than its
/// route led, by what was held when it was told; or at which one that went on is closed next behind an update, or for an update at all.
pub fn places_of_outbound_links_are_refused()
    ensures unrouted { RefusedAt DialsUnrouted }
    ensures astray { RefusedAt DialsAstray }
    ensures updated { RefusedAt ClosesUpdated }
    ensures revoked { RefusedAt ClosesRevoked }
{}

/// Nor is a trace lawful in which a link to a gateway is dialled for a link of the plain door, before its header came, or before anything
/// was told; in which bytes go on one that isn't open, or in front of its front header; in which bytes go on an outbound link whose gateway
/// said nothing; in which one is shut; in which one that nothing ended is closed, or one that broke or ended is kept.
pub fn links_to_gateways_are_refused()
    ensures plain { GatewayForPlain }
    ensures unasked { GatewayUnasked }
    ensures untold { GatewayUntold }
    ensures unopened { GatewayUnopened }
    ensures front { WritesNoFront }
    ensures invents { InventsBytes }
    ensures shuts { ShutsGateway }
    ensures closes { ClosesGateway }
    ensures broken { KeepsBrokenGateway }
    ensures ended { KeepsEndedGateway }
{}

/// No lawful trace has a place at which a link of the outbound door is dialled straight though its way led by a gateway.
pub fn places_of_gateways_are_refused()
    ensures round { RefusedAt DialsRound }
{}

/// The window law of an inbound link, and that of the links to the control plane, refuses alone that DATA begins an octet beyond the window
/// of the connection, of its stream, or beyond the largest frame; so does the history of a link to a gateway. Small lists of frames pass
/// each of the three alone, by an octet. The last octet within fits (RFC 9113 sections 4.2 and 6.9).
pub fn windows_are_not_passed()
    ensures link { GoesBeyond }
    ensures control { ControlGoesBeyond }
    ensures gate { GateHistoryGoesBeyond }
    ensures connection { PassesConnection }
    ensures stream { PassesStream }
    ensures frame { PassesFrame }
    ensures fits { LastOctetFits }
{}

/// No lawful trace has a place at which such DATA begins, on an inbound link, on one to the control plane, or on one to a gateway.
pub fn places_beyond_windows_are_refused()
    ensures link { RefusedAt LinkGoesBeyond }
    ensures control { RefusedAt PlaneGoesBeyond }
    ensures gate { RefusedAt GateGoesBeyond }
{}

/// No front of a lawful run has an octet more that waits than a ring has room for: on the way up of a tunnel, or either way on a plain
/// link. Nor has one a place at which more comes from the upstream of a tunnel than its ring, and one DATA frame, have room for.
pub fn rings_are_not_overrun()
    ensures up { RefusedFront KeepsMoreUp }
    ensures down { RefusedAt ComesBeyondRing }
    ensures plain { RefusedFront KeepsMorePlain }
{}

/// A trace is lawful in which a link to the control plane is dialled, breaks and is closed, and a dial fails at the next tick; one in
/// which an inbound link begins with no front header and is closed for that; one in which its header is whole, its peer sends no more, and
/// it is closed as done; one in which a plain link begins with no front header and is closed for that; and one in which its header is
/// whole, and it is refused with 503, since nothing is held yet, be it of the plain door or of the outbound one.
pub fn good_traces_are_lawful()
    ensures control { GoodTraceIsLawful }
    ensures link { GoodLinkIsLawful }
    ensures end { GoodEndIsLawful }
    ensures plain { GoodPlainIsLawful }
    ensures refusal { GoodRefusalIsLawful }
    ensures unsynced { GoodUnsyncedIsLawful }
{}

/// The law of dials of gateways refuses a run in which a link to a gateway is dialled at another address than that of its key, also where
/// the dial fails; for another key than that by which the way of its plain link leads; or for a link that goes straight.
pub fn gateways_dialled_astray_are_refused()
    ensures astray { DialsGateAstray }
    ensures tried { TriesGateAstray }
    ensures key { DialsForOtherKey }
    ensures straight { DialsForNoKey }
{}

/// The law of ways refuses one that goes by another port of gateways than the node's, also where the link is refused; one that counts no
/// connection where a link is one; and one that counts a link that ended.
pub fn other_routings_are_refused()
    ensures port { RoutesByOtherPort }
    ensures refused { RefusesByOtherPort }
    ensures uncounted { RoutesUncounted }
    ensures ended { RoutesByEnded }
{}

/// The law of openings refuses a tunnel by a gateway that opens at a status of 403, at one below 200, with no answer, or behind its
/// failure; and one that fails at 200. The law of headers refuses those that the connection of the link didn't read.
pub fn other_openings_are_refused()
    ensures forbidden { OpensAt403 }
    ensures interim { OpensAtInterim }
    ensures unanswered { OpensUnanswered }
    ensures failed { OpensFailed }
    ensures fails { FailsAt200 }
    ensures unread { ReadsUnread }
{}

/// The law of closes refuses a link to a gateway that is closed though nothing ended it, for another cause than the first, as broken though
/// its gateway sends no more, or twice; one that is read, or on which a tunnel is asked for, behind its end; and a second write behind a
/// connection error.
pub fn other_closes_of_gateways_are_refused()
    ensures healthy { ClosesHealthyGate }
    ensures second { ClosesGateForSecond }
    ensures ended { ClosesEndedAsBroken }
    ensures twice { ClosesGateTwice }
    ensures reads { ReadsEndedGate }
    ensures asks { AsksEndedGate }
    ensures writes { WritesGateTwice }
{}

/// The law of rings refuses one octet beyond each ring of a plain link: 65,536 on the way up and 16,385 on the way down at the plain door,
/// and the other way round at the outbound one.
pub fn overrun_rings_are_refused()
    ensures plain { OverrunsPlain }
    ensures plain_back { OverrunsPlainBack }
    ensures outbound { OverrunsOutbound }
    ensures outbound_back { OverrunsOutboundBack }
{}

/// These laws let a link to a gateway be dialled at the address of its key; a way that goes by the node's port and counts the one link
/// that is a connection; a tunnel that opens at 200 and one that fails at 403; a link to a gateway that is closed as broken, and one that
/// is written once behind a connection error; and a ring that is full.
pub fn good_ways_may_go()
    ensures dials { DialsByItsKey }
    ensures routes { RoutesByCounts }
    ensures opens { OpensAt200 }
    ensures fails { FailsAt403 }
    ensures closes { ClosesBrokenGate }
    ensures writes { WritesGateOnce }
    ensures fills { FillsPlain }
    ensures fills_back { FillsOutboundBack }
{}
