//! Laws over every run of the whole proxy. Each is the contract of a function that does nothing.

ghost use Rattle.hb_proxy.specs.Laws.{GatesRun, RunsObeyGates, RunsTake};
ghost use Rattle.hb_proxy.specs.Streams.{RunsAgree, RunsFit, RunsCountOpens};
ghost use Rattle.hb_proxy.specs.StreamsRefused.{AsksRoomless, AsksBehind, SharesKeys, AsksEnded, AsksLater, AsksElsewhere};
ghost use Rattle.hb_proxy.specs.StreamsRefused.{DialsBeside, RefusesBeside, DialsForStraight, TakesAlone, DropsAlone};
ghost use Rattle.hb_proxy.specs.StreamsRefused.{TellsAnother, PutsOther, ReadsUndialled};
ghost use Rattle.hb_proxy.specs.Laws.{ControlRuns, LinksRun, PlainRuns, ControlHolds, LinksHold, PlainHolds};
ghost use Rattle.hb_proxy.specs.Laws.{RunsOwn, RunsNumber, RunsDialOnce, RunsShareSides, RunsAdmit, RunsAdmitEntries, RunsRelay};
ghost use Rattle.hb_proxy.specs.Laws.{RunsEnd, RunsObeyLinks, RunsObeyPlain, RunsDial, RunsObeyEntries, RunsObeyControl, RunsPutAll};
ghost use Rattle.hb_proxy.specs.Leads.{LinksLead, LinksStep, PlainLinksLead, PlainLinksStep};
ghost use Rattle.hb_proxy.specs.Seen.{RunsAreSeen};
ghost use Rattle.hb_proxy.specs.SeenRefused.{UpUnborn, ShutUntold, OpenUnheard, KeepsClosed, HasNone};
ghost use Rattle.hb_proxy.specs.SeenRefused.{RelayUnborn, PlainShutUntold, RelayShutUntold, RelayOpenUnheard};
ghost use Rattle.hb_proxy.specs.SeenRefused.{KeepsPlainClosed, KeepsRelayClosed, SharesRelay, IsBoth};
ghost use Rattle.hb_proxy.specs.SettledRefused.{KeepsDown, KeepsUp, LeavesUnread, KeepsCredit, LeavesUnshut, LeavesUnended, LeavesUndialled};
ghost use Rattle.hb_proxy.specs.SettledRefused.{LeavesUnwritten, LeavesLinkUnread, LeavesUnlooked, AsksNothing, AcceptsNothing, AsksOnce};
ghost use Rattle.hb_proxy.specs.PlainWaits.{KeepsUp as KeepsPlainUp, KeepsDown as KeepsPlainDown, LeavesUpUnread, LeavesFrontUnread};
ghost use Rattle.hb_proxy.specs.PlainWaits.{LeavesUnread as LeavesPlainUnread, LeavesUnshut as LeavesPlainUnshut};
ghost use Rattle.hb_proxy.specs.PlainWaits.{LeavesUndialled as LeavesPlainUndialled, LeavesUnclosed};
ghost use Rattle.hb_proxy.specs.PlainWaits.{ReadsNothing, AsksNoUpstream, ReadsOnce};
ghost use Rattle.hb_proxy.specs.Limits.{NeverMoreLinks, NeverMoreTunnels, FindsNoPlace, FindsPlaceBeyond, TurnsAwayFirst, WelcomesBeyond};
ghost use Rattle.hb_proxy.specs.Limits.{TurnsAwayPlain, WelcomesPlainBeyond, RefusesWithNone, DialsGateBeyond};
ghost use Rattle.hb_proxy.specs.Limits.{CountsEndless, CountsTwice, CountsNone, HasMoreLinks, HasMoreTunnels};
ghost use Rattle.hb_proxy.specs.Limits.{FindsPlace, FindsAllTaken, TurnsAwayBeyond, WelcomesLast};
ghost use Rattle.hb_proxy.specs.Doors.{DoorsTellNone};
ghost use Rattle.hb_proxy.specs.Refused.{ComesUnborn, ReadsUnborn, ReadsAnothers, BornTwice, BornAgain, SeesAlone, SeeAll};
ghost use Rattle.hb_proxy.specs.Refused.{AnswersAnother, AnswersControl, WritesBehind, ReadsBehind, TicksBehind, InventsByte};
ghost use Rattle.hb_proxy.specs.Refused.{DialsTwice, ComesWhileDue, DialsWhileDue, AcceptsBehindEnd, StopsUnanswered};
ghost use Rattle.hb_proxy.specs.Refused.{AcceptsFirst, ReadsEnded, GoesOnAdmitted, RunMayGo, RunIsLawful};
ghost use Rattle.hb_proxy.specs.Refused.{PlainGoesOn, PlainRunMayGo};
ghost use Rattle.hb_proxy.specs.Refused.{PlainComesUnborn, PlainReadsUnborn, PlainReadsUpstream, PlainBehindEnd, PlainDialsTwice};
ghost use Rattle.hb_proxy.specs.Refused.{PlainWritesBehind, PlainEntryBehind, PlainInventsByte, PlainReadsBehind};
ghost use Rattle.hb_proxy.specs.OutboundRefused.{OutboundDialsTwice, OutboundBehindEnd, OutboundReadsUpstream};
ghost use Rattle.hb_proxy.specs.OutboundRefused.{OutboundRunMayGo, OutboundRunIsLawful, OutboundGoesOn, OutboundGoesBack};

/// The points of the control plane are a run of its machine, and what happens to each inbound link, and to each plain link,
/// is a run of that link's, with the resources that the control plane holds: those of its responses. What happens to each link to a gateway
/// is a run of that.
pub fn parts_are_runs()
    ensures control { ControlRuns }
    ensures links { LinksRun }
    ensures plain { PlainRuns }
    ensures gates { GatesRun }
    ensures held { ControlHolds }
    ensures shared { LinksHold }
    ensures plain_shared { PlainHolds }
{}

/// What follows by itself on an inbound link or a plain one, and a part of it that the whole lets come, is a run of the whole,
/// in which no other part changes: so whoever follows the machine of one link follows that of the whole.
pub fn links_lead()
    ensures step { LinksStep }
    ensures lead { LinksLead }
    ensures plain_step { PlainLinksStep }
    ensures plain_lead { PlainLinksLead }
{}

/// Each entry stands on a link of its own part, links are numbered in the order of births, and each upstream is of a stream of its own,
/// or of a plain link. So the bytes that came and went on a link, also on one to a gateway, are the same in the trace and in the link's part.
pub fn links_have_owners()
    ensures own { RunsOwn }
    ensures numbers { RunsNumber }
    ensures upstreams { RunsDialOnce }
    ensures sides { RunsShareSides }
{}

/// A link to the control plane, an inbound link, the upstream of a tunnel, a plain link and its upstream, each that is born and
/// not closed in the machine, lives behind the trace, and is open and was shut as the machine says; each link that lives is one of these,
/// of one part alone.
pub fn links_are_seen()
    ensures { RunsAreSeen }
{}

/// A listen, and an accept that gave no link, tell of no link: without them a trace says the same of each.
pub fn doors_tell_of_no_link()
    ensures { DoorsTellNone }
{}

/// No byte goes to an upstream, no DATA frame with payload begins on an inbound link, and no byte goes on a link of the plain door, unless
/// the resources held then, by the control plane's responses, admit the tunnel's peer at its target: so it is of each part, and of each
/// entry of the trace by the link that it stands on. The peer of a link of the outbound door isn't judged.
pub fn peers_are_admitted()
    ensures parts { RunsAdmit }
    ensures entries { RunsAdmitEntries }
{}

/// The bytes that went to an upstream are a front of the DATA that came on its stream, and the DATA that went on the stream is a front of
/// what came from the upstream. Bytes go and sides end only where they may. So it is of a plain link: what goes to its upstream is a front
/// of what came behind its front header, and what goes on it is a front of what came from the upstream. By a gateway it is so of the DATA
/// that goes and comes on its stream.
pub fn bytes_are_relayed()
    ensures { RunsRelay }
{}

/// A tunnel that ended, of whatever link, has no upstream that isn't closed where a link is accepted or open, where bytes or an end come
/// on any link, at a tick and a wait, and where bytes of a tunnel go; but for the one write behind a connection error. A plain link that
/// ended is closed there, with its upstream, and has no stream. A link to a gateway that ended is closed there.
pub fn ends_go_first()
    ensures { RunsEnd }
{}

/// Each inbound link's connection is one history, and its DATA fits the windows and the rings. Its tunnels and the link itself end for the
/// first cause that applies; its requests get the answers and the dials that are due; and each answer and end has its note.
pub fn links_obey()
    ensures { RunsObeyLinks }
{}

/// The bytes of each plain link go on as they came, behind its front header, and at the plain door only while its peer is admitted at its
/// destination. That gets the answer and the dial that are due at its door; the link and its upstream end together for the first cause that
/// applies, with their notes; and no work is put off.
pub fn plain_links_obey()
    ensures { RunsObeyPlain }
{}

/// Each link to a gateway is one history behind its front header, and its DATA fits the windows; its streams are asked for in order, and what
/// a tunnel is told and puts is what came and what goes. A tunnel takes the link of its key that was born first of those that live and have
/// room; another one is dialled, and a link refused for want of room, only where there is none of these.
pub fn links_to_gateways_obey()
    ensures obey { RunsObeyGates }
    ensures take { RunsTake }
{}

/// Each tunnel by a gateway has one stream, and each stream one tunnel. What a gateway brings fits the ring of the link that it is brought to.
pub fn streams_have_tunnels()
    ensures agree { RunsAgree }
    ensures fit { RunsFit }
{}

/// It is counted right how many plain links are connections to each endpoint.
pub fn connections_are_counted()
    ensures { RunsCountOpens }
{}

/// A stream isn't asked for on a link to a gateway that has no room, that went away, that ended, that is for another identity, source or
/// gateway, or while one that was born before it has room; nor for another authority than the way's. No other one is dialled, and no link
/// refused for want of room, beside one that has it; and none is dialled for a link that goes straight. What happens to a link and its stream
/// happens to both, and to no other's.
pub fn other_streams_are_refused()
    ensures roomless { AsksRoomless }
    ensures behind { AsksBehind }
    ensures shares { SharesKeys }
    ensures ended { AsksEnded }
    ensures later { AsksLater }
    ensures elsewhere { AsksElsewhere }
    ensures beside { DialsBeside }
    ensures refuses { RefusesBeside }
    ensures straight { DialsForStraight }
    ensures takes { TakesAlone }
    ensures drops { DropsAlone }
    ensures another { TellsAnother }
    ensures puts { PutsOther }
    ensures undialled { ReadsUndialled }
{}

/// At each entry of the trace, of whatever part, no link to the control plane has ended that isn't closed, but for the one write behind
/// a connection error and closes; every response that came is applied, and every frame that came is looked at, and none of them ended
/// the link's stream. While the run goes on the control plane is dialled exactly when it is due, and behind its end never. The control
/// plane's points obey the laws of its machine, and where nothing waits on a link to it all that is due is put.
pub fn control_plane_obeys()
    ensures dials { RunsDial }
    ensures entries { RunsObeyEntries }
    ensures own { RunsObeyControl }
    ensures put { RunsPutAll }
{}

/// However far one looks, there are never more inbound links that were taken in and links to gateways than may be, nor more tunnels that
/// are pending or live and plain links that were taken in.
pub fn all_is_limited()
    ensures links { NeverMoreLinks }
    ensures tunnels { NeverMoreTunnels }
{}

/// A request finds all places taken exactly where they are, a link is turned away exactly where there are more than may be, and a link to a
/// gateway is refused for want of room exactly where as many are as may be, and else dialled.
pub fn other_limits_are_refused()
    ensures no_place { FindsNoPlace }
    ensures place_beyond { FindsPlaceBeyond }
    ensures first { TurnsAwayFirst }
    ensures beyond { WelcomesBeyond }
    ensures plain { TurnsAwayPlain }
    ensures plain_beyond { WelcomesPlainBeyond }
    ensures none { RefusesWithNone }
    ensures gate_beyond { DialsGateBeyond }
{}

/// A count comes to one number, or to none, and two are more than one.
pub fn counts_are_exact()
    ensures endless { CountsEndless }
    ensures twice { CountsTwice }
    ensures none { CountsNone }
    ensures links { HasMoreLinks }
    ensures tunnels { HasMoreTunnels }
{}

/// With one place of two taken a request finds one, and with both none; the 1,025th link is turned away, and the 1,024th taken in.
pub fn steps_at_limits_may_go()
    ensures place { FindsPlace }
    ensures all_taken { FindsAllTaken }
    ensures beyond { TurnsAwayBeyond }
    ensures last { WelcomesLast }
{}

/// Nothing comes on a link that nobody bore, or that is another part's; no number is born twice; no dial is answered to another part, and
/// none is made twice for one stream.
pub fn links_of_others_are_refused()
    ensures comes { ComesUnborn }
    ensures unborn { ReadsUnborn }
    ensures anothers { ReadsAnothers }
    ensures twice { BornTwice }
    ensures again { BornAgain }
    ensures another { AnswersAnother }
    ensures control { AnswersControl }
    ensures dialled { DialsTwice }
{}

/// Nothing comes on a link while another one is to be closed, or one to the control plane; no link is accepted and no upstream dialled
/// while the control plane is to be dialled, and no link is accepted behind the end of the run, which isn't stopped while a request waits
/// for its answer.
pub fn early_entries_are_refused()
    ensures due { ComesWhileDue }
    ensures ended { ReadsEnded }
    ensures accepts { AcceptsFirst }
    ensures dial { DialsWhileDue }
    ensures late { AcceptsBehindEnd }
    ensures stops { StopsUnanswered }
{}

/// Every link sees an update, and none sees one alone. Behind one that no longer admits a tunnel's peer no byte goes to its upstream, and
/// nothing comes on another link, nor a tick, before that is closed. No byte goes to an upstream that didn't come.
pub fn revoked_tunnels_are_silent()
    ensures together { SeeAll }
    ensures alone { SeesAlone }
    ensures writes { WritesBehind }
    ensures reads { ReadsBehind }
    ensures ticks { TicksBehind }
    ensures invents { InventsByte }
{}

/// Nothing comes on a plain link that nobody bore, nor on the upstream of one as if it were one; none is accepted behind the
/// end of the run, and none has two upstreams. Behind an update that no longer admits its peer no byte goes to its upstream; none goes
/// there that didn't come behind the front header; and nothing comes on another link before one that ended is closed.
pub fn plain_links_are_refused()
    ensures comes { PlainComesUnborn }
    ensures unborn { PlainReadsUnborn }
    ensures upstream { PlainReadsUpstream }
    ensures late { PlainBehindEnd }
    ensures dialled { PlainDialsTwice }
    ensures writes { PlainWritesBehind }
    ensures entries { PlainEntryBehind }
    ensures invents { PlainInventsByte }
    ensures reads { PlainReadsBehind }
{}

/// None is accepted at the outbound door either behind the end of the run, and none there has two upstreams, dialled for either door; nor
/// does anything come on the upstream of one as if it were one.
pub fn outbound_links_are_refused()
    ensures dialled { OutboundDialsTwice }
    ensures late { OutboundBehindEnd }
    ensures upstream { OutboundReadsUpstream }
{}

/// No machine has a live tunnel whose upstream the trace never bore, nor a shut one whose upstream it never shut, nor one that is to be
/// opened where its upstream is open; nor a link that was closed; and none is without a link that lives.
pub fn other_links_are_refused()
    ensures unborn { UpUnborn }
    ensures shut { ShutUntold }
    ensures opened { OpenUnheard }
    ensures closed { KeepsClosed }
    ensures lives { HasNone }
{}

/// No machine has a live plain link whose upstream the trace never bore, nor one that is shut, or whose upstream is, where
/// the trace never shut it, nor one that is to be opened where its upstream is open; nor one that was closed, or whose upstream was; and
/// none has two of one upstream, or one with the number of an inbound link.
pub fn other_plain_links_are_refused()
    ensures unborn { RelayUnborn }
    ensures shut { PlainShutUntold }
    ensures up_shut { RelayShutUntold }
    ensures opened { RelayOpenUnheard }
    ensures closed { KeepsPlainClosed }
    ensures up_closed { KeepsRelayClosed }
    ensures shared { SharesRelay }
    ensures both { IsBoth }
{}

/// Nothing is settled in front of a wait where bytes wait in a tunnel that may go, credit wasn't given, a shut, an end of a stream or a
/// dial is due, octets wait on a link that isn't asleep for writing, a link that has room isn't read and isn't asleep for reading, or one
/// whose peer sends no more wasn't looked at; nor where a link was never asked whether it is open, or a door was named at which nobody accepts. It is behind a finish that moved nothing.
pub fn waits_with_work_left_are_refused()
    ensures down { KeepsDown }
    ensures up { KeepsUp }
    ensures unread { LeavesUnread }
    ensures credit { KeepsCredit }
    ensures unshut { LeavesUnshut }
    ensures unended { LeavesUnended }
    ensures undialled { LeavesUndialled }
    ensures unwritten { LeavesUnwritten }
    ensures link_unread { LeavesLinkUnread }
    ensures unlooked { LeavesUnlooked }
    ensures asks { AsksNothing }
    ensures accepts { AcceptsNothing }
    ensures good { AsksOnce }
{}

/// Nothing is settled where bytes wait on a live plain link either way, and what they go to isn't asleep for writing; where
/// that link or its upstream has room, isn't read and isn't asleep for reading; nor where a shut, a dial or a close of one is due. Nor is
/// anything where one was accepted and never read, or its upstream was never asked whether it is open. It is behind a read that moved
/// nothing.
pub fn plain_waits_with_work_left_are_refused()
    ensures up { KeepsPlainUp }
    ensures down { KeepsPlainDown }
    ensures up_unread { LeavesUpUnread }
    ensures unread { LeavesPlainUnread }
    ensures front { LeavesFrontUnread }
    ensures unshut { LeavesPlainUnshut }
    ensures undialled { LeavesPlainUndialled }
    ensures unclosed { LeavesUnclosed }
    ensures reads { ReadsNothing }
    ensures asks { AsksNoUpstream }
    ensures good { ReadsOnce }
{}

/// A link may be accepted behind the dial of the control plane, at each door, and a byte may go behind an update that still admits the
/// peer, in a tunnel and on a link of the plain door. On one of the outbound door, and on its upstream, bytes may go behind any update.
pub fn good_runs_may_go()
    ensures run { RunMayGo }
    ensures lawful { RunIsLawful }
    ensures goes_on { GoesOnAdmitted }
    ensures plain { PlainRunMayGo }
    ensures plain_goes_on { PlainGoesOn }
    ensures outbound { OutboundRunMayGo }
    ensures outbound_lawful { OutboundRunIsLawful }
    ensures outbound_goes_on { OutboundGoesOn }
    ensures outbound_goes_back { OutboundGoesBack }
{}
