//! The headline, what it refuses, and what meets it. Each is the contract of a function that does nothing.

ghost use Rattle.hb_headline.specs.Good.{LifeMeetsTheHeadline};
ghost use Rattle.hb_headline.specs.Headline.{LawfulKeepsTheHeadline};
ghost use Rattle.hb_headline.specs.Refused.{SendsUnfronted, TunnelsUnfronted, InventsBack, SendsEarly, InventsData};
ghost use Rattle.hb_headline.specs.Refused.{SendsUnasked, DialsTwice, DialsElsewhere, AdmitsElsewhere, AdmitsUntold, AdmitsForged};
ghost use Rattle.hb_headline.specs.Refused.{DialsUntold, DialsPlainUntold};
ghost use Rattle.hb_headline.specs.Refused.{SendsUnborn, CutsUnadmitted, KeepsUnadmitted, RelaysUntold, KeepsPlain, KeepsRevoked};
ghost use Rattle.hb_headline.specs.Refused.{BeginsLarge, BeginsBeyond, BeginsUngranted, GateBeginsBeyond, GateBeginsUngranted};
ghost use Rattle.hb_headline.specs.Refused.{GateUnfronted, KeepsMoreUp, KeepsMoreDown, TunnelKeepsMore};
ghost use Rattle.hb_headline.specs.Relay.{BeganIsNotOne};

/// Each lawful trace meets the headline.
pub fn headline_holds()
    ensures { LawfulKeepsTheHeadline }
{}

/// Small traces don't meet it: bytes that go to a workload without a header, or that it didn't send, or of a stream without one; a second
/// upstream of a stream; peers who aren't admitted where they go, by nothing that came, in frames that are cut, or no
/// longer; DATA beyond what the peer granted; octets in the place of a front header; octets that wait beyond a ring.
pub fn small_traces_are_refused()
    ensures unfronted { SendsUnfronted }
    ensures tunnel { TunnelsUnfronted }
    ensures invents { InventsBack }
    ensures early { SendsEarly }
    ensures invents_data { InventsData }
    ensures unasked { SendsUnasked }
    ensures twice { DialsTwice }
    ensures again { DialsElsewhere }
    ensures elsewhere { AdmitsElsewhere }
    ensures untold { AdmitsUntold }
    ensures tried { DialsUntold }
    ensures tried_plain { DialsPlainUntold }
    ensures forged { AdmitsForged }
    ensures unborn { SendsUnborn }
    ensures cut { CutsUnadmitted }
    ensures kept { KeepsUnadmitted }
    ensures relayed { RelaysUntold }
    ensures plain { KeepsPlain }
    ensures revoked { KeepsRevoked }
    ensures large { BeginsLarge }
    ensures beyond { BeginsBeyond }
    ensures ungranted { BeginsUngranted }
    ensures gate_beyond { GateBeginsBeyond }
    ensures gate_ungranted { GateBeginsUngranted }
    ensures gate_unfronted { GateUnfronted }
    ensures waiting_up { KeepsMoreUp }
    ensures waiting_down { KeepsMoreDown }
    ensures waiting_tunnel { TunnelKeepsMore }
{}

/// A life of a tunnel with a response that admits its peer meets it.
pub fn a_life_meets_it()
    ensures { LifeMeetsTheHeadline }
{}

/// The octets that went don't tell which frames have begun: one list of them is fixed for each link.
pub fn begun_frames_are_not_told()
    ensures { BeganIsNotOne }
{}
