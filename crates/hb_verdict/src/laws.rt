//! Laws of verdicts. Each is the contract of a function that does nothing.

ghost use Rattle.hb_verdict.specs.Laws.{TunnelsAreAskedFor, NoTunnelIsMissed, DialsWhereItMay, DialsAllThatItMay, AsksSo, LateIsMalformed};
ghost use Rattle.hb_verdict.specs.Laws.{TwiceIsMalformed, StatusIsMalformed, NoTargetIsMalformed, SchemeIsMalformed, UpperCaseIsMalformed};
ghost use Rattle.hb_verdict.specs.Laws.{NoNameIsMalformed, GetIsRefused, ElsewhereIsRefused};
ghost use Rattle.hb_verdict.specs.Laws.{NeverDialsItsDoor, NeverDialsNowhere, DoorIsReached, DoorIsMissed, NowhereLeadsBack, port_80};
ghost use Rattle.std.specs.Prelude.{Some, None};
ghost use Rattle.hb_base.specs.declared.ip.Ip.TheVariants.{V4, V6};

/// A request is one for a tunnel exactly where its headers fit, are well formed, have the method CONNECT and an authority that is
/// a target at the link's destination.
pub fn tunnels_are_asked_for()
    ensures only { TunnelsAreAskedFor }
    ensures all { NoTunnelIsMissed }
{}

/// A target is dialled exactly where workloads and policies came, they admit the peer, it doesn't lead back to the node, and a place is
/// left.
pub fn dials_where_it_may()
    ensures only { DialsWhereItMay }
    ensures all { DialsAllThatItMay }
{}

/// Nothing is dialled at a door of the node, nor at the unspecified address, at which each of its doors may be: what reaches one would be
/// believed who a connection comes from.
pub fn its_own_door_is_never_dialled()
    ensures never { NeverDialsItsDoor }
    ensures nowhere { NeverDialsNowhere }
{}

/// A door, whichever it is, is reached at its own address, and where it listens at the unspecified one at each address; not at another
/// address or port. The unspecified address leads back at each port, also where no door listens.
pub fn doors_are_told_apart()
    ensures own { DoorIsReached (V4 167772167) }
    ensures each { DoorIsReached (V4 0) }
    ensures each_of_both { DoorIsReached (V6 0) }
    ensures address { DoorIsMissed (Some (port_80 (V4 167772168))) }
    ensures port { DoorIsMissed (Some (record (port_80 (V4 0)) { port = 81 })) }
    ensures none { DoorIsMissed None }
    ensures nowhere { NowhereLeadsBack }
{}

/// A small request for a tunnel is one, and small wrong ones aren't.
pub fn requests_are_told_apart()
    ensures asks { AsksSo }
    ensures late { LateIsMalformed }
    ensures twice { TwiceIsMalformed }
    ensures status { StatusIsMalformed }
    ensures no_target { NoTargetIsMalformed }
    ensures scheme { SchemeIsMalformed }
    ensures upper_case { UpperCaseIsMalformed }
    ensures no_name { NoNameIsMalformed }
    ensures get { GetIsRefused }
    ensures elsewhere { ElsewhereIsRefused }
{}
