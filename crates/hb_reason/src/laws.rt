//! Laws of reasons, and small lists of policies with reasons, right and wrong. Each is the contract of a function that does nothing.

ghost use Rattle.hb_reason.specs.DenialLaws.{DenialsHaveReasons, ReasonsDeny, OneReasonHolds, DeniedHaveReasons, ReasonsAreJudged};
ghost use Rattle.hb_reason.specs.DenialLaws.{FirstIsTheReason, NoneIsTheReason, NamesIdle, NamesSecond, NamesAllow};
ghost use Rattle.hb_reason.specs.DenialLaws.{HidesDenial, HidesAllow, Miscounts, NeedsNone, BesideEnd, BesideAccepted, BesideNoTarget};

/// A peer is denied exactly where there is a reason, and that is the one that holds of the policies of the workload at the target: the
/// first that denies and fires, or how many allow, of which none fires.
pub fn denied_peers_have_their_reasons()
    ensures have { DenialsHaveReasons }
    ensures deny { ReasonsDeny }
    ensures one { OneReasonHolds }
    ensures denied { DeniedHaveReasons }
    ensures judged { ReasonsAreJudged }
{}

/// Small lists of policies have their reasons; and no reason names a policy that doesn't fire, the second of two denials, or one that
/// allows where one denies, hides a denial or an allowance, or miscounts. None stands beside a note that isn't that of a 401.
pub fn wrong_reasons_are_refused()
    ensures first { FirstIsTheReason }
    ensures none { NoneIsTheReason }
    ensures idle { NamesIdle }
    ensures second { NamesSecond }
    ensures allow { NamesAllow }
    ensures denial { HidesDenial }
    ensures allowance { HidesAllow }
    ensures miscounts { Miscounts }
    ensures nothing { NeedsNone }
    ensures end { BesideEnd }
    ensures accepted { BesideAccepted }
    ensures target { BesideNoTarget }
{}
