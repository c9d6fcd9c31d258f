//! Small examples, which no code calls: each is proved, and its body is empty.

ghost use Rattle.hb_traced.specs.Examples.{OctetsAreKept, NothingIsKept, MoreIsKept, ShutIsKept, SecondShutIsNot, CloseIsKept};
ghost use Rattle.hb_traced.specs.Examples.{SecondCloseIsNot, DeadLinkBalks, LivingLinkReads, DeadLinkReads, NextIsBorn, OtherFails};
ghost use Rattle.hb_traced.specs.Examples.{OtherIsBorn};

/// A call adds the entries of its answer, neither fewer nor others; a link is shut once, and closed once.
pub fn entries_are_those_of_answers()
    ensures octets { OctetsAreKept }
    ensures nothing { NothingIsKept }
    ensures more { MoreIsKept }
    ensures shut { ShutIsKept }
    ensures second_shut { SecondShutIsNot }
    ensures closed { CloseIsKept }
    ensures second_close { SecondCloseIsNot }
{}

/// A call on a link that doesn't live balks, and a birth of another number than the next one failed.
pub fn answers_that_may_not_be_are_replaced()
    ensures dead { DeadLinkBalks }
    ensures living { LivingLinkReads }
    ensures dead_reads { DeadLinkReads }
    ensures next { NextIsBorn }
    ensures other { OtherFails }
    ensures other_born { OtherIsBorn }
{}
