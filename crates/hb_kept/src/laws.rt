//! Laws of a connection that its owner keeps. Each is the contract of a function that does nothing.

ghost use Rattle.hb_kept.specs.Kept.{NewIsKept, TakenFares, WantedFares, SomeAreWanted};
ghost use Rattle.hb_kept.specs.Looks.{FoundByLooks};
ghost use Rattle.hb_kept.specs.Acts.{OpensKept, WritesKept, PutsKept, UsesKept, AnswersKept, EndsKept, ResetsKept};
ghost use Rattle.hb_kept.specs.Creditable.{LooksAdd, WritesLeaveCreditable, PutsLeaveCreditable, AnswersLeaveCreditable};
ghost use Rattle.hb_kept.specs.Creditable.{EndsLeaveCreditable, ResetsLeaveCreditable, UsesTake};
ghost use Rattle.hb_kept.specs.Creditable.{BeyondIsRefused, NoneAddedIsRefused, AllMayCome};
ghost use Rattle.hb_kept.specs.Shut.{WaitingShuts, FrameShuts, PutShuts, OpeningShuts, ResetShuts};
ghost use Rattle.hb_kept.specs.Shut.{StayingStaysShut, PutStaysShut, UseStaysShut, AnswerStaysShut, EndStaysShut};
ghost use Rattle.hb_kept.specs.Examples.{FaultedIsRefused, NoOctetIsRefused, FewHaveRoom, MoreIsRefused, NewIsShut};
ghost use Rattle.hb_kept.specs.Examples.{WriteIsRefused, OpenIsRefused};
ghost use Rattle.hb_kept.specs.Opened.{WaitsOnUsed, OpenedIsUnused, UsedIsRefused, OtherMayOpen};
ghost use Rattle.hb_kept.specs.Numbers.{PointsRaise, WritesLeave, ToldAreNumbered, UsedOpensNot, HigherMayOpen};
ghost use Rattle.hb_kept.specs.Payloads.{LooksFollow, WritesFollow, UsesFollow, AnswersFollow, EndsFollow, ResetsFollow};
ghost use Rattle.hb_kept.specs.Payloads.{UnbegunIsRefused, FirstOctetBegins};
ghost use Rattle.hb_kept.specs.Payloads.{OthersFollow, PutsFollow, MoreFollows, InventedIsRefused, LostIsRefused, BothMayWait};
ghost use Rattle.hb_kept.specs.DataWaits.{WaitsWithinMore, WaitsWithout, FindsWithin, WritesWithin, OpensWithin, UsesWithin};
ghost use Rattle.hb_kept.specs.Sides.{WriteLeavesAll, PutLeavesAll, UseLeavesAll, AnswerEndsSide, EndEndsSide, ResetEndsBoth};
ghost use Rattle.hb_kept.specs.Sides.{FindsSides, OpenedIsOpen};
ghost use Rattle.hb_kept.specs.DataWaits.{AnswersWithin, EndsWithin, PutsWithin, ResetsWithin, OutsideIsRefused, InsideMayWait};

/// A new connection is kept. Behind octets that have room, and behind those that were wanted, there is room for all that they may
/// need; where one octet has room some are wanted.
pub fn octets_have_room()
    ensures new { NewIsKept }
    ensures taken { TakenFares }
    ensures wanted { WantedFares }
    ensures some { SomeAreWanted }
{}

/// What a connection with room finds next are looks at its frames; behind all but a connection error it has room again, also where
/// DATA that is told is used up at once; and where nothing is told all that came was looked at.
pub fn found_by_looks()
    ensures { FoundByLooks }
{}

/// Whatever its owner does, a connection is kept.
pub fn acts_keep()
    ensures opens { OpensKept }
    ensures writes { WritesKept }
    ensures puts { PutsKept }
    ensures uses { UsesKept }
    ensures answers { AnswersKept }
    ensures ends { EndsKept }
    ensures resets { ResetsKept }
{}

/// While anything waits to be written no DATA can go, on whatever stream: so behind DATA that was put, the headers of a new
/// stream, and a reset.
pub fn waiting_shuts()
    ensures waits { WaitingShuts }
    ensures frame { FrameShuts }
    ensures put { PutShuts }
    ensures opening { OpeningShuts }
    ensures reset { ResetShuts }
{}

/// Where no DATA could go on a stream, none can behind DATA, octets that are used up, a status or an end, on whatever stream. It may
/// behind a write, and behind a frame of the peer.
pub fn acts_leave_shut()
    ensures stays { StayingStaysShut }
    ensures put { PutStaysShut }
    ensures uses { UseStaysShut }
    ensures answer { AnswerStaysShut }
    ensures end { EndStaysShut }
{}

/// After every history DATA with payload waits only on streams that were used, so none waits on a stream that a server is told to be
/// opened (RFC 9113 section 5.1.1). A stream on which some does is refused; another one isn't.
pub fn opened_streams_are_unused()
    ensures used { WaitsOnUsed }
    ensures opened { OpenedIsUnused }
    ensures refused { UsedIsRefused }
    ensures other { OtherMayOpen }
{}

/// The highest number of a stream that was used doesn't fall by whatever happens. A stream that a server is told to be opened is above
/// all that were used, and the highest behind it, so none is opened twice; DATA is told only of a stream that was used (RFC 9113
/// section 5.1.1). A stream that was used is refused; a higher one isn't.
pub fn streams_open_once()
    ensures raise { PointsRaise }
    ensures writes { WritesLeave }
    ensures told { ToldAreNumbered }
    ensures used { UsedOpensNot }
    ensures higher { HigherMayOpen }
{}

/// Where all DATA with payload that waits is of a set of streams, it is so behind whatever is found, without the stream that a reset or
/// an error of it tells, and without any behind an error of the connection; and behind a write.
pub fn found_data_is_of_the_set()
    ensures more { WaitsWithinMore }
    ensures without { WaitsWithout }
    ensures finds { FindsWithin }
    ensures writes { WritesWithin }
{}

/// So it is behind each act of this end: DATA that is put adds its stream, and a reset takes its stream away.
pub fn put_data_is_of_the_set()
    ensures opens { OpensWithin }
    ensures uses { UsesWithin }
    ensures answers { AnswersWithin }
    ensures ends { EndsWithin }
    ensures puts { PutsWithin }
    ensures resets { ResetsWithin }
{}

/// DATA that waits on a stream outside of the set is refused, and within it isn't.
pub fn data_outside_is_refused()
    ensures outside { OutsideIsRefused }
    ensures inside { InsideMayWait }
{}

/// A write, DATA that is put and octets that are used up leave the sides of all streams. A status that ends its stream and an end close
/// this end's side of it, a reset both; those of other streams they leave (RFC 9113 section 5.1).
pub fn acts_leave_sides()
    ensures writes { WriteLeavesAll }
    ensures puts { PutLeavesAll }
    ensures uses { UseLeavesAll }
    ensures answers { AnswerEndsSide }
    ensures ends { EndEndsSide }
    ensures resets { ResetEndsBoth }
{}

/// What is told of a stream leaves the sides of each other one. DATA that ends a stream closes the peer's side, a reset and an error of it
/// both. Of a stream that a server is told to be opened this end's side is open, and the peer's unless it ended (RFC 9113 section 5.1).
pub fn found_sides()
    ensures finds { FindsSides }
    ensures opened { OpenedIsOpen }
{}

/// The payload of the DATA of a stream that has begun, and that waits to begin, is a front of all that is to be sent on it, whatever
/// is found, written or done on any stream; while the stream goes on, what is behind waits to be put (RFC 9113 section 6.1). An octet
/// that wasn't to be sent is refused, and so is one that is lost; two that wait to be put aren't.
pub fn payloads_follow()
    ensures looks { LooksFollow }
    ensures writes { WritesFollow }
    ensures uses { UsesFollow }
    ensures answers { AnswersFollow }
    ensures ends { EndsFollow }
    ensures resets { ResetsFollow }
    ensures others { OthersFollow }
    ensures puts { PutsFollow }
    ensures more { MoreFollows }
    ensures invented { InventedIsRefused }
    ensures lost { LostIsRefused }
    ensures both { BothMayWait }
{}

/// The octets of DATA that came on a stream and aren't used up grow by those that are handed out, which fit the stream's window; they
/// fall by those that are used up, and stay behind all else, while the peer's side is open (RFC 9113 section 6.9.1). An octet beyond
/// the window is refused, and so is one that isn't added; a whole window may come.
pub fn octets_fit_the_window()
    ensures looks { LooksAdd }
    ensures writes { WritesLeaveCreditable }
    ensures puts { PutsLeaveCreditable }
    ensures answers { AnswersLeaveCreditable }
    ensures ends { EndsLeaveCreditable }
    ensures resets { ResetsLeaveCreditable }
    ensures uses { UsesTake }
    ensures beyond { BeyondIsRefused }
    ensures lost { NoneAddedIsRefused }
    ensures all { AllMayCome }
{}

/// A frame of which no octet went hasn't begun, and one has with its first octet.
pub fn frames_begin()
    ensures none { UnbegunIsRefused }
    ensures first { FirstOctetBegins }
{}

/// A connection of which an error was told isn't kept, nor one that holds what is no octet. Of 640 octets of room 64 octets leave enough
/// for all that they may need, and 65 don't. A write behind which DATA goes doesn't leave its stream shut, though a new connection is;
/// and a stream with an open side didn't end on both.
pub fn others_are_refused()
    ensures fault { FaultedIsRefused }
    ensures octet { NoOctetIsRefused }
    ensures room { FewHaveRoom }
    ensures more { MoreIsRefused }
    ensures new { NewIsShut }
    ensures write { WriteIsRefused }
    ensures side { OpenIsRefused }
{}
