//! Laws about the definitions that the contracts cite. Each is the contract of a function that does nothing.

ghost use Rattle.hb_frames.specs.Frames.{OneReading};
ghost use Rattle.hb_frames.specs.Laws.{SentIsSpelled, SpelledIsRead};
ghost use Rattle.hb_frames.specs.Bodies.{OneContent};
ghost use Rattle.hb_frames.specs.Calls.{AnyPieces, AllFrames, OffsetCounts, FaultStays, OneFault};
ghost use Rattle.hb_frames.specs.History.{FeedAdds, FrameAdds, OthersAddNothing};

/// Bytes have at most one list of frames and one rest.
pub fn one_reading()
    ensures { OneReading }
{}

/// What is sent for a frame spells it, and what spells a frame is read as this frame.
pub fn spelled_is_read()
    ensures sent { SentIsSpelled }
    ensures read { SpelledIsRead }
{}

/// A padded payload has one content.
pub fn one_content()
    ensures { OneContent }
{}

/// What each call adds to the bytes that a reader took and the frames that it gave.
pub fn each_call_adds()
    ensures feed { FeedAdds }
    ensures frame { FrameAdds }
    ensures others { OthersAddNothing }
{}

/// However a stream is cut into pieces and whenever frames are asked for, the frames given, followed by what
/// is held, spell all bytes taken. Where the next answer is None, they are all the frames of these bytes. The
/// offset counts the bytes taken that aren't held.
pub fn any_pieces()
    ensures joined { AnyPieces }
    ensures all { AllFrames }
    ensures offset { OffsetCounts }
{}

/// A fault that `next_frame` gave comes again after any calls, and no frame is given any more.
pub fn fault_stays()
    ensures { FaultStays }
{}

/// Two readers of one maximum that are fed the same bytes in other pieces, and that both tell a fault, gave the
/// same frames, and tell the same fault at the same offset, even where one of them took more of the bytes.
pub fn one_fault()
    ensures { OneFault }
{}
