//! Laws about the definitions that the contracts cite. Each is the contract of a function that does nothing.

ghost use Rattle.hb_outgoing.specs.Laws.{AllIsSpelled, PutAdds, WriteBegins, BeginsByPlace, EndsAtAFrame, TakeBackKeeps, OthersStay};

/// What was sent, followed by what waits, is the opening and the frames, each whole and in order; a frame
/// that has begun is among those that can't be taken back.
pub fn all_is_spelled()
    ensures { AllIsSpelled }
{}

/// A frame that is put is the last of the frames.
pub fn put_adds()
    ensures { PutAdds }
{}

/// A write sends the first octets that wait and begins the frames whose first octet is among them: each frame
/// that has fewer octets in front of it than are written, and no other. Where it
/// ends at a frame's end, nothing is begun.
pub fn write_begins()
    ensures sent { WriteBegins }
    ensures begun { BeginsByPlace }
    ensures whole { EndsAtAFrame }
{}

/// Taking back leaves what was sent, each frame that has begun, and all frames but the stream's DATA frames;
/// those of every other stream stay in order.
pub fn take_back_keeps()
    ensures frames { TakeBackKeeps }
    ensures others { OthersStay }
{}
