//! Laws about the definitions that the contracts cite. Each is the contract of a function that does nothing.

ghost use Rattle.hb_streams.specs.Laws.{MovesAddUp, StaysInRoom, ActiveAreInUse, StaysUsed, StaysClosed};
ghost use Rattle.hb_streams.specs.Laws.{NumbersRise, HighestStays, LastAreKept};

/// Whatever frames and acts the streams stood for, after a call they stand for these followed by the call's.
pub fn moves_add_up()
    ensures { MovesAddUp }
{}

/// Never more than 100 streams are open or half-closed.
pub fn room_is_kept()
    ensures { StaysInRoom }
{}

/// A stream that is open or half-closed has an odd number that was used, and an open side. One whose number was
/// used is never idle again, and one that is closed stays closed.
pub fn streams_go_forward()
    ensures active { ActiveAreInUse }
    ensures used { StaysUsed }
    ensures closed { StaysClosed }
{}

/// A client never gives a stream number twice, since each is above all that were used before.
pub fn numbers_rise()
    ensures opened { NumbersRise }
    ensures kept { HighestStays }
{}

/// The 128 resets that are kept are the last 128 of all.
pub fn last_resets_are_kept()
    ensures { LastAreKept }
{}
