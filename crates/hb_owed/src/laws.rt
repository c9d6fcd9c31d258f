//! Laws about the definitions that the contracts cite. Each is the contract of a function that does nothing.

ghost use Rattle.hb_owed.specs.Laws.{PaysInOrder, LowestFirst, EachStream, PlentyPaysAll, RoomPaysAll};
ghost use Rattle.hb_owed.specs.Moves.{ClosedGo, KeepsRecords};

/// The first of all owed frames are put, in order and each once, and the first of the others doesn't fit the room.
pub fn pays_in_order()
    ensures { PaysInOrder }
{}

/// The order of all owed frames: those of a lower stream stand first, and those of one stream in their order.
pub fn lowest_first()
    ensures rising { LowestFirst }
    ensures streams { EachStream }
{}

/// Where there is room for all that is owed, or room for the largest frame is left, nothing is owed afterwards.
pub fn room_pays_all()
    ensures plenty { PlentyPaysAll }
    ensures left { RoomPaysAll }
{}

/// The record of a closed stream goes once nothing is owed on it.
pub fn closed_records_go()
    ensures { ClosedGo }
{}

/// A payment gives no stream a record, and takes none away of a stream that isn't closed.
pub fn pay_keeps_records()
    ensures { KeepsRecords }
{}
