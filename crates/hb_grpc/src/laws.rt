//! Laws about the definitions that the contracts cite. Each is the contract of a function that does nothing.

ghost use Rattle.hb_grpc.specs.Framed.{FramedAreAll};
ghost use Rattle.hb_grpc.specs.Message.{OneReading};
ghost use Rattle.hb_grpc.specs.Pieces.{AnyPieces, FaultStays, OneFault, SentIsRead};

/// Bytes have at most one list of messages and one rest.
pub fn one_reading()
    ensures { OneReading }
{}

/// The messages that bytes are taken apart into are those of the bytes.
pub fn framed_are_all()
    ensures { FramedAreAll }
{}

/// However a stream is cut into pieces, the messages given are those of all bytes taken, and what is held is their
/// rest.
pub fn any_pieces()
    ensures { AnyPieces }
{}

/// A fault comes again after any pieces, and no message is given any more.
pub fn fault_stays()
    ensures { FaultStays }
{}

/// Two Framers of one limit that are fed the same bytes in other pieces, and that both tell a fault, gave the same
/// messages and tell the same fault.
pub fn one_fault()
    ensures { OneFault }
{}

/// What is sent for a message is read as this message, whatever comes behind it.
pub fn sent_is_read()
    ensures { SentIsRead }
{}
