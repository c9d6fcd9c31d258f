//! Why bytes are no record.

use hb_message::MessageFault;
use hb_wire::WireFault;
use thiserror::Error;

/// Why bytes are no record: the first fault in order of bytes, depth first. `field` is a field's number in
/// the message that it stands in.
#[derive(Clone, Copy, Debug, Error)]
pub enum RecordFault {
    /// The bytes are no fields; the place is counted in the whole record.
    #[error("{0}")]
    Wire(WireFault),
    /// A string isn't UTF-8.
    #[error("utf8 in field {field}")]
    Utf8 { field: u32 },
    /// An address has neither 4 nor 16 octets.
    #[error("bad ip in field {field}")]
    BadIp { field: u32 },
    /// A prefix has no address, or is longer than its address.
    #[error("bad cidr in field {field}")]
    BadCidr { field: u32 },
    /// An enum has a value that it doesn't name.
    #[error("bad enum {value} in field {field}")]
    BadEnum { field: u32, value: u32 },
    /// A message of one kind out of several has no kind; 0 is the whole record.
    #[error("no kind in field {field}")]
    NoKind { field: u32 },
    /// The 4,097th entry of a repeated field.
    #[error("too many in field {field}: {count}")]
    TooMany { field: u32, count: u32 },
}

impl MessageFault for RecordFault {
    ghost use Rattle.hb_records.specs.declared.fault.RecordFault.TheVariants.{Wire, Utf8};

    ghost wire = { Wire };

    ghost utf8 = { Utf8 };

    fn of_wire(fault: WireFault) -> RecordFault {
        RecordFault::Wire(fault)
    }

    fn of_utf8(field: u32) -> RecordFault {
        RecordFault::Utf8 { field }
    }
}
