//! Why bytes are no message.

use hb_wire::WireFault;

/// A fault of reading: it can say what any message's bytes may lack.
pub trait MessageFault {
    ghost use Rattle.std.specs.Prelude.{◌≡◌, ℕ};
    ghost use Rattle.hb_wire.specs.declared.fault.WireFault.{WireFault as NoField};

    ghost wire: { NoField → Self };

    ghost utf8: { ℕ → Self };

    /// The bytes are no fields.
    fn of_wire(fault: WireFault) -> Self
        ensures { result ≡ wire fault };

    /// The string field of this number isn't UTF-8.
    fn of_utf8(field: u32) -> Self
        ensures { result ≡ utf8 field };
}
