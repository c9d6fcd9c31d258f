//! Why a resource was refused, in words.

ghost use Rattle.std.specs.Prelude.{◌≡◌, string_bytes, IfOk};
ghost use Rattle.hb_records.specs.declared.fault.RecordFault.TheVariants.{Wire, BadEnum};
ghost use Rattle.hb_lines.specs.Why.{wire_word, fault_text, why_text};

use hb_base::NoMemory;
use hb_held::RefusedWhy;
use hb_records::RecordFault;
use hb_wire::{WireFault, WireWhy};
use std::alloc::Global;

fn wire_word(why: WireWhy) -> &'static str
    ensures { result.now ≡ wire_word why }
{
    match why {
        WireWhy::Truncated => "truncated",
        WireWhy::LongVarint => "long varint",
        WireWhy::BadNumber => "bad number",
        WireWhy::BadType => "bad type",
    }
}

fn wire_text(alloc: Global, fault: WireFault) -> Result<String, NoMemory>
    ensures { IfOk result (λ text. string_bytes text ≡ fault_text (Wire fault)) }
{
    let word = wire_word(fault.why);
    let at = fault.at;
    format!(in alloc; "wire {word} at {at}")
}

fn enum_text(alloc: Global, field: u32, value: u32) -> Result<String, NoMemory>
    ensures { IfOk result (λ text. string_bytes text ≡ fault_text (BadEnum field value)) }
{
    format!(in alloc; "bad enum {value} in field {field}")
}

fn fault_text(alloc: Global, fault: RecordFault) -> Result<String, NoMemory>
    ensures { IfOk result (λ text. string_bytes text ≡ fault_text fault) }
{
    match fault {
        RecordFault::Wire(fault) => wire_text(alloc, fault),
        RecordFault::Utf8 { field } => format!(in alloc; "utf8 in field {field}"),
        RecordFault::BadIp { field } => format!(in alloc; "bad ip in field {field}"),
        RecordFault::BadCidr { field } => format!(in alloc; "bad cidr in field {field}"),
        RecordFault::BadEnum { field, value } => enum_text(alloc, field, value),
        RecordFault::NoKind { field } => format!(in alloc; "no kind in field {field}"),
        RecordFault::TooMany { field, .. } => format!(in alloc; "too many in field {field}"),
    }
}

/// The text of why a resource was refused.
pub(crate) fn why_text(alloc: Global, why: RefusedWhy) -> Result<String, NoMemory>
    ensures { IfOk result (λ text. string_bytes text ≡ why_text why) }
{
    match why {
        RefusedWhy::NoName => String::from_str(alloc, "no name"),
        RefusedWhy::WrongType => String::from_str(alloc, "wrong type"),
        RefusedWhy::Record(fault) => fault_text(alloc, fault),
        RefusedWhy::Full => String::from_str(alloc, "full"),
    }
}
