//! Texts, addresses, and the entries of a repeated field.

ghost use Rattle.std.specs.Prelude.{◌≡◌, ◌++◌, ◌<◌, ◌≤◌, ◌^◌, OnOk};
ghost use Rattle.hb_wire.specs.Writing.{bytes_of};
ghost use Rattle.hb_canonical.specs.Fields.{text_field, entries_of};

use hb_base::{Ip, List, NoMemory, Text};
use hb_wire::put_bytes;
use std::alloc::Global;

/// A value that has one canonical spelling.
pub trait Canonical {
    ghost use Rattle.std.specs.Prelude.{◌≡◌, ◌++◌, ℕ, OnOk};
    ghost use Rattle.std.specs.Prelude.{List as list};

    ghost spelled: { Self → list ℕ };

    /// Appends the spelling.
    ///
    /// Errors: `NoMemory`; what was appended to `out` isn't said then.
    fn put(&self, alloc: Global, out: &mut Vec<u8>) -> Result<(), NoMemory>
        ensures { OnOk result (out.new.items ≡ out.old.items ++ spelled self.now) };
}

/// Appends a value as a field, one with no bytes too.
///
/// Errors: `NoMemory`; what was appended to `out` isn't said then.
pub fn put_value<T: Canonical>(
    alloc: Global,
    number: u32,
    value: &T,
    out: &mut Vec<u8>,
) -> Result<(), NoMemory>
    requires some { 1 ≤ number }
    requires small { number < 2 ^ 29 }
    ensures { OnOk result (out.new.items ≡ out.old.items ++ bytes_of number (T.spelled value.now)) }
{
    let mut own = Vec::new(alloc);
    value.put(alloc, &mut own)?;
    put_bytes(alloc, number, own.as_slice(), out)
}

/// Appends each entry of a repeated field.
///
/// Errors: `NoMemory`; what was appended to `out` isn't said then.
pub fn put_entries<T: Canonical>(
    alloc: Global,
    number: u32,
    entries: &List<T>,
    out: &mut Vec<u8>,
) -> Result<(), NoMemory>
    requires some { 1 ≤ number }
    requires small { number < 2 ^ 29 }
    ensures { OnOk result (out.new.items ≡ out.old.items ++ entries_of number T.spelled entries.now) }
{
    for entry in entries.as_slice() {
        put_value(alloc, number, entry, out)?;
    }
    Ok(())
}

/// Appends a text as a field; nothing for the empty text.
///
/// Errors: `NoMemory`; what was appended to `out` isn't said then.
pub fn put_text(alloc: Global, number: u32, text: &Text, out: &mut Vec<u8>) -> Result<(), NoMemory>
    requires some { 1 ≤ number }
    requires small { number < 2 ^ 29 }
    ensures { OnOk result (out.new.items ≡ out.old.items ++ text_field number text.now) }
{
    if text.as_slice().is_empty() {
        return Ok(());
    }
    put_bytes(alloc, number, text.as_slice(), out)
}

/// The bytes themselves.
impl Canonical for Text {
    ghost spelled = { λ text. text };

    fn put(&self, _alloc: Global, out: &mut Vec<u8>) -> Result<(), NoMemory> {
        out.extend_from_slice(self.as_slice())
    }
}

/// Four octets or sixteen, most significant first.
impl Canonical for Ip {
    ghost use Rattle.hb_canonical.specs.Fields.{octets_of};

    ghost spelled = { octets_of };

    fn put(&self, _alloc: Global, out: &mut Vec<u8>) -> Result<(), NoMemory> {
        match self {
            Ip::V4(n) => out.extend_from_slice(&n.to_be_bytes()),
            Ip::V6(n) => out.extend_from_slice(&n.to_be_bytes()),
        }
    }
}
