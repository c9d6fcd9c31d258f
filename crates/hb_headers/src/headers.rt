//! Headers that a client sends.

ghost use Rattle.std.specs.Prelude.{◌≡◌, ◌≤◌, ◌++◌, ◌∷◌, [], codes, length, IfOk, OnOk};
ghost use Rattle.hb_base.specs.TargetText.{target_text};
ghost use Rattle.hb_hpack.specs.StaticTable.{header};

use hb_base::{Bytes, Ip, List, NoMemory, Target, put_target};
use hb_hpack::Header;
use std::alloc::Global;

/// A header of this name and this value.
///
/// Errors: `NoMemory`.
pub fn header(alloc: Global, name: &[u8], value: &[u8]) -> Result<Header, NoMemory>
    ensures { IfOk result (λ h. h ≡ header name.now value.now) }
{
    Ok(Header {
        name: Bytes::of(alloc, name)?,
        value: Bytes::of(alloc, value)?,
    })
}

/// The pseudo-header `:authority` of this address and port (RFC 9113 section 8.3.1).
///
/// Errors: `NoMemory`.
pub fn authority(alloc: Global, ip: Ip, port: u16) -> Result<Header, NoMemory>
    ensures value { IfOk result (λ h. h ≡ header (codes ":authority") (target_text (record { ip = ip; port = port }))) }
    ensures short { IfOk result (λ h. length h.value ≤ 120) }
{
    let mut text = Vec::new(alloc);
    put_target(alloc, Target { ip, port }, &mut text)?;
    header(alloc, b":authority", text.as_slice())
}

/// Adds a header of this name and this value.
///
/// Errors: `NoMemory`.
pub fn add(
    alloc: Global,
    name: &[u8],
    value: &[u8],
    headers: &mut List<Header>,
) -> Result<(), NoMemory>
    ensures { OnOk result (headers.new ≡ headers.old ++ header name.now value.now ∷ []) }
{
    headers.push(header(alloc, name, value)?)
}
