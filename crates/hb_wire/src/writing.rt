//! Fields written, each in its shortest spelling.

ghost use Rattle.std.specs.Prelude.{◌≡◌, ◌+◌, ◌^◌, ◌<◌, ◌≤◌, ◌++◌, OnOk, IfOk, length};
ghost use Rattle.std.specs.List.{flat_map};
ghost use Rattle.hb_base.specs.Groups.{AppendsFront};
ghost use Rattle.hb_wire.specs.Writing.{varint_of, tag_of, number_of, bytes_of, packed_of};

use hb_base::put_groups;
use std::alloc::{AllocError, Global};

const VARINT_TYPE: u64 = 0;

const SPAN_TYPE: u64 = 2;

/// Appends a varint ("Base 128 Varints").
///
/// Errors: `AllocError`, and then a front of it is appended.
pub fn put_varint(_alloc: Global, v: u64, out: &mut Vec<u8>) -> Result<(), AllocError>
    ensures ok { OnOk result (out.new.items ≡ out.old.items ++ varint_of v) }
    ensures front { AppendsFront out.old.items out.new.items (varint_of v) }
{
    put_groups(out, v, 10)
}

/// Appends a field's tag ("Message Structure").
fn put_tag(alloc: Global, number: u32, wire: u64, out: &mut Vec<u8>) -> Result<(), AllocError>
    requires { wire < 8 }
    ensures ok { OnOk result (out.new.items ≡ out.old.items ++ tag_of number wire) }
    ensures front { AppendsFront out.old.items out.new.items (tag_of number wire) }
{
    put_varint(alloc, 8 * u64::from(number) + wire, out)
}

/// Appends a number as a field; nothing for 0.
///
/// Errors: `AllocError`, and then a front of that is appended.
#[tactic(auto, using(hb_base::proofs::FrontLemmas::front_first))]
pub fn put_number(alloc: Global, number: u32, v: u64, out: &mut Vec<u8>) -> Result<(), AllocError>
    requires some { 1 ≤ number }
    requires small { number < 2 ^ 29 }
    ensures ok { OnOk result (out.new.items ≡ out.old.items ++ number_of number v) }
    ensures front { AppendsFront out.old.items out.new.items (number_of number v) }
{
    if v == 0 {
        return Ok(());
    }
    put_tag(alloc, number, VARINT_TYPE, out)?;
    put_varint(alloc, v, out)
}

/// Appends a length and so many bytes.
#[tactic(auto, using(hb_base::proofs::FrontLemmas::front_first))]
fn put_span(alloc: Global, b: &[u8], out: &mut Vec<u8>) -> Result<(), AllocError>
    ensures ok { OnOk result (out.new.items ≡ out.old.items ++ (varint_of (length b.now) ++ b.now)) }
    ensures front { AppendsFront out.old.items out.new.items (varint_of (length b.now) ++ b.now) }
{
    put_varint(alloc, b.len() as u64, out)?;
    out.extend_from_slice(b)
}

/// Appends bytes as a field, none of them too.
///
/// Errors: `AllocError`, and then a front of that is appended.
#[tactic(auto, using(hb_base::proofs::FrontLemmas::front_first))]
pub fn put_bytes(alloc: Global, number: u32, b: &[u8], out: &mut Vec<u8>) -> Result<(), AllocError>
    requires some { 1 ≤ number }
    requires small { number < 2 ^ 29 }
    ensures ok { OnOk result (out.new.items ≡ out.old.items ++ bytes_of number b.now) }
    ensures front { AppendsFront out.old.items out.new.items (bytes_of number b.now) }
{
    put_tag(alloc, number, SPAN_TYPE, out)?;
    put_span(alloc, b, out)
}

/// One varint behind the other.
fn packed(alloc: Global, v: &[u32]) -> Result<Vec<u8>, AllocError>
    ensures { IfOk result (λ body. body.items ≡ flat_map varint_of v.now) }
{
    let mut body = Vec::new(alloc);
    for n in v {
        put_varint(alloc, u64::from(*n), &mut body)?;
    }
    Ok(body)
}

/// Appends numbers as one packed field ("Packed Repeated Fields"); nothing where there are none.
///
/// Errors: `AllocError`, and then a front of that is appended.
pub fn put_packed(
    alloc: Global,
    number: u32,
    v: &[u32],
    out: &mut Vec<u8>,
) -> Result<(), AllocError>
    requires some { 1 ≤ number }
    requires small { number < 2 ^ 29 }
    ensures ok { OnOk result (out.new.items ≡ out.old.items ++ packed_of number v.now) }
    ensures front { AppendsFront out.old.items out.new.items (packed_of number v.now) }
{
    if v.is_empty() {
        return Ok(());
    }
    let body = packed(alloc, v)?;
    put_bytes(alloc, number, body.as_slice(), out)
}
