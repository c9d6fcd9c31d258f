//! The fields of a message.

ghost use Rattle.std.specs.Prelude.{◌≡◌, ◌+◌, ◌^◌, ◌<◌, ◌≤◌, length, IfOk, IfSome, OnOk, OnErr, OnSome, IfNone};
ghost use Rattle.hb_wire.specs.Field.{next_in, field_in, value_in, varint_value, eight_value, span_value, four_value};
ghost use Rattle.hb_wire.specs.WireType.{is_wire_type};
ghost use Rattle.hb_wire.specs.Seen.{answer, content, unread, seen, IsInMemory};

use crate::cursor::Cursor;
use crate::fault::{WireFault, WireWhy};
use std::marker::Model;

/// The value of a field, by its wire type: a varint, eight bytes, a span of bytes, or four bytes.
#[derive(Clone, Copy)]
pub enum FieldValue<'a> {
    Varint(u64),
    Eight(u64),
    Span(&'a [u8]),
    Four(u32),
}

/// A field: its number, its value, and the place at which the value's first byte stands (of a span the
/// first byte behind its length).
#[derive(Clone, Copy)]
pub struct Field<'a> {
    pub number: u32,
    pub at: usize,
    pub value: FieldValue<'a>,
}

/// The wire types that are read (Protocol Buffers encoding guide, "Message Structure").
const VARINT: u64 = 0;

const EIGHT: u64 = 1;

const SPAN: u64 = 2;

const FOUR: u64 = 5;

/// The largest field number (Protocol Buffers language guide, "Assigning Field Numbers").
const LARGEST_NUMBER: u64 = 536_870_911;

fn is_wire_type(wire_type: u64) -> bool
    ensures { result ≡ is_wire_type wire_type }
{
    wire_type == VARINT || wire_type == EIGHT || wire_type == SPAN || wire_type == FOUR
}

/// The field in front, and what is unread behind it.
#[inline(always)]
#[tactic(auto, unfolding(crate::specs::Field::field_in))]
fn read_field(cursor: Cursor<'_>) -> Result<(Field<'_>, Cursor<'_>), WireFault>
    ensures value { seen (λ f. (content f.0, unread f.1)) result ≡ field_in (unread cursor.entry) }
    ensures span { IfOk result (λ f. IsInMemory f.0) }
{
    let (tag, rest) = cursor.varint()?;
    let number = tag / 8;
    if number == 0 || number > LARGEST_NUMBER {
        return Err(WireFault {
            at: cursor.at,
            why: WireWhy::BadNumber,
        });
    }
    let wire_type = tag % 8;
    if !is_wire_type(wire_type) {
        return Err(WireFault {
            at: cursor.at,
            why: WireWhy::BadType,
        });
    }
    read_value(number as u32, wire_type, rest)
}

/// The value of a field of this number and wire type, and what is unread behind it.
#[inline(always)]
#[tactic(auto, unfolding(crate::specs::Field::value_in))]
fn read_value(
    number: u32,
    wire_type: u64,
    cursor: Cursor<'_>,
) -> Result<(Field<'_>, Cursor<'_>), WireFault>
    ensures value { seen (λ f. (content f.0, unread f.1)) result ≡ value_in number wire_type (unread cursor.entry) }
    ensures span { IfOk result (λ f. IsInMemory f.0) }
{
    if wire_type == VARINT {
        return varint_field(number, cursor);
    }
    if wire_type == EIGHT {
        return eight_field(number, cursor);
    }
    if wire_type == SPAN {
        return span_field(number, cursor);
    }
    four_field(number, cursor)
}

/// A field that is a varint, and what is unread behind it.
#[inline(always)]
fn varint_field(number: u32, cursor: Cursor<'_>) -> Result<(Field<'_>, Cursor<'_>), WireFault>
    ensures value { seen (λ f. (content f.0, unread f.1)) result ≡ varint_value number (unread cursor.entry) }
    ensures span { IfOk result (λ f. IsInMemory f.0) }
{
    let at = cursor.at;
    let (n, rest) = cursor.varint()?;
    let value = FieldValue::Varint(n);
    Ok((Field { number, at, value }, rest))
}

/// A field of eight bytes, and what is unread behind it.
fn eight_field(number: u32, cursor: Cursor<'_>) -> Result<(Field<'_>, Cursor<'_>), WireFault>
    ensures value { seen (λ f. (content f.0, unread f.1)) result ≡ eight_value number (unread cursor.entry) }
    ensures span { IfOk result (λ f. IsInMemory f.0) }
{
    let at = cursor.at;
    let (n, rest) = cursor.eight()?;
    let value = FieldValue::Eight(n);
    Ok((Field { number, at, value }, rest))
}

/// A field that is a length and so many bytes, and what is unread behind it.
#[inline(always)]
fn span_field(number: u32, cursor: Cursor<'_>) -> Result<(Field<'_>, Cursor<'_>), WireFault>
    ensures value { seen (λ f. (content f.0, unread f.1)) result ≡ span_value number (unread cursor.entry) }
    ensures span { IfOk result (λ f. IsInMemory f.0) }
{
    let (length, rest) = cursor.varint()?;
    let at = rest.at;
    let (bytes, rest) = rest.bytes(length)?;
    let value = FieldValue::Span(bytes);
    Ok((Field { number, at, value }, rest))
}

/// A field of four bytes, and what is unread behind it.
fn four_field(number: u32, cursor: Cursor<'_>) -> Result<(Field<'_>, Cursor<'_>), WireFault>
    ensures value { seen (λ f. (content f.0, unread f.1)) result ≡ four_value number (unread cursor.entry) }
    ensures span { IfOk result (λ f. IsInMemory f.0) }
{
    let at = cursor.at;
    let (n, rest) = cursor.four()?;
    let value = FieldValue::Four(n);
    Ok((Field { number, at, value }, rest))
}

/// A cursor over the fields of a message.
#[derive(Drop)]
pub struct Fields<'a> {
    cursor: Cursor<'a>,
}

impl<'a> Model for Fields<'a> {
    ghost use Rattle.std.specs.Prelude.{◌≡◌, ◌+◌, ◌^◌, ◌<◌, length, refl};
    ghost use Rattle.hb_wire.specs.Field.{Unread};

    ghost Value = { Unread };

    ghost view = { λ f. record { at = f.cursor.at; left = f.cursor.left.now } };
}

impl<'a> Fields<'a> {
    /// The fields of these bytes, with places counted from their first byte.
    pub fn over(bytes: &'a [u8]) -> Fields<'a>
        ensures { result ≡ record { at = 0; left = bytes.now } }
    {
        Fields::within(bytes, 0)
    }

    /// The fields of these bytes, which stand at place `at` of a larger message: places are counted in that one.
    pub fn within(bytes: &'a [u8], at: usize) -> Fields<'a>
        requires { at + length bytes.now < 2 ^ 64 }
        ensures { result ≡ record { at = at; left = bytes.now } }
    {
        Fields {
            cursor: Cursor { at, left: bytes },
        }
    }

    /// The next field (Protocol Buffers encoding guide, "Message Structure"); `None` at the end of the bytes.
    ///
    /// Errors: what is wrong with the field in front, and where. Every later call answers the same fault.
    #[inline(always)]
    pub fn next_field(&mut self) -> Result<Option<Field<'a>>, WireFault>
        ensures answer { answer result self.new ≡ next_in self.old }
        ensures end { IfOk result (λ f. IfNone f (self.new ≡ self.old)) }
        ensures fault { OnErr result (self.new ≡ self.old) }
        ensures span { IfOk result (λ f. IfSome f (λ f. IsInMemory f)) }
    {
        if self.cursor.left.is_empty() {
            return Ok(None);
        }
        let (field, rest) = read_field(self.cursor)?;
        self.cursor = rest;
        Ok(Some(field))
    }
}
