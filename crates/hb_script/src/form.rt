//! The forms of a script's line.

ghost use Rattle.std.specs.Prelude.{◌≡◌, IfOk, IfErr};
ghost use Rattle.serde_json.specs.Find.{as_str, as_object};
ghost use Rattle.serde_json.specs.View.{view, members_view};
ghost use Rattle.hb_base.specs.Outcome.{Answers, Fails};
ghost use Rattle.hb_script.specs.Form.{number_from, link_of, event, door_named, fault_named, bytes_spelled, link_event, one_member, piece_of, room_of, two_members, line_of_members, line_of_object, value_of, line_of};

use crate::fault::ScriptWhy;
use hb_base::{Bytes, Door, Or};
use hb_world::Line;
use hex::FromHexError;
use serde_json::{Map, Value};
use std::alloc::Global;

/// The largest number of a line.
const LARGEST: u64 = 9_223_372_036_854_775_807;

/// A number in decimal digits alone, from the least to the largest.
fn number_from(least: u64, value: &Value) -> Result<u64, ScriptWhy>
    ensures { result ≡ number_from least (view value.now) }
{
    match value.as_u64() {
        Some(n) if least <= n && n <= LARGEST => Ok(n),
        _ => Err(ScriptWhy::BadValue),
    }
}

/// The number of a link.
fn link_number(value: &Value) -> Result<u64, ScriptWhy>
    ensures { result ≡ link_of (view value.now) }
{
    number_from(1, value)
}

/// An event that the value `true` alone gives.
fn event(line: Line, value: &Value) -> Result<Line, ScriptWhy>
    ensures { result ≡ event line (view value.now) }
{
    if value.as_bool().unwrap_or(false) {
        Ok(line)
    } else {
        Err(ScriptWhy::BadValue)
    }
}

fn door_named(value: &Value) -> Result<Door, ScriptWhy>
    ensures { result ≡ door_named (as_str (view value.now)) }
{
    match value.as_str() {
        Some(word) if word == "inbound" => Ok(Door::Inbound),
        Some(word) if word == "outbound" => Ok(Door::Outbound),
        Some(word) if word == "plain" => Ok(Door::Plain),
        _ => Err(ScriptWhy::BadValue),
    }
}

fn fault_named(value: &Value) -> Result<Line, ScriptWhy>
    ensures { result ≡ fault_named (as_str (view value.now)) }
{
    match value.as_str() {
        Some(word) if word == "wait" => Ok(Line::FaultWait),
        Some(word) if word == "listen" => Ok(Line::FaultListen),
        _ => Err(ScriptWhy::BadValue),
    }
}

/// What happens to a link.
fn link_event(key: &str, value: &Value) -> Result<Line, ScriptWhy>
    ensures { result ≡ link_event key.now (view value.now) }
{
    if key == "break" {
        Ok(Line::Break(link_number(value)?))
    } else if key == "end" {
        Ok(Line::End(link_number(value)?))
    } else if key == "open" {
        Ok(Line::Open(link_number(value)?))
    } else if key == "refuse" {
        Ok(Line::Refuse(link_number(value)?))
    } else {
        Err(ScriptWhy::BadKeys)
    }
}

/// The forms of one member.
fn one_member(key: &str, value: &Value) -> Result<Line, ScriptWhy>
    ensures { result ≡ one_member key.now (view value.now) }
{
    if key == "accept" {
        Ok(Line::Accept(door_named(value)?))
    } else if key == "fault" {
        fault_named(value)
    } else if key == "nodial" {
        Ok(Line::NoDial(number_from(0, value)?))
    } else if key == "stop" {
        event(Line::Stop, value)
    } else if key == "tick" {
        event(Line::Tick, value)
    } else if key == "wake" {
        event(Line::Wake, value)
    } else {
        link_event(key, value)
    }
}

/// Bytes, at least one, in hexadecimal digits of either case.
fn bytes_spelled(alloc: Global, value: &Value) -> Result<Bytes, Or<ScriptWhy>>
    ensures { Answers result (bytes_spelled (as_str (view value.now))) }
{
    let Some(digits) = value.as_str() else {
        return Err(Or::Fault(ScriptWhy::BadValue));
    };
    if digits.is_empty() {
        return Err(Or::Fault(ScriptWhy::BadValue));
    }
    match hex::decode(alloc, digits) {
        Ok(bytes) => Ok(Bytes::from_vec(bytes)),
        Err(FromHexError::OutOfMemory) => Err(Or::NoMemory),
        Err(_) => Err(Or::Fault(ScriptWhy::BadHex)),
    }
}

/// `{"bytes":"HEX","link":N}`: the link is looked at before the digits.
fn piece(alloc: Global, digits: &Value, link: &Value) -> Result<Line, Or<ScriptWhy>>
    ensures { Answers result (piece_of (view digits.now) (view link.now)) }
{
    let link = match link_number(link) {
        Ok(link) => link,
        Err(why) => return Err(Or::Fault(why)),
    };
    let bytes = bytes_spelled(alloc, digits)?;
    Ok(Line::Piece { link, bytes })
}

/// `{"link":N,"room":K}`.
fn room(link: &Value, room: &Value) -> Result<Line, ScriptWhy>
    ensures { result ≡ room_of (view link.now) (view room.now) }
{
    Ok(Line::Room {
        link: link_number(link)?,
        room: number_from(0, room)?,
    })
}

fn or_fault(read: Result<Line, ScriptWhy>) -> Result<Line, Or<ScriptWhy>>
    ensures { Answers result read }
{
    match read {
        Ok(line) => Ok(line),
        Err(why) => Err(Or::Fault(why)),
    }
}

/// The forms of two members.
fn two_members(
    alloc: Global,
    first: &str,
    value: &Value,
    second: &str,
    other: &Value,
) -> Result<Line, Or<ScriptWhy>>
    ensures { Answers result (two_members first.now (view value.now) second.now (view other.now)) }
{
    if first == "bytes" && second == "link" {
        piece(alloc, value, other)
    } else if first == "link" && second == "room" {
        or_fault(room(value, other))
    } else {
        Err(Or::Fault(ScriptWhy::BadKeys))
    }
}

fn line_of_members(alloc: Global, members: &Map<String, Value>) -> Result<Line, Or<ScriptWhy>>
    ensures { Answers result (line_of_members (members_view members.now.entries)) }
{
    let mut members = members.iter();
    match (members.next(), members.next(), members.next()) {
        (Some((key, value)), None, None) => or_fault(one_member(key, value)),
        (Some((first, value)), Some((second, other)), None) => {
            two_members(alloc, first, value, second, other)
        }
        _ => Err(Or::Fault(ScriptWhy::BadKeys)),
    }
}

fn line_of_value(alloc: Global, value: &Value) -> Result<Line, Or<ScriptWhy>>
    ensures { Answers result (line_of_object (as_object (view value.now))) }
{
    match value.as_object() {
        Some(members) => line_of_members(alloc, members),
        None => Err(Or::Fault(ScriptWhy::NotObject)),
    }
}

fn read_value(alloc: Global, row: &[u8]) -> Result<Value, Or<ScriptWhy>>
    ensures ok { IfOk result (λ value. value_of row.now ≡ Ok (view value)) }
    ensures err { IfErr result (Fails (value_of row.now)) }
{
    match Value::from_slice(alloc, row) {
        Ok(value) => Ok(value),
        Err(error) if error.is_memory() => Err(Or::NoMemory),
        Err(_) => Err(Or::Fault(ScriptWhy::NotJson)),
    }
}

/// The line that a row of the text is.
pub(crate) fn read_line(alloc: Global, row: &[u8]) -> Result<Line, Or<ScriptWhy>>
    ensures { Answers result (line_of row.now) }
{
    let value = read_value(alloc, row)?;
    line_of_value(alloc, &value)
}
