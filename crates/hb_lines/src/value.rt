//! Values in JSON.

ghost use Rattle.std.specs.Prelude.{◌≡◌, ◌++◌, ◌∷◌, [], map, string_bytes, IfOk, false};
ghost use Rattle.hex.specs.Hex.{encode_lower};
ghost use Rattle.hb_base.specs.IpText.{ip_text};
ghost use Rattle.serde_json.specs.Data.{string, array};
ghost use Rattle.serde_json.specs.View.{view, items_of};
ghost use Rattle.serde_json.specs.Written.{compact_text, has_float};

use hb_base::{Ip, NoMemory, Text, put_ip};
use hb_quote::str_of;
use hb_records::NetworkAddress;
use serde_json::Value;
use std::alloc::Global;

/// What is told as a value in JSON.
pub(crate) trait ToJson {
    ghost use Rattle.std.specs.Prelude.{IfOk, ◌≡◌};
    ghost use Rattle.serde_json.specs.Data.{Data};
    ghost use Rattle.serde_json.specs.View.{view};

    ghost told: { Self → Data };

    fn to_json(&self, alloc: Global) -> Result<Value, NoMemory>
        ensures { IfOk result (λ v. view v ≡ told self.now) };
}

/// The text of an address.
pub(crate) fn ip_string(alloc: Global, ip: Ip) -> Result<String, NoMemory>
    ensures { IfOk result (λ text. string_bytes text ≡ ip_text ip) }
{
    let mut text = Vec::new(alloc);
    put_ip(alloc, ip, &mut text)?;
    match String::from_utf8(text) {
        Ok(text) => Ok(text),
        Err(_) => unreachable!(),
    }
}

impl ToJson for Text {
    ghost use Rattle.serde_json.specs.Data.{string};

    ghost told = { string };

    fn to_json(&self, alloc: Global) -> Result<Value, NoMemory> {
        Value::try_from_str(alloc, str_of(self))
    }
}

/// Its text.
impl ToJson for Ip {
    ghost use Rattle.hb_lines.specs.Value.{ip_data};

    ghost told = { ip_data };

    fn to_json(&self, alloc: Global) -> Result<Value, NoMemory> {
        Ok(Value::String(ip_string(alloc, *self)?))
    }
}

impl ToJson for u32 {
    ghost use Rattle.hb_lines.specs.Value.{number_data};

    ghost told = { number_data };

    fn to_json(&self, _alloc: Global) -> Result<Value, NoMemory> {
        Ok(Value::from(*self))
    }
}

/// Its address.
impl ToJson for NetworkAddress {
    ghost use Rattle.hb_lines.specs.Value.{network_data};

    ghost told = { network_data };

    fn to_json(&self, alloc: Global) -> Result<Value, NoMemory> {
        self.address.to_json(alloc)
    }
}

/// An array of these items, in order.
pub(crate) fn array_of<T: ToJson>(alloc: Global, items: &[T]) -> Result<Value, NoMemory>
    ensures { IfOk result (λ v. view v ≡ array (items_of (map T.told items.now))) }
{
    let mut values = Vec::with_capacity(alloc, items.len())?;
    for item in items {
        values.push(item.to_json(alloc)?)?;
    }
    Ok(Value::Array(values))
}

/// A string of the lower-case hexadecimal digits of bytes.
pub(crate) fn hex_of(alloc: Global, bytes: &[u8]) -> Result<Value, NoMemory>
    ensures { IfOk result (λ v. view v ≡ string (encode_lower bytes.now)) }
{
    Ok(Value::String(hex::encode(alloc, bytes)?))
}

/// The compact text of a value without floats, and a newline behind it.
pub(crate) fn line_of(alloc: Global, value: &Value) -> Result<Vec<u8>, NoMemory>
    requires { has_float (view value.now) ≡ false }
    ensures { IfOk result (λ line. line.items ≡ compact_text (view value.now) ++ 10 ∷ []) }
{
    let mut line = value.to_vec(alloc)?;
    line.push(b'\n')?;
    Ok(line)
}
