//! The way of a connection, as a line.

ghost use Rattle.std.specs.Prelude.{◌≡◌, ◌++◌, string_bytes, OnOk, IfOk};
ghost use Rattle.std.specs.Option.{option_map};
ghost use Rattle.hb_route.specs.Answer.{by_gateway, straight, no_way, way_as};
ghost use Rattle.hb_lines.specs.Way.{endpoint_text, way_text};

use hb_base::{NoMemory, Target, Text, put_target};
use hb_quote::put_name;
use hb_route::{NoRoute, Route};
use std::alloc::Global;

/// Appends the name of an endpoint, where one is known.
fn put_endpoint(alloc: Global, endpoint: Option<&Text>, line: &mut Vec<u8>) -> Result<(), NoMemory>
    ensures { OnOk result (line.new.items ≡ line.old.items ++ endpoint_text (option_map (λ name. name.now) endpoint.entry)) }
{
    let Some(name) = endpoint else {
        return Ok(());
    };
    line.extend_from_slice(b" endpoint ")?;
    put_name(alloc, name, line)
}

#[tactic(auto, unfolding(crate::specs::Way::way_text))]
fn gateway_line(
    alloc: Global,
    address: Target,
    authority: Target,
    endpoint: &Text,
) -> Result<Vec<u8>, NoMemory>
    ensures { IfOk result (λ line. line.items ≡ way_text (by_gateway address authority endpoint.now)) }
{
    let mut line = Vec::from_slice(alloc, b"gateway ")?;
    put_target(alloc, address, &mut line)?;
    line.extend_from_slice(b" authority ")?;
    put_target(alloc, authority, &mut line)?;
    put_endpoint(alloc, Some(endpoint), &mut line)?;
    line.push(b'\n')?;
    Ok(line)
}

#[tactic(auto, unfolding(crate::specs::Way::way_text))]
fn direct_line(alloc: Global, address: Target, endpoint: Option<&Text>) -> Result<Vec<u8>, NoMemory>
    ensures { IfOk result (λ line. line.items ≡ way_text (straight address (option_map (λ name. name.now) endpoint.entry))) }
{
    let mut line = Vec::from_slice(alloc, b"direct ")?;
    put_target(alloc, address, &mut line)?;
    put_endpoint(alloc, endpoint, &mut line)?;
    line.push(b'\n')?;
    Ok(line)
}

#[tactic(auto, unfolding(crate::specs::Way::way_text))]
fn refused_text(alloc: Global, why: NoRoute) -> Result<String, NoMemory>
    ensures { IfOk result (λ text. string_bytes text ≡ way_text (no_way why)) }
{
    let number = why.number();
    let text = why.text();
    format!(in alloc; "no route {number}: {text}\n")
}

/// The way that a connection takes: one line with its newline. A name that is empty, or has an octet that is no visible ASCII, a quote or a
/// backslash, is told as a string of JSON (RFC 8259 section 7).
///
/// Errors: `NoMemory`.
pub fn way_line(alloc: Global, route: &Route<'_>) -> Result<Vec<u8>, NoMemory>
    ensures { IfOk result (λ line. line.items ≡ way_text (way_as route.now)) }
{
    match route {
        Route::Gateway {
            address,
            authority,
            endpoint,
        } => gateway_line(alloc, *address, *authority, endpoint),
        Route::Direct { address, endpoint } => direct_line(alloc, *address, *endpoint),
        Route::Refused(why) => Ok(refused_text(alloc, *why)?.into_bytes()),
    }
}
