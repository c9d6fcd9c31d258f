//! Delta discovery responses.

ghost use Rattle.std.specs.Prelude.{◌≡◌, ◌+◌, ◌^◌, ◌<◌, length};
ghost use Rattle.hb_base.specs.Outcome.{Answers, Merges};
ghost use Rattle.hb_disco.specs.Response.{any_span, resource_span, resource_in, response_span};
ghost use Rattle.hb_disco.specs.Response.{kind_of_url, response_of};

use crate::kind::Kind;
use hb_base::{Bytes, List, Or, Text};
use hb_message::{
    Message, MessageFault, add, check_text, read_message, read_text, read_whole, take_text,
};
use hb_wire::{Field, FieldValue, WireFault};
use std::alloc::Global;

/// The longest message of a discovery stream that is taken, in octets: 64 MiB.
pub const LONGEST_MESSAGE: u32 = 67_108_864;

/// Why bytes are no response. `field` is a field's number in the message that it stands in.
#[derive(Clone, Copy)]
pub enum ResponseFault {
    /// The bytes are no fields.
    Wire(WireFault),
    /// A string isn't UTF-8.
    Utf8 { field: u32 },
    /// The type is none of the two kinds of resources. Looked at last.
    UnknownType,
}

impl MessageFault for ResponseFault {
    ghost use Rattle.hb_disco.specs.declared.response.ResponseFault.TheVariants.{Wire, Utf8};

    ghost wire = { Wire };

    ghost utf8 = { Utf8 };

    fn of_wire(fault: WireFault) -> ResponseFault {
        ResponseFault::Wire(fault)
    }

    fn of_utf8(field: u32) -> ResponseFault {
        ResponseFault::Utf8 { field }
    }
}

/// A resource of a response: its name, its version, and its record with the type URL that it tells.
#[derive(Drop)]
pub struct Resource {
    pub name: Text,
    pub version: Text,
    pub type_url: Text,
    pub value: Bytes,
}

/// A response: resources that are added or replaced, and names that are removed.
#[derive(Drop)]
pub struct Response {
    pub kind: Kind,
    pub resources: List<Resource>,
    pub removed: List<Text>,
    pub nonce: Text,
}

/// A record and its type (Protocol Buffers, google.protobuf.Any).
#[derive(Drop)]
struct Any {
    type_url: Text,
    value: Bytes,
}

/// The parts of a resource as far as its fields were read.
#[derive(Drop)]
struct ResourceParts {
    name: Text,
    version: Text,
    any: Any,
}

/// The parts of a response as far as its fields were read.
#[derive(Drop)]
struct Parts {
    resources: List<Resource>,
    kind: Option<Kind>,
    nonce: Text,
    removed: List<Text>,
}

fn read_kind(url: &[u8]) -> Option<Kind>
    ensures { result ≡ kind_of_url url.now }
{
    if url == Kind::Address.type_url() {
        return Some(Kind::Address);
    }
    if url == Kind::Authorization.type_url() {
        return Some(Kind::Authorization);
    }
    None
}

impl Message for Any {
    ghost use Rattle.hb_disco.specs.Response.{any_merged};

    type Fault = ResponseFault;

    ghost merged = { any_merged };

    fn merge(&mut self, alloc: Global, field: Field<'_>) -> Result<(), Or<ResponseFault>> {
        match field.value {
            FieldValue::Span(bytes) => self.take_span(alloc, field.number, bytes),
            _ => Ok(()),
        }
    }
}

impl Any {
    fn take_span(
        &mut self,
        alloc: Global,
        number: u32,
        bytes: &[u8],
    ) -> Result<(), Or<ResponseFault>>
        ensures { Merges (any_span self.old number bytes.now) self.new result }
    {
        match number {
            1 => take_text(alloc, 1, bytes, &mut self.type_url),
            2 => {
                self.value = Bytes::of(alloc, bytes)?;
                Ok(())
            }
            _ => Ok(()),
        }
    }
}

impl Message for ResourceParts {
    ghost use Rattle.hb_disco.specs.Response.{resource_merged};

    type Fault = ResponseFault;

    ghost merged = { resource_merged };

    fn merge(&mut self, alloc: Global, field: Field<'_>) -> Result<(), Or<ResponseFault>> {
        match field.value {
            FieldValue::Span(bytes) => self.take_span(alloc, field.number, field.at, bytes),
            _ => Ok(()),
        }
    }
}

impl ResourceParts {
    fn take_span(
        &mut self,
        alloc: Global,
        number: u32,
        at: usize,
        bytes: &[u8],
    ) -> Result<(), Or<ResponseFault>>
        requires { at + length bytes.now < 2 ^ 64 }
        ensures { Merges (resource_span self.old number at bytes.now) self.new result }
    {
        match number {
            1 => take_text(alloc, 1, bytes, &mut self.version),
            2 => read_message(alloc, bytes, at, &mut self.any),
            3 => take_text(alloc, 3, bytes, &mut self.name),
            _ => Ok(()),
        }
    }
}

/// The resource of `bytes`, which stand at place `at`.
#[tactic(auto, unfolding(crate::specs::Response::resource_in))]
fn read_resource(alloc: Global, at: usize, bytes: &[u8]) -> Result<Resource, Or<ResponseFault>>
    requires { at + length bytes.now < 2 ^ 64 }
    ensures { Answers result (resource_in at bytes.now) }
{
    let value = Bytes::of(alloc, b"")?;
    let unread = ResourceParts {
        name: Text::empty(alloc),
        version: Text::empty(alloc),
        any: Any {
            type_url: Text::empty(alloc),
            value,
        },
    };
    let parts = read_whole(alloc, bytes, at, unread)?;
    Ok(Resource {
        name: parts.name,
        version: parts.version,
        type_url: parts.any.type_url,
        value: parts.any.value,
    })
}

impl Message for Parts {
    ghost use Rattle.hb_disco.specs.Response.{response_merged};

    type Fault = ResponseFault;

    ghost merged = { response_merged };

    fn merge(&mut self, alloc: Global, field: Field<'_>) -> Result<(), Or<ResponseFault>> {
        match field.value {
            FieldValue::Span(bytes) => self.take_span(alloc, field.number, field.at, bytes),
            _ => Ok(()),
        }
    }
}

impl Parts {
    fn take_span(
        &mut self,
        alloc: Global,
        number: u32,
        at: usize,
        bytes: &[u8],
    ) -> Result<(), Or<ResponseFault>>
        requires { at + length bytes.now < 2 ^ 64 }
        ensures { Merges (response_span self.old number at bytes.now) self.new result }
    {
        match number {
            1 => check_text(1, bytes),
            2 => add(&mut self.resources, read_resource(alloc, at, bytes)?),
            4 => {
                check_text(4, bytes)?;
                self.kind = read_kind(bytes);
                Ok(())
            }
            5 => take_text(alloc, 5, bytes, &mut self.nonce),
            6 => add(&mut self.removed, read_text(alloc, 6, bytes)?),
            _ => Ok(()),
        }
    }
}

/// Reads a response (Envoy xDS protocol, "Incremental xDS").
///
/// Errors: the first in order of bytes, depth first, of `Wire`, where the bytes are no fields, and `Utf8`, where a
/// string isn't UTF-8; then `UnknownType`, where the type is none of the two kinds; and `NoMemory`.
#[tactic(auto, unfolding(crate::specs::Response::response_of))]
pub fn read_response(alloc: Global, bytes: &[u8]) -> Result<Response, Or<ResponseFault>>
    ensures { Answers result (response_of bytes.now) }
{
    let unread = Parts {
        resources: List::new(alloc),
        kind: None,
        nonce: Text::empty(alloc),
        removed: List::new(alloc),
    };
    let parts = read_whole(alloc, bytes, 0, unread)?;
    let Some(kind) = parts.kind else {
        return Err(Or::Fault(ResponseFault::UnknownType));
    };
    Ok(Response {
        kind,
        resources: parts.resources,
        removed: parts.removed,
        nonce: parts.nonce,
    })
}
