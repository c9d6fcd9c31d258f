//! The small types on which every other crate stands: bytes, text and lists that contracts see as
//! lists, addresses and identities with their text, and byte sources and sinks that count their faults.
#![tactic(auto)]

mod bytes;
mod cause;
mod cidr;
mod door;
mod groups;
mod identity;
mod ip;
mod laws;
mod list;
mod mem_sink;
mod mem_source;
mod note;
mod or;
mod parts;
mod peer;
mod pieces;
mod place;
mod reading;
mod scope;
mod short;
mod sink;
mod source;
mod std_sink;
mod std_source;
mod target;
mod text;
mod utf8;
mod writing;

pub use bytes::Bytes;
pub use cause::Cause;
pub use cidr::Cidr;
pub use door::{Door, Why};
pub use groups::put_groups;
pub use identity::{Identity, is_identity, read_identity};
pub use ip::{Ip, put_ip, read_ip};
pub use laws::{
    addresses_are_read_as_they_are_spelled, identities_are_read_as_they_are_spelled,
    written_addresses_are_read, written_targets_are_read,
};
pub use list::List;
pub use mem_sink::MemSink;
pub use mem_source::MemSource;
pub use note::Note;
pub use or::{NoMemory, Or};
pub use peer::Peer;
pub use reading::{ReadStop, read_all};
pub use scope::Scope;
pub use short::Short;
pub use sink::{Put, Sink};
pub use source::{Source, Taken};
pub use std_sink::StdSink;
pub use std_source::StdSource;
pub use target::{BadTarget, Target, put_target, read_target};
pub use text::Text;
pub use utf8::is_utf8;
pub use writing::{WriteFault, put_all};
