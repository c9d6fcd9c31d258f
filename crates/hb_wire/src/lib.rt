//! The fields of a Protocol Buffers message, in the order of its bytes, each fault at its place.
#![tactic(auto)]

mod cursor;
mod fault;
mod fields;
mod packed;
mod spelling;
mod varint;
mod writing;

pub use fault::{WireFault, WireWhy};
pub use fields::{Field, FieldValue, Fields};
pub use packed::Packed;
pub use spelling::{
    a_message_is_what_its_bytes_spell, the_next_field_is_what_its_bytes_spell,
    what_is_written_is_spelled_so,
};
pub use writing::{put_bytes, put_number, put_packed, put_varint};
