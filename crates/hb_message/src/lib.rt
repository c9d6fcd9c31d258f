//! A Protocol Buffers message read field by field, over any type that takes fields and any fault: what is read is the
//! fold over the message's list of fields.
#![tactic(auto)]

mod fault;
mod message;
mod text;

pub use fault::MessageFault;
pub use message::{Message, add, read_message, read_whole};
pub use text::{check_text, read_text, take_text};
