//! Header compression for HTTP/2 (RFC 7541): a decoder that accepts exactly the header blocks of the
//! standard, and an encoder whose blocks stand for its headers.
#![tactic(auto)]

mod code_table;
mod decoder;
mod dynamic_table;
mod encoder;
mod fault;
mod header;
mod huffman;
mod integer;
mod laws;
mod literal;
mod octets;
mod partial;
mod representation;
mod spelling;
mod static_table;

pub use decoder::Decoder;
pub use encoder::Encoder;
pub use fault::{HpackFault, HpackWhy};
pub use header::{Header, HeaderList};
pub use huffman::{huffman_put, huffman_read};
pub use laws::a_block_is_read_or_broken;
pub use spelling::Spelling;
