//! How the encoder spells strings.

/// How strings are spelled: as they are, or in the Huffman code (RFC 7541 section 5.2).
#[derive(Clone, Copy)]
pub enum Spelling {
    Plain,
    Huffman,
}
