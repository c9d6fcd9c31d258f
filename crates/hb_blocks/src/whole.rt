//! What is told of a header block beside its headers.

/// The HEADERS frame of a block that is whole: its stream, and whether it had END_STREAM (RFC 9113 section 6.2).
#[derive(Clone, Copy)]
pub struct Whole {
    pub stream: u32,
    pub end_stream: bool,
}

/// The HEADERS frame of a block that isn't whole yet.
#[derive(Clone, Copy)]
pub struct Opening {
    pub stream: u32,
    pub end_stream: bool,
}
