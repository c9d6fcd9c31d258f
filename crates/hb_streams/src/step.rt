//! What becomes of a frame that is no error.

/// What a received frame does.
#[derive(Clone, Copy)]
pub enum Step {
    /// It begins its stream.
    New,
    /// It goes to its stream.
    Goes,
    /// Nothing: its type isn't one that a stream's state tells about, or its stream is closed and may still get it.
    Ignored,
}
