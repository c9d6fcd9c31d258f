//! What of a link is to be told.

/// A link and its upstreams, of which more may be read, or is to be written.
#[derive(Clone, Copy, Drop)]
pub struct Family {
    pub link: u64,
    /// The link itself is left to be told, and not only its upstreams that are roused.
    pub own: bool,
}
