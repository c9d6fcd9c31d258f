//! Where an upstream is.

/// The tunnel that an upstream is of.
#[derive(Clone, Copy, Drop)]
pub struct Place {
    pub link: u64,
    pub stream: u32,
}
