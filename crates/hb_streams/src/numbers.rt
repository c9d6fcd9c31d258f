//! Limits.

/// The most streams that are open or half-closed at a time.
pub(crate) const MOST_ACTIVE: usize = 100;

/// How many of the streams that this end reset are remembered.
pub(crate) const MOST_RESETS: usize = 128;
