//! Records with their versions.

use hb_base::Text;

/// A record, and the version that came with it.
#[derive(Drop)]
pub struct Versioned<T> {
    pub version: Text,
    pub content: T,
}
