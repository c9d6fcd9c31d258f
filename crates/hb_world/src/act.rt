//! What a node asks of the world.

use hb_base::{Cause, Target, Why};

/// A call of the world that is due.
#[derive(Clone, Copy)]
pub enum Act {
    /// A dial. It is due until the node is told what came of it.
    Dial { to: Target, why: Why },
    /// No more is to be written to a link.
    Shut { link: u64 },
    /// A link is to end.
    Close { link: u64, cause: Cause },
}
