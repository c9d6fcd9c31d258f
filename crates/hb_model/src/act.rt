//! What a node asks of the world.

use hb_base::{Cause, Target, Why};

/// A call of the world that is due.
#[derive(Clone, Copy)]
pub enum Act {
    Dial { to: Target, why: Why },
    Close { link: u64, cause: Cause },
}
