//! What a run is asked for.

use hb_base::Target;

/// Where each door listens; `None`: the door isn't given.
#[derive(Clone, Copy)]
pub struct Doors {
    pub inbound: Option<Target>,
    pub outbound: Option<Target>,
    pub plain: Option<Target>,
}

/// What a run is asked for.
#[derive(Clone, Copy)]
pub struct ServeWords {
    pub doors: Doors,
    /// The most turns.
    pub turns: u64,
    /// The tick that ends the run; `None`: no number of them does.
    pub ticks: Option<u64>,
}
