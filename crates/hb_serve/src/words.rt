//! What a run of the proxy is asked for.

use hb_model::NodeConfig;

/// What a run of the proxy is asked for.
#[derive(Drop)]
pub struct ServeWords {
    /// The node, with its doors and its limits.
    pub config: NodeConfig,
    /// The most turns.
    pub turns: u64,
    /// The tick that ends the run; `None`: no number of them does.
    pub ticks: Option<u64>,
}
