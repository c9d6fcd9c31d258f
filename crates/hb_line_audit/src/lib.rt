//! An audit that writes a line for each note, and one for the reason of a refusal, and never waits for what takes the lines.
#![tactic(auto)]

mod backlog;
pub mod laws;
mod line_audit;
mod lines;
mod polled;
mod shared;
mod why;

pub use line_audit::LineAudit;
pub use polled::{Always, Polled};
pub use shared::SharedAudit;
