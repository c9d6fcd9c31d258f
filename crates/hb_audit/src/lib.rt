//! Audits, boxed, to which each note of a run is told: of an answer to a request, and of the end of a tunnel.
#![tactic(auto)]

mod audit;
mod audits;
mod boxed;
pub mod laws;
mod mem_audit;
mod reason;
mod same;

pub use audit::{Audit, Noted};
pub use audits::Audits;
pub use mem_audit::MemAudit;
pub use reason::Reason;
