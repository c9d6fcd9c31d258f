//! Authorization policies: whether one fires for a connection, and whether those counted admit it. Nothing here takes
//! memory.
#![tactic(auto)]

mod attribute;
mod policy;
mod tally;

pub use policy::{fires, first_rule};
pub use tally::Tally;
