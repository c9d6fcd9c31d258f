//! Whether the resources held admit a peer at a target.
#![tactic(auto)]

mod judgement;

pub use judgement::{Judged, judge};
