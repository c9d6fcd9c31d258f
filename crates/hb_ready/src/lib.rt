//! What the event loop knows of the links and doors: which live, which ways sleep, and which are to be tried next.
#![tactic(auto)]

mod doors;
pub mod laws;
mod link;
mod links;

pub use doors::Asked;
pub use link::Link;
pub use links::Links;
