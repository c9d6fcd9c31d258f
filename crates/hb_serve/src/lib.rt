//! A run of the whole proxy over a world, and what holds of its trace.
#![tactic(auto)]

mod asked;
pub mod laws;
mod service;
mod words;

pub use service::serve;
pub use words::ServeWords;
