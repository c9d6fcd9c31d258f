//! A world around any other one that tells its trace: the list of what its calls answered, which is kept for proofs alone.
#![tactic(auto)]

mod answers;
mod call;
mod known;
pub mod laws;
mod past;
mod traced;

pub use traced::Traced;
