//! Why a peer was denied, by what is held: the policy that denies it, or how many allow others.
#![tactic(auto)]

mod denial;
pub mod laws;

pub use denial::reason_beside;
