//! Calls of the words, of the links and of whole runs under their own contracts, so that wrong bodies of them can be tried, as hb_refused
//! has those of the crates below. A crate of its own, since its checks read the statements of all crates of the proxy.
#![tactic(auto)]

pub mod cli;
pub mod gate;
pub mod link;
pub mod links;
pub mod options;
pub mod relay;
pub mod relays;
pub mod serve;
pub mod whole;
pub mod words;
