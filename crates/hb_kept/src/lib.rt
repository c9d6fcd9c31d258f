//! Facts of one connection that its owner keeps between two calls, in either role and on any stream (RFC 9113).
#![tactic(auto)]

pub mod laws;
