//! What holds of the trace of a run of the whole proxy, and what it refuses. It has no code: `specs` says when a trace is lawful, and
//! gives small traces that aren't, and some that are.
#![tactic(auto)]

pub mod laws;
