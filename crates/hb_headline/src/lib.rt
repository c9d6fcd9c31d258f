//! What the whole proxy promises, said of the trace of its sockets alone. It has no code: `specs` says it, read in the order Relay, Dials,
//! Held, Access, Windows, Buffers, Headline, and gives small traces that don't meet it, and one that does.
#![tactic(auto)]

pub mod laws;
