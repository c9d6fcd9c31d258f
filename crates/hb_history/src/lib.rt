//! What a connection stands for: all that happened at this end of it, and the laws over every such history (RFC 9113).
#![tactic(auto)]

pub mod laws;
