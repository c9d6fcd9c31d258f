//! Calls of other crates under their own contracts, so that wrong bodies of them can be tried: each function here carries the contract of
//! the public call that it makes, word for word, and the edits of this crate spoil what it hands on, what it answers or what it leaves.
#![tactic(auto)]

pub mod audit;
pub mod base;
pub mod canonical;
pub mod conn;
pub mod flow;
pub mod front;
pub mod held;
pub mod hpack;
pub mod index;
pub mod lines;
pub mod node;
pub mod owed;
pub mod records;
pub mod report;
pub mod route;
pub mod script;
pub mod table;
pub mod turns;
pub mod windows;
pub mod wire;
pub mod world;
