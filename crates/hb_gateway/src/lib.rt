//! A link to a gateway as a machine: its front header, its connection, and a tunnel of a captured link on each stream. `specs` says which
//! entries may come, what happens by itself, and what each tunnel hears; of its code there is only for whom such a link is.
#![tactic(auto)]

mod key;
pub mod laws;

pub use key::Key;
