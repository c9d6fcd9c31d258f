//! Values under numbers, as streams and links are numbered. Contracts see a finite map.
#![tactic(auto)]

mod by_id;
mod key;

pub use by_id::ById;
pub use key::Key;
