//! The resources of the mesh that a node holds: what responses leave, and look-ups.
#![tactic(auto)]

mod apply;
mod doors;
mod endpoints;
mod few;
mod found;
mod held;
mod joined;
mod laws;
mod lookup;
mod numbers;
mod outcome;
mod policies;
mod rows;
mod touched;
mod versioned;

pub use doors::OwnDoors;
pub use endpoints::Endpoints;
pub use few::Few;
pub use found::{Found, FoundService};
pub use held::Held;
pub use laws::{
    changed_are_touched, first_notes_give_back, least_is_found, names_stand_once, notes_give_back,
    untouched_by_response, untouched_stays,
};
pub use outcome::{Changed, Outcome, Refusal, RefusedWhy};
pub use policies::Policies;
pub use rows::{HeldRecord, HeldRow, Rows};
pub use versioned::Versioned;
