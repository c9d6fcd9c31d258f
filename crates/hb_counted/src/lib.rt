//! Values under numbers, as hb_slots keeps them, with a count of those in each class, and the numbers from which on they may
//! be: whoever asks whether any is in one needs no walk, and a walk over those of one passes over those in front of them.
//! Contracts see a finite map.
#![tactic(auto)]

mod classes;
mod counted;
mod counts;
pub mod laws;
mod starts;

pub use classes::{Classed, Classes};
pub use counted::Counted;
pub use counts::Counts;
pub use starts::Starts;
