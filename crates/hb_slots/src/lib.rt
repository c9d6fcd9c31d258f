//! Values under numbers, each in a cell of its own, so that only an index of the cells is moved when a value comes or goes.
//! Contracts see a finite map.
#![tactic(auto)]

mod slots;

pub use slots::Slots;
