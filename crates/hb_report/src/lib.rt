//! The report of a run: its trace as lines, a line for each link, a line for each note, and the total line.
#![tactic(auto)]

mod flags;
mod link;
mod note;
mod report;
mod tallies;
mod total;

pub use flags::Flags;
pub use note::{add_note, add_target, add_was};
pub use report::put_report;
pub use total::put_total;
