//! The words of the command line: what they ask for, or why they aren't accepted.
#![tactic(auto)]

mod asks;
mod fault;
mod grammar;
mod laws;
mod number;
mod page;
mod part;
mod values;
mod why;
mod words;

pub use asks::{Check, Command, Make, Replay, Route, RunWords, Serve, Show};
pub use fault::{Why, WordsFault};
pub use laws::{
    each_part_has_its_line, other_words_ask_for_no_page, words_are_read_as_they_are_spelled,
};
pub use page::Page;
pub use part::{CommandName, PartName};
pub use words::read_words;
