//! Names among the words of a line: as they are where nobody can take them for more than a word, else as strings of JSON.
#![tactic(auto)]

mod name;

pub use name::{add_policy, add_word, put_name, str_of};
