//! All plain links of a node under their numbers, under the number of each upstream the link that it is of, and how many of them are
//! connections to each endpoint. Each call meets the machine of hb_proxy: for each run of the whole that they showed, they show the run
//! with what they were told, and what follows from that by itself on the links.
#![tactic(auto)]

mod acts;
mod dials;
mod entries;
mod few;
mod gates;
mod joining;
mod known;
mod laws;
mod relays;
mod stirring;
mod streams;
mod telling;
mod touched;
mod updates;

pub use laws::{a_link_is_not_forgotten, links_are_shown, other_links_are_not_shown};
pub use relays::Relays;
