//! All inbound links of a node under their numbers, and under the number of each upstream the link and the stream that it is of. Each
//! call meets the machine of hb_proxy: for each run of the whole that they showed, they show the run with what they were told, and what
//! follows from that by itself on the links.
#![tactic(auto)]

mod acts;
mod dials;
mod entries;
mod family;
mod known;
mod laws;
mod links;
mod place;
mod stirring;
mod updates;

pub use laws::{a_link_is_not_forgotten, other_links_are_not_shown};
pub use links::Links;
