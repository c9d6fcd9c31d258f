//! The lines that tell what a response did, what is held, what a policy says of a connection, and which way a connection takes: in JSON
//! (RFC 8259), but for ways and for resources that were refused.
#![tactic(auto)]

mod address_fields;
mod explained;
mod fields;
mod object;
mod outcome;
mod refused;
mod row;
mod rule_fields;
mod value;
mod way;
mod why;

pub use explained::explained_line;
pub use fields::fields_line;
pub use outcome::outcome_line;
pub use refused::refused_line;
pub use row::row_line;
pub use way::way_line;
