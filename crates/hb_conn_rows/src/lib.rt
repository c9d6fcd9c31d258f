//! Tests of one connection in both roles: for each refusal of a frame, and for what frames and acts do, what is told and
//! the octets that wait afterwards, however those that come are cut; and conversations with another implementation.
#![tactic(auto)]

#[cfg(test)]
mod acts;
#[cfg(test)]
mod conversation_rows;
#[cfg(test)]
mod conversations;
#[cfg(test)]
mod desk;
#[cfg(test)]
mod floods;
#[cfg(test)]
mod octets;
#[cfg(test)]
mod peer;
#[cfg(test)]
mod puts;
#[cfg(test)]
mod rows;
#[cfg(test)]
mod streams;
#[cfg(test)]
mod talk;
