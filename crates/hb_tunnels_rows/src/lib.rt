//! Tests of the parts of tunnels: the header in front of a connection, one tunnel's rings and phases, judgements, the answers to requests
//! for tunnels, the ways of outbound connections, and what slots, tunnels and headers are where memory was wanting.
#![tactic(auto)]

#[cfg(test)]
mod front_faults;
#[cfg(test)]
mod front_reading;
#[cfg(test)]
mod front_rows;
#[cfg(test)]
mod front_writing;
#[cfg(test)]
mod judgements;
#[cfg(test)]
mod requests;
#[cfg(test)]
mod resources;
#[cfg(test)]
mod route_rows;
#[cfg(test)]
mod route_ways;
#[cfg(test)]
mod tunnel_bytes;
#[cfg(test)]
mod tunnel_phases;
#[cfg(test)]
mod verdicts;
#[cfg(test)]
mod wanting;
#[cfg(test)]
mod words;
