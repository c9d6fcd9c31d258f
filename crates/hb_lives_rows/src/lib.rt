//! Tests of the links in code, one at a time: a node with its link to the control plane, an inbound link, a captured link and a link to a
//! gateway. Each public call is made, on its happy path and at its limits; all else that a link goes through is played by whole runs.
#![tactic(auto)]

#[cfg(test)]
mod captured;
#[cfg(test)]
mod captured_rows;
#[cfg(test)]
mod gateway;
#[cfg(test)]
mod gateway_rows;
#[cfg(test)]
mod inbound;
#[cfg(test)]
mod inbound_rows;
#[cfg(test)]
mod node;
#[cfg(test)]
mod node_rows;
#[cfg(test)]
mod octets;
#[cfg(test)]
mod resources;
#[cfg(test)]
mod told;
#[cfg(test)]
mod words;
