//! Tests of streams, of the map under numbers and of the windows of a connection: what each frame and act is answered in each state of its
//! stream, what may be sent, taken and granted after each step, and each public call of hb_map, hb_streams and hb_flow once on its happy
//! path.
#![tactic(auto)]

#[cfg(test)]
mod fault_texts;
#[cfg(test)]
mod flow_rows;
#[cfg(test)]
mod flow_steps;
#[cfg(test)]
mod flow_windows;
#[cfg(test)]
mod map;
#[cfg(test)]
mod moves;
#[cfg(test)]
mod rows;
#[cfg(test)]
mod states;
