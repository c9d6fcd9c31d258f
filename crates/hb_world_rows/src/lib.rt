//! Tests of hb_world and hb_log: runs of a script's world, its lines on one side, calls and what they answer on the other; and what a log
//! around it is told.
#![tactic(auto)]

#[cfg(test)]
mod calls;
#[cfg(test)]
mod items;
#[cfg(test)]
mod logged;
#[cfg(test)]
mod play;
#[cfg(test)]
mod runs;
