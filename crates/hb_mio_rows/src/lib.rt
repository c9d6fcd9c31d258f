//! Tests of hb_mio: real sockets of this machine, whose other ends the tests hold themselves.
#![tactic(auto)]

#[cfg(test)]
mod glances;
#[cfg(test)]
mod octets;
#[cfg(test)]
mod play;
#[cfg(test)]
mod rows;
#[cfg(test)]
mod runs;
#[cfg(test)]
mod ticks;
