//! Tests of `serve` over the world of a script, and of `replay`, whose input or output fails or has no room; and a made script that is
//! appended to another. The expected values come from the rules, and none from the program.
#![tactic(auto)]

#[cfg(test)]
mod made;
#[cfg(test)]
mod replays;
#[cfg(test)]
mod runs;
#[cfg(test)]
mod scripts;
#[cfg(test)]
mod served;
