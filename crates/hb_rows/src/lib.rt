//! Tests of runs of `check`, `show`, `make` and pages over memory, whose source or sinks fail or have no room. The expected values come
//! from the rules, and none from the program. All other runs are rows of the tables in tests/, which are played through the program.
#![tactic(auto)]

#[cfg(test)]
mod faults;
#[cfg(test)]
mod runs;
